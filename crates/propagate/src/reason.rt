// Why the page has to be loaded again: the least unaccepted path to a module at which a change wants
// that.
ghost use Rattle.std.specs.Prelude.{◌≡◌, IfOk, IfSome, IfNone};
ghost use Rattle.core_model.specs.Spread.{IsReason, IsReloadWanted, cause_of, reason_of};
ghost use Rattle.propagate.specs.Passing.{path_of, cause_in, ends_declining};

use crate::change::Change;
use crate::outcome::Reason;
use crate::passing::{BadEnds, Passing, starts_of};
use crate::trails::least_path;
use hmr_types::{ModName, Sequence};
use module_graph::View;
use std::alloc::{AllocError, Global};

/// The reason of a reload, where one is wanted.
pub(crate) fn reason(alloc: Global, change: &Change) -> Result<Option<Reason>, AllocError>
    ensures reason { IfOk result (λ reload. IfSome reload (λ r.
        IsReason change.now.view.now change.now.roots.now change.now.changed.now change.now.forced.now
        (path_of r))) }
    ensures cause { IfOk result (λ reload. IfSome reload (λ r.
        cause_in r ≡ cause_of change.now.view.now (path_of r))) }
    ensures none { IfOk result (λ reload. IfNone reload
        (IsReloadWanted change.now.view.now change.now.roots.now change.now.changed.now change.now.forced.now
        → ⊥)) }
{
    match least_unaccepted(alloc, change)? {
        Some(path) => Ok(Some(named(change.view, path))),
        None => Ok(None),
    }
}

fn least_unaccepted(alloc: Global, change: &Change) -> Result<Option<Vec<ModName>>, AllocError>
    ensures some { IfOk result (λ answer. IfSome answer (λ path.
        IsReason change.now.view.now change.now.roots.now change.now.changed.now change.now.forced.now
        path.items)) }
    ensures none { IfOk result (λ answer. IfNone answer
        (IsReloadWanted change.now.view.now change.now.roots.now change.now.changed.now change.now.forced.now
        → ⊥)) }
{
    let starts = starts_of(alloc, change.changed, change.forced)?;
    let graph = Passing::of(alloc, change)?;
    let ends = BadEnds::of(alloc, change)?;
    let path = least_path(alloc, &graph, &ends, &starts)?;
    Ok(path)
}

// The reason with this path.
fn named(view: &View, path: Vec<ModName>) -> Reason
    ensures path { path_of result ≡ path.items }
    ensures cause { cause_in result ≡ cause_of view.now path.items }
{
    if ends_declining(view, &path) {
        Reason::Declined(Sequence::from_vec(path))
    } else {
        Reason::Root(Sequence::from_vec(path))
    }
}

fn ends_declining(view: &View, path: &[ModName]) -> bool
    ensures { result ≡ ends_declining view.now path.now }
{
    match path.last() {
        Some(last) => view.declines(last),
        None => false,
    }
}
