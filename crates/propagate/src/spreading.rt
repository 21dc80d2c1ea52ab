// How far a change spreads.
ghost use Rattle.std.specs.Prelude.{◌≡◌, ◌↔◌, Contains, IfOk, IfSome, IfNone, option_map};
ghost use Rattle.std.specs.Cmp.Lexicographic.{slice_cmp};
ghost use Rattle.std.specs.List.Sorted.{IsStrictlySortedBy};
ghost use Rattle.std.specs.Ordering.{nat_cmp};
ghost use Rattle.core_model.specs.Names.{Name};
ghost use Rattle.core_model.specs.Spread.{AreIn, IsReason, IsReloadWanted, IsReplaced, IsPair};
ghost use Rattle.core_model.specs.Spread.{cause_of, reason_of, replaced_of, pairs_of};
ghost use Rattle.propagate.specs.Pairs.{pair_cmp};
ghost use Rattle.propagate.specs.Passing.{path_of, cause_in};

use crate::change::Change;
use crate::outcome::Spread;
use crate::pairs::pairs;
use crate::reason::reason;
use crate::replaced::replaced;
use hmr_types::{ModName, Sequence};
use module_graph::View;
use std::alloc::{AllocError, Global};

/// How far a change of the changed names spreads in a view, where the forced ones were invalidated.
///
/// The reason of a reload is an unaccepted path that ends at a module which declines, at a root that
/// doesn't accept itself, or at a forced root: the one with the fewest names, and of these the least by
/// bytes, name by name. It is a path to be followed, name by name.
///
/// It looks up what the change reaches, the importers and the acceptors of that, and what these acceptors
/// accept; it doesn't look at the rest of the view.
pub fn spread(
    alloc: Global,
    view: &View,
    roots: &[ModName],
    changed: &[ModName],
    forced: &[ModName],
) -> Result<Spread, AllocError>
    requires changed { AreIn changed.now view.now }
    requires forced { AreIn forced.now view.now }
    ensures reason { IfOk result (λ s. IfSome s.reload (λ r.
        IsReason view.now roots.now changed.now forced.now (path_of r))) }
    ensures cause { IfOk result (λ s. IfSome s.reload (λ r. cause_in r ≡ cause_of view.now (path_of r))) }
    ensures no_reload { IfOk result (λ s. IfNone s.reload
        (IsReloadWanted view.now roots.now changed.now forced.now → ⊥)) }
    ensures reason_computed { IfOk result (λ s.
        option_map path_of s.reload ≡ reason_of view.now roots.now changed.now forced.now) }
    ensures replaced { IfOk result (λ s. (m : Name) →
        Contains s.replaced m ↔ IsReplaced view.now changed.now forced.now m) }
    ensures replaced_rising { IfOk result (λ s. IsStrictlySortedBy (slice_cmp nat_cmp) s.replaced) }
    ensures replaced_computed { IfOk result (λ s. s.replaced ≡ replaced_of view.now changed.now forced.now) }
    ensures pairs { IfOk result (λ s. (m n : Name) →
        Contains s.pairs (m, n) ↔ IsPair view.now changed.now forced.now m n) }
    ensures pairs_rising { IfOk result (λ s. IsStrictlySortedBy pair_cmp s.pairs) }
    ensures pairs_computed { IfOk result (λ s. s.pairs ≡ pairs_of view.now s.replaced forced.now) }
{
    let change = Change {
        view,
        roots,
        changed,
        forced,
    };
    let reload = reason(alloc, &change)?;
    let replaced = replaced(alloc, &change)?;
    let pairs = pairs(alloc, &change, &replaced)?;
    Ok(Spread {
        reload,
        replaced: Sequence::from_vec(replaced),
        pairs: Sequence::from_vec(pairs),
    })
}
