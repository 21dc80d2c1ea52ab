// The names to be pruned. A search from the roots along imports finds what is kept; the other names
// of the view are left over.
ghost use Rattle.std.specs.Prelude.{◌≡◌, ◌↔◌, not, filter, Contains, IfOk};
ghost use Rattle.std.specs.Cmp.Lexicographic.{slice_cmp};
ghost use Rattle.std.specs.List.Sorted.{IsStrictlySortedBy};
ghost use Rattle.std.specs.Ordering.{nat_cmp};
ghost use Rattle.core_model.specs.Names.{Name, has};
ghost use Rattle.core_model.specs.View.{IsDropped, dropped_of};

use hmr_types::ModName;
use module_graph::{Imports, NameSet, View, copy_name, reached, rising};
use std::alloc::{AllocError, Global};

/// The names of the view that no list of imports from a root reaches, rising by bytes, each once. It
/// looks at each reached module once, and then through the view, with a look-up in the time of a logarithm
/// for each import and each module, and sorts what is left.
pub fn unreached(alloc: Global, view: &View, roots: &[ModName]) -> Result<Vec<ModName>, AllocError>
    ensures rising { IfOk result (λ names. IsStrictlySortedBy (slice_cmp nat_cmp) names.items) }
    ensures exact { IfOk result (λ names. (n : Name) →
        Contains names.items n ↔ IsDropped view.now roots.now n) }
    ensures computed { IfOk result (λ names. names.items ≡ dropped_of view.now roots.now) }
{
    let known = reached(alloc, &Imports::of(view), roots)?;
    let marks = NameSet::of(alloc, &known)?;
    let names = view.names(alloc)?;
    let left = names_without(alloc, &names, &marks)?;
    let unreached = rising(left)?;
    Ok(unreached)
}

// The names that aren't known.
fn names_without(
    alloc: Global,
    names: &[ModName],
    known: &NameSet,
) -> Result<Vec<ModName>, AllocError>
    ensures { IfOk result (λ left. left.items ≡ filter (λ n. not (has known.now n)) names.now) }
{
    let mut left = Vec::new(alloc);
    for name in names {
        if !known.has(name) {
            left.push(copy_name(name)?)?;
        }
    }
    Ok(left)
}
