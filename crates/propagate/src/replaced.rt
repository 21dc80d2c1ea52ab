// What an update replaces: what is changed, and whatever a change is passed to. The second are the
// modules that passing edges lead to, from those on that one such edge leads to from a start.
ghost use Rattle.std.specs.Prelude.{◌≡◌, ◌↔◌, ◌++◌, true, Contains, IfOk};
ghost use Rattle.core_model.specs.Names.{Name, has, sorted};
ghost use Rattle.core_model.specs.Rounds.{touched};
ghost use Rattle.core_model.specs.Spread.{replaced_of};

use crate::change::Change;
use crate::passing::{Passing, add_all, starts_of};
use hmr_types::ModName;
use module_graph::{Edges, reached, rising};
use std::alloc::{AllocError, Global};

/// The names that an update replaces, rising by bytes, each once.
pub(crate) fn replaced(alloc: Global, change: &Change) -> Result<Vec<ModName>, AllocError>
    ensures { IfOk result (λ names.
        names.items ≡ replaced_of change.now.view.now change.now.changed.now change.now.forced.now) }
{
    let graph = Passing::of(alloc, change)?;
    let starts = starts_of(alloc, change.changed, change.forced)?;
    let firsts = next_of_all(alloc, &graph, &starts)?;
    let passed = reached(alloc, &graph, &firsts)?;
    let names = starts_of(alloc, change.changed, &passed)?;
    let replaced = rising(names)?;
    Ok(replaced)
}

/// The names that an edge leads to from one of these.
pub(crate) fn next_of_all<G: Edges>(
    alloc: Global,
    graph: &G,
    names: &[ModName],
) -> Result<Vec<ModName>, AllocError>
    ensures { IfOk result (λ all. (m : Name) → has all.items m ≡ touched (G.edge graph.now) names.now m) }
{
    let mut all = Vec::new(alloc);
    for name in names {
        let next = graph.next(alloc, name)?;
        add_all(&mut all, &next)?;
    }
    Ok(all)
}
