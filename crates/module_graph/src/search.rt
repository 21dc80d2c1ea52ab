// What edges lead to from some names on. A search keeps a list of the names that it knows, at first
// the starts, and adds to its end what the edges of each lead to, until it has looked at all. It ends,
// since it knows no name twice, and edges lead to few names.
ghost use Rattle.std.specs.Prelude.{◌≡◌, ◌↔◌, Bool, List, true, IfOk, Contains};
ghost use Rattle.core_model.specs.Names.{Name, at};
ghost use Rattle.core_model.specs.Paths.{Reaches};
ghost use Rattle.core_model.specs.Roots.{are_distinct};
ghost use Rattle.core_model.specs.Rounds.{IsOver};
ghost use Rattle.core_model.specs.View.{imported_of, imports, imports_of};

use crate::known::Known;
use crate::names::copy_of;
use crate::view::View;
use hmr_types::ModName;
use std::alloc::{AllocError, Global};

/// Edges between names. Each leads to one of a list of names.
pub trait Edges {
    ghost edge: { Self → Name → Name → Bool };

    ghost names: { Self → List Name };

    /// The names that the edges of this one lead to, in any order.
    fn next(&self, alloc: Global, name: &ModName) -> Result<Vec<ModName>, AllocError>
        ensures exact { IfOk result (λ next. (m : Name) →
            Contains next.items m ↔ (edge self.now name.now m ≡ true)) }
        ensures over { IfOk result (λ _. IsOver (edge self.now) (names self.now)) };
}

/// The imports of a view: an edge from each module to what it imports.
#[derive(Clone, Copy)]
pub struct Imports<'a> {
    view: &'a View,
}

impl<'a> Imports<'a> {
    /// The imports of this view.
    pub fn of(view: &'a View) -> Imports<'a>
        ensures { result.view.now ≡ view.now }
    {
        Imports { view }
    }
}

impl<'a> Edges for Imports<'a> {
    ghost edge = { λ s. imports s.view.now };

    ghost names = { λ s. imported_of s.view.now };

    fn next(&self, alloc: Global, name: &ModName) -> Result<Vec<ModName>, AllocError> {
        let names = imports_of(alloc, self.view, name)?;
        Ok(names)
    }
}

fn imports_of(alloc: Global, view: &View, name: &ModName) -> Result<Vec<ModName>, AllocError>
    ensures { IfOk result (λ names. names.items ≡ imports_of (at view.now name.now)) }
{
    match view.get(name) {
        Some((_, analysis)) => copy_of(alloc, analysis.imports.as_slice()),
        None => Ok(Vec::new(alloc)),
    }
}

/// The names that edges lead to from the starts, and the starts, each once. It asks once for the edges
/// of each, and looks up what they lead to in the time of the logarithm of the number of names known.
pub fn reached<G: Edges>(
    alloc: Global,
    graph: &G,
    starts: &[ModName],
) -> Result<Vec<ModName>, AllocError>
    ensures exact { IfOk result (λ names. (m : Name) →
        Contains names.items m ↔ Reaches (G.edge graph.now) starts.now m) }
    ensures distinct { IfOk result (λ names. are_distinct names.items ≡ true) }
{
    let mut known = Known::new(alloc);
    known.add_all(starts)?;
    let mut at = 0;
    while at < known.names().len() {
        let next = graph.next(alloc, &known.names()[at])?;
        known.add_all(&next)?;
        at += 1;
    }
    Ok(known.into_names())
}
