// Who is told of what. A replaced module that accepts itself is told of itself. A module that stays is
// told of each module that it accepts by name and that is replaced or was invalidated. So a boundary
// is told of itself alone, or of names that it accepts.
ghost use Rattle.std.specs.Prelude.{◌≡◌, ◌↔◌, ◌++◌, ◌∷◌, ◌-◌, ◌&&◌, ◌||◌, not};
ghost use Rattle.std.specs.Prelude.{Contains, IfOk, OnOk, flat_map};
ghost use Rattle.core_model.specs.Names.{Name, at, has, names_of, same_name, sorted};
ghost use Rattle.core_model.specs.Spread.{AreIn, IsReplaced, is_pair, pairs_of, pairs_with};
ghost use Rattle.core_model.specs.View.{accepts, self_accepts};
ghost use Rattle.propagate.specs.Pairs.{accepted_by, own_and_accepted, told, may_be_told};

use crate::change::Change;
use crate::passing::{add_all, starts_of};
use crate::replaced::next_of_all;
use hmr_types::ModName;
use module_graph::{Edges, NameSet, View, rising};
use std::alloc::{AllocError, Global};

/// Each boundary with each module that it is told of, rising by bytes, given the replaced names. It looks up
/// who accepts the replaced and the invalidated modules, and then looks at these boundaries alone.
pub(crate) fn pairs(
    alloc: Global,
    change: &Change,
    replaced: &[ModName],
) -> Result<Vec<(ModName, ModName)>, AllocError>
    requires changed { AreIn change.now.changed.now change.now.view.now }
    requires forced { AreIn change.now.forced.now change.now.view.now }
    requires replaced { (m : Name) → Contains replaced.now m
        ↔ IsReplaced change.now.view.now change.now.changed.now change.now.forced.now m }
    ensures { IfOk result (λ pairs.
        pairs.items ≡ pairs_of change.now.view.now replaced.now change.now.forced.now) }
{
    let found = boundaries(alloc, change.view, replaced, change.forced)?;
    let names = rising(found)?;
    let replaced = NameSet::of(alloc, replaced)?;
    let forced = NameSet::of(alloc, change.forced)?;
    let pairs = all_told(alloc, change.view, &replaced, &forced, &names)?;
    Ok(pairs)
}

// The edges from each module to those that accept it by name.
#[derive(Clone, Copy)]
struct Acceptors<'a> {
    view: &'a View,
}

impl<'a> Edges for Acceptors<'a> {
    ghost edge = { λ s. accepted_by s.view.now };

    ghost names = { λ s. names_of s.view.now };

    fn next(&self, alloc: Global, name: &ModName) -> Result<Vec<ModName>, AllocError> {
        let names = self.view.acceptors(alloc, name)?;
        Ok(names)
    }
}

// The names of the modules that may be told of something.
fn boundaries(
    alloc: Global,
    view: &View,
    replaced: &[ModName],
    forced: &[ModName],
) -> Result<Vec<ModName>, AllocError>
    ensures { IfOk result (λ names. (m : Name) →
        has names.items m ≡ may_be_told view.now replaced.now forced.now m) }
{
    let graph = Acceptors { view };
    let vias = starts_of(alloc, replaced, forced)?;
    let acceptors = next_of_all(alloc, &graph, &vias)?;
    let names = starts_of(alloc, replaced, &acceptors)?;
    Ok(names)
}

// Whether the module is replaced or was invalidated.
fn is_via(replaced: &NameSet, forced: &NameSet, via: &ModName) -> bool
    ensures { result ≡ (has replaced.now via.now || has forced.now via.now) }
{
    replaced.has(via) || forced.has(via)
}

fn all_told(
    alloc: Global,
    view: &View,
    replaced: &NameSet,
    forced: &NameSet,
    names: &[ModName],
) -> Result<Vec<(ModName, ModName)>, AllocError>
    ensures { IfOk result (λ pairs.
        pairs.items ≡ flat_map (told view.now replaced.now forced.now) names.now) }
{
    let mut pairs = Vec::new(alloc);
    for name in names {
        tell(&mut pairs, alloc, view, replaced, forced, name)?;
    }
    Ok(pairs)
}

// Adds what one boundary is told of.
fn tell(
    pairs: &mut Vec<(ModName, ModName)>,
    alloc: Global,
    view: &View,
    replaced: &NameSet,
    forced: &NameSet,
    name: &ModName,
) -> Result<(), AllocError>
    ensures { OnOk result
        (pairs.new.items ≡ pairs.old.items ++ told view.now replaced.now forced.now name.now) }
{
    let names = own_and_accepted(alloc, view, name)?;
    tell_each(pairs, view, replaced, forced, name, &names)
}

fn tell_each(
    pairs: &mut Vec<(ModName, ModName)>,
    view: &View,
    replaced: &NameSet,
    forced: &NameSet,
    name: &ModName,
    names: &[ModName],
) -> Result<(), AllocError>
    ensures { let more = pairs_with (is_pair view.now replaced.now forced.now) names.now name.now in
        OnOk result (pairs.new.items ≡ pairs.old.items ++ more) }
{
    for via in names {
        if is_pair(view, replaced, forced, name, via) {
            pairs.push((name.clone()?, via.clone()?))?;
        }
    }
    Ok(())
}

// What a boundary may be told of.
fn own_and_accepted(alloc: Global, view: &View, name: &ModName) -> Result<Vec<ModName>, AllocError>
    ensures { IfOk result (λ names. names.items ≡ own_and_accepted view.now name.now) }
{
    let mut names = Vec::new(alloc);
    names.push(name.clone()?)?;
    if let Some((_, analysis)) = view.get(name) {
        add_all(&mut names, analysis.accepted.as_slice())?;
    }
    let names = rising(names)?;
    Ok(names)
}

fn is_pair(view: &View, replaced: &NameSet, forced: &NameSet, name: &ModName, via: &ModName) -> bool
    ensures { result ≡ is_pair view.now replaced.now forced.now name.now via.now }
{
    is_own_pair(view, replaced, name, via) || is_named_pair(view, replaced, forced, name, via)
}

fn is_own_pair(view: &View, replaced: &NameSet, name: &ModName, via: &ModName) -> bool
    ensures { result
        ≡ (same_name name.now via.now && has replaced.now via.now && self_accepts view.now via.now) }
{
    name == via && replaced.has(via) && view.self_accepts(via)
}

fn is_named_pair(
    view: &View,
    replaced: &NameSet,
    forced: &NameSet,
    name: &ModName,
    via: &ModName,
) -> bool
    ensures { let is_via = has replaced.now via.now || has forced.now via.now in
        result ≡ (accepts view.now name.now via.now && not (has replaced.now name.now) && is_via) }
{
    view.accepts(name, via) && !replaced.has(name) && is_via(replaced, forced, via)
}
