// The edges that a change passes, against the direction of imports: from a module to each that imports
// it and doesn't accept it, unless the module takes its own change.
ghost use Rattle.std.specs.Prelude.{◌≡◌, ◌↔◌, ◌++◌, true, Contains, IfOk, OnOk, filter};
ghost use Rattle.core_model.specs.Names.{Name, names_of};
ghost use Rattle.core_model.specs.Spread.{passes, ends_badly};
ghost use Rattle.propagate.specs.Passing.{lets_pass};

use crate::change::Change;
use crate::name_lookup::NameLookup;
use crate::trails::Ends;
use hmr_types::ModName;
use module_graph::{Edges, View, copy_of};
use std::alloc::{AllocError, Global};

/// The edges that a change passes in a view, where some modules were invalidated.
#[derive(Drop)]
pub(crate) struct Passing<'a> {
    view: &'a View,
    forced: NameLookup<'a>,
}

impl<'a> Passing<'a> {
    pub(crate) fn of(alloc: Global, change: &Change<'a>) -> Result<Passing<'a>, AllocError>
        ensures view { IfOk result (λ passing. passing.view.now ≡ change.now.view.now) }
        ensures forced { IfOk result (λ passing. passing.forced ≡ change.now.forced.now) }
    {
        let forced = NameLookup::of(alloc, change.forced)?;
        Ok(Passing {
            view: change.view,
            forced,
        })
    }
}

impl<'a> Edges for Passing<'a> {
    ghost edge = { λ s. passes s.view.now s.forced };

    ghost names = { λ s. names_of s.view.now };

    fn next(&self, alloc: Global, name: &ModName) -> Result<Vec<ModName>, AllocError> {
        let importers = self.view.importers(alloc, name)?;
        let names = let_pass(alloc, self.view, &self.forced, name, &importers)?;
        Ok(names)
    }
}

// Those of the importers of a module that a change of it passes to.
fn let_pass(
    alloc: Global,
    view: &View,
    forced: &NameLookup,
    name: &ModName,
    importers: &[ModName],
) -> Result<Vec<ModName>, AllocError>
    ensures { let passing = filter (lets_pass view.now forced.now name.now) importers.now in
        IfOk result (λ names. names.items ≡ passing) }
{
    let mut names = Vec::new(alloc);
    for importer in importers {
        if lets_pass(view, forced, name, importer) {
            names.push(importer.clone()?)?;
        }
    }
    Ok(names)
}

fn lets_pass(view: &View, forced: &NameLookup, name: &ModName, importer: &ModName) -> bool
    ensures { result ≡ lets_pass view.now forced.now name.now importer.now }
{
    !view.accepts(importer, name) && (!view.self_accepts(name) || forced.has(name))
}

/// The modules at which a change wants the page to be loaded again.
#[derive(Drop)]
pub(crate) struct BadEnds<'a> {
    view: &'a View,
    roots: NameLookup<'a>,
    forced: NameLookup<'a>,
}

impl<'a> BadEnds<'a> {
    pub(crate) fn of(alloc: Global, change: &Change<'a>) -> Result<BadEnds<'a>, AllocError>
        ensures view { IfOk result (λ ends. ends.view.now ≡ change.now.view.now) }
        ensures roots { IfOk result (λ ends. ends.roots ≡ change.now.roots.now) }
        ensures forced { IfOk result (λ ends. ends.forced ≡ change.now.forced.now) }
    {
        let roots = NameLookup::of(alloc, change.roots)?;
        let forced = NameLookup::of(alloc, change.forced)?;
        Ok(BadEnds {
            view: change.view,
            roots,
            forced,
        })
    }
}

impl<'a> Ends for BadEnds<'a> {
    ghost bad = { λ s. ends_badly s.view.now s.roots s.forced };

    fn is_bad(&self, name: &ModName) -> bool {
        ends_badly(self.view, &self.roots, &self.forced, name)
    }
}

fn ends_badly(view: &View, roots: &NameLookup, forced: &NameLookup, name: &ModName) -> bool
    ensures { result ≡ ends_badly view.now roots.now forced.now name.now }
{
    view.declines(name) || (roots.has(name) && (!view.self_accepts(name) || forced.has(name)))
}

/// The modules that a change starts from.
pub(crate) fn starts_of(
    alloc: Global,
    changed: &[ModName],
    forced: &[ModName],
) -> Result<Vec<ModName>, AllocError>
    ensures { IfOk result (λ names. names.items ≡ changed.now ++ forced.now) }
{
    let mut starts = copy_of(alloc, changed)?;
    add_all(&mut starts, forced)?;
    Ok(starts)
}

/// Adds copies of the names at the end.
pub(crate) fn add_all(names: &mut Vec<ModName>, more: &[ModName]) -> Result<(), AllocError>
    ensures { OnOk result (names.new.items ≡ names.old.items ++ more.now) }
{
    for name in more {
        names.push(name.clone()?)?;
    }
    Ok(())
}
