// The entries of a view in a map by name, in order of entering. Entries leave in one walk: first each
// that goes is looked up and marked, then the walk keeps those without a mark.
ghost use Rattle.std.specs.Prelude.{◌≡◌, ◌&&◌, not, true, IfOk, filter, option_map, position};
ghost use Rattle.std.specs.Cmp.Lexicographic.{pointwise};
ghost use Rattle.core_model.specs.Names.{at, names_of, same_name, without_all};
ghost use Rattle.core_model.specs.View.{accepted_of, imports_of};
ghost use Rattle.module_graph.specs.Entries.{lists_alike};
ghost use Rattle.module_graph.specs.Rows.{are_staying, mark_name, mark_names, renew_name, view_of};

use crate::indexes::Lists;
use hmr_types::{Analysis, ModName, Ver};
use indexmap::IndexMap;
use std::alloc::{AllocError, Global};
use std::marker::Model;

/// A module of a page: the version of its source, and what analysis told of it.
#[derive(Drop)]
pub(crate) struct Entry {
    pub(crate) version: Ver,
    pub(crate) analysis: Analysis,
}

impl Model for Entry {
    ghost use Rattle.core_model.specs.View.{Entry};

    ghost Value = { Entry };

    ghost view = { λ e. record { version = e.version; analysis = e.analysis } };
}

impl Entry {
    fn copy(&self) -> Result<Entry, AllocError>
        ensures { IfOk result (λ entry. entry ≡ self.now) }
    {
        let analysis = self.analysis.clone()?;
        Ok(Entry {
            version: self.version,
            analysis,
        })
    }

    pub(crate) fn lists(&self) -> Lists<'_>
        ensures imports { result.imports.now ≡ self.now.analysis.imports }
        ensures accepted { result.accepted.now ≡ self.now.analysis.accepted }
    {
        Lists {
            imports: self.analysis.imports.as_slice(),
            accepted: self.analysis.accepted.as_slice(),
        }
    }
}

/// An entry, and whether it is about to leave.
#[derive(Drop)]
pub(crate) struct Row {
    pub(crate) entry: Entry,
    pub(crate) leaving: bool,
}

impl Clone for Row {
    ghost is_clone = { λ row copy. copy ≡ row };

    fn clone(&self) -> Result<Row, AllocError> {
        let entry = self.entry.copy()?;
        Ok(Row {
            entry,
            leaving: self.leaving,
        })
    }
}

/// The entry of a name.
pub(crate) fn find<'a>(rows: &'a IndexMap<ModName, Row>, name: &ModName) -> Option<&'a Entry>
    ensures { option_map (λ e. e.now) result ≡ at (view_of rows.now.entries) name.now }
{
    match rows.get(name) {
        Some(row) => Some(&row.entry),
        None => None,
    }
}

/// The place of the entry of a name.
pub(crate) fn place_of(rows: &IndexMap<ModName, Row>, name: &ModName) -> Option<usize>
    ensures { result ≡ position (same_name name.now) (names_of (view_of rows.now.entries)) }
{
    rows.get_index_of(name)
}

/// What the module of a name lists; nothing where there is none.
pub(crate) fn lists_of<'a>(rows: &'a IndexMap<ModName, Row>, name: &ModName) -> Lists<'a>
    ensures imports { result.imports.now ≡ imports_of (at (view_of rows.now.entries) name.now) }
    ensures accepted { result.accepted.now ≡ accepted_of (at (view_of rows.now.entries) name.now) }
{
    match find(rows, name) {
        Some(entry) => entry.lists(),
        None => Lists {
            imports: &[],
            accepted: &[],
        },
    }
}

/// Whether the module of a name is there, and lists what the analysis says.
pub(crate) fn lists_alike(
    rows: &IndexMap<ModName, Row>,
    name: &ModName,
    analysis: &Analysis,
) -> bool
    ensures { result ≡ lists_alike (at (view_of rows.now.entries) name.now) analysis.now }
{
    match find(rows, name) {
        None => false,
        Some(entry) => are_listed(&entry.analysis, analysis),
    }
}

fn are_listed(kept: &Analysis, analysis: &Analysis) -> bool
    ensures { result ≡ (pointwise same_name kept.now.imports analysis.now.imports
        && pointwise same_name kept.now.accepted analysis.now.accepted) }
{
    kept.imports == analysis.imports && kept.accepted == analysis.accepted
}

/// Gives the row of a name this entry, where there is one.
pub(crate) fn renew(rows: &mut IndexMap<ModName, Row>, name: &ModName, entry: Entry)
    ensures { rows.new.entries ≡ renew_name name.now entry rows.old.entries }
{
    if let Some(row) = rows.get_mut(name) {
        row.entry = entry;
    }
}

/// The names of the entries, in their order.
pub(crate) fn names_in(
    alloc: Global,
    rows: &IndexMap<ModName, Row>,
) -> Result<Vec<ModName>, AllocError>
    ensures { IfOk result (λ names. names.items ≡ names_of (view_of rows.now.entries)) }
{
    let mut names = Vec::new(alloc);
    for name in rows.keys() {
        names.push(name.clone()?)?;
    }
    Ok(names)
}

/// Equal rows.
pub(crate) fn copy_of(rows: &IndexMap<ModName, Row>) -> Result<IndexMap<ModName, Row>, AllocError>
    ensures { IfOk result (λ copy. copy.entries ≡ rows.now.entries) }
{
    let copy = rows.clone()?;
    Ok(copy)
}

/// Takes out the entries of these names. The others keep their order. It takes the time of one walk.
pub(crate) fn drop_rows(rows: &mut IndexMap<ModName, Row>, names: &[ModName])
    requires { are_staying rows.old.entries ≡ true }
    ensures view { view_of rows.new.entries ≡ without_all names.now (view_of rows.old.entries) }
    ensures staying { are_staying rows.new.entries ≡ true }
{
    mark_all(rows, names);
    drop_marked(rows);
}

// Marks the rows of these names as about to leave.
fn mark_all(rows: &mut IndexMap<ModName, Row>, names: &[ModName])
    ensures { rows.new.entries ≡ mark_names names.now rows.old.entries }
{
    for name in names {
        mark(rows, name);
    }
}

// Marks the row of a name as about to leave.
fn mark(rows: &mut IndexMap<ModName, Row>, name: &ModName)
    ensures { rows.new.entries ≡ mark_name name.now rows.old.entries }
{
    if let Some(row) = rows.get_mut(name) {
        row.leaving = true;
    }
}

fn drop_marked(rows: &mut IndexMap<ModName, Row>)
    ensures { rows.new.entries ≡ filter (λ row. not row.1.leaving) rows.old.entries }
{
    rows.retain(
        |_name: &ModName, row: &mut Row| -> bool
            ensures { (result ≡ not row.old.leaving) × (row.new ≡ row.old) }
        { !row.leaving },
    );
}
