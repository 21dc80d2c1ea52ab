// Updates in which each module that is replaced still imports what it imported before, and besides only
// modules of the page. What is reached stays as it was, so the page's view gets the new entries in place:
// no walk, and no view that is put together anew. An entry that lists what the old one did takes no memory;
// at most one may list others, so that it is put first, and where memory runs out nothing has changed.
ghost use Rattle.std.specs.Prelude.{◌≡◌, ◌++◌, [], Some, true, drop, is_none, option_map, slice_get};
ghost use Rattle.std.specs.Prelude.{IfOk, IsTrue, OnErr, OnOk};
ghost use Rattle.std.specs.Cmp.Lexicographic.{slice_cmp};
ghost use Rattle.std.specs.List.Sorted.{IsStrictlySortedBy};
ghost use Rattle.std.specs.Ordering.{nat_cmp};
ghost use Rattle.core_model.specs.Names.{Name, at, has, names_of, with_entry};
ghost use Rattle.core_model.specs.View.{table_of};
ghost use Rattle.module_graph.specs.Entries.{lists_alike, put_entry};
ghost use Rattle.page_plan.specs.Renewals.{AreAlike, IsToldOf, adds_present, are_fitting};
ghost use Rattle.page_plan.specs.Renewals.{are_renewed, fetched_of, first_unlike, grow_once, is_first};
ghost use Rattle.page_plan.specs.Renewals.{is_fitting_at, is_grown, is_growing, is_renewed, is_update};
ghost use Rattle.page_plan.specs.Renewals.{put_all, put_row, renewed_view, with_first};

use crate::plan::Plan;
use hmr_types::{Analysis, ModName, PlanKind, Table, Ver};
use module_graph::{View, copy_name};
use std::alloc::{AllocError, Global};
use std::marker::Model;

/// A module with its new entry.
#[derive(Drop)]
pub struct Renewed {
    name: ModName,
    version: Ver,
    analysis: Analysis,
}

impl Model for Renewed {
    ghost use Rattle.core_model.specs.Names.{Name};
    ghost use Rattle.core_model.specs.View.{Entry};

    ghost Value = { Name × Entry };

    ghost view = { λ r. (r.name, record { version = r.version; analysis = r.analysis }) };
}

impl Plan {
    /// Whether the plan is an update, each module that it replaces was fetched and is on the page, and each
    /// lists there what it lists now, but for at most one, which imports what it did in the same order, and
    /// besides only modules of the page; `names` are those that it replaces. It takes a few look-ups and a
    /// comparison of two lists for each name, and for the one a look-up for each further import.
    pub fn is_growing(&self, view: &View, names: &[ModName]) -> bool
        requires { names.now ≡ self.now.replaced }
        ensures { result ≡ is_growing self.now view.now }
    {
        is_update(self.kind()) && grow_once(self, view, names)
    }

    /// Whether this is the table of the page's view with what was fetched of the replaced names, where the
    /// plan is such an update; `names` are those that it replaces. It takes one walk of the table beside the
    /// view, and a few look-ups for each module whose version is another.
    pub fn is_told(&self, view: &View, told: &Table, names: &[ModName]) -> bool
        requires rising { IsStrictlySortedBy (slice_cmp nat_cmp) (names_of view.now) }
        requires names { names.now ≡ self.now.replaced }
        requires growing { is_growing self.now view.now ≡ true }
        ensures { IsTrue result → told.now ≡ table_of (renewed_view self.now view.now) }
    {
        let rows = told.as_slice();
        if !are_fitting(self, view, rows) {
            return false;
        }
        are_told(self, view, rows, names)
    }

    /// What was fetched of these names, in their order. It takes time in proportion to it.
    pub fn fetched(&self, alloc: Global, names: &[ModName]) -> Result<Vec<Renewed>, AllocError>
        ensures { IfOk result (λ rows. rows.items ≡ fetched_of self.now names.now) }
    {
        let mut rows = Vec::new(alloc);
        for name in names {
            push_found(&mut rows, name, self.staged(name))?;
        }
        Ok(rows)
    }
}

/// Puts the first of the entries that lists others than its module does, if there is one: then those of an
/// update that is growing can be put in place. Where memory runs out nothing changes. It takes a look-up by
/// hash for each entry, and for the one also look-ups of what it imports and accepts.
pub fn put_first(view: &mut View, rows: &[Renewed]) -> Result<(), AllocError>
    ensures ok { OnOk result (view.new ≡ with_first rows.now view.old) }
    ensures err { OnErr result (view.new ≡ view.old) }
{
    match first_unlike(view, rows) {
        Some(row) => put_copy(view, row),
        None => Ok(()),
    }
}

fn first_unlike<'a>(view: &View, rows: &'a [Renewed]) -> Option<&'a Renewed>
    ensures { option_map (λ row. row.now) result ≡ first_unlike view.now rows.now }
{
    for row in rows {
        if !view.lists_alike(&row.name, &row.analysis) {
            return Some(row);
        }
    }
    None
}

fn put_copy(view: &mut View, row: &Renewed) -> Result<(), AllocError>
    ensures ok { OnOk result (view.new ≡ put_row (Some row.now) view.old) }
    ensures err { OnErr result (view.new ≡ view.old) }
{
    let name = copy_name(&row.name)?;
    let analysis = row.analysis.clone()?;
    view.put(name, row.version, analysis)
}

/// Gives the modules of these names their new entries, each of which lists what its module does. It takes a
/// look-up by hash for each.
pub fn put_in_place(view: &mut View, mut rows: Vec<Renewed>)
    requires { AreAlike view.old rows.items }
    ensures { view.new ≡ put_all rows.items view.old }
{
    while let Some(row) = rows.pop() {
        renew(view, row);
    }
}

fn renew(view: &mut View, row: Renewed)
    requires { lists_alike (at view.old row.0) row.1.analysis ≡ true }
    ensures { view.new ≡ put_entry row.0 row.1 view.old }
{
    let Renewed {
        name,
        version,
        analysis,
    } = row;
    view.renew(&name, version, analysis);
}

// Adds what was found of a name, if anything was.
fn push_found(
    rows: &mut Vec<Renewed>,
    name: &ModName,
    found: Option<(Ver, &Analysis)>,
) -> Result<(), AllocError>
    ensures { OnOk result
        (rows.new.items
        ≡ rows.old.items
        ++ with_entry name.now
        (option_map (λ found. record { version = found.0; analysis = found.1.now }) found.entry) []) }
{
    if let Some((version, analysis)) = found {
        let analysis = analysis.clone()?;
        rows.push(Renewed {
            name: copy_name(name)?,
            version,
            analysis,
        })?;
    }
    Ok(())
}

fn is_update(kind: PlanKind) -> bool
    ensures { result ≡ is_update kind }
{
    match kind {
        PlanKind::Load | PlanKind::Reload => false,
        PlanKind::Update => true,
    }
}

// Whether at most one of the modules lists others than it did, and that one has only grown.
fn grow_once(plan: &Plan, view: &View, names: &[ModName]) -> bool
    ensures { result ≡ grow_once plan.now view.now names.now }
{
    for place in 0..names.len() {
        if !is_renewed(plan, view, &names[place]) {
            return is_grown(plan, view, &names[place])
                && are_renewed(plan, view, &names[place + 1..]);
        }
    }
    true
}

// Whether the modules were fetched, and list what the page's do.
fn are_renewed(plan: &Plan, view: &View, names: &[ModName]) -> bool
    ensures { result ≡ are_renewed plan.now view.now names.now }
{
    names.iter().all(|name| is_renewed(plan, view, name))
}

// Whether the module is on the page and was fetched: it imports what it did, and besides only what is there.
fn is_grown(plan: &Plan, view: &View, name: &ModName) -> bool
    ensures { result ≡ is_grown view.now (at view.now name.now) (at plan.now.staged name.now) }
{
    match (view.get(name), plan.staged(name)) {
        (Some((_, kept)), Some((_, found))) => {
            adds_present(view, kept.imports.as_slice(), found.imports.as_slice())
        }
        _ => false,
    }
}

// Whether the list has the names listed before, in their order, and besides only those of the page.
fn adds_present(view: &View, before: &[ModName], names: &[ModName]) -> bool
    ensures { result ≡ adds_present view.now before.now names.now }
{
    let mut kept = 0;
    for name in names {
        if is_at(before, kept, name) {
            kept += 1;
        } else if view.get(name).is_none() {
            return false;
        }
    }
    kept == before.len()
}

fn is_at(names: &[ModName], place: usize, name: &ModName) -> bool
    ensures { result ≡ is_first (drop place names.now) name.now }
{
    match names.get(place) {
        Some(first) => first == name,
        None => false,
    }
}

// Whether the module was fetched, and lists what the page's does.
fn is_renewed(plan: &Plan, view: &View, name: &ModName) -> bool
    ensures { result ≡ is_renewed (at view.now name.now) (at plan.now.staged name.now) }
{
    match plan.staged(name) {
        Some((_, analysis)) => view.lists_alike(name, analysis),
        None => false,
    }
}

// Whether the rows have the names of the view, and the versions too, but for replaced modules.
fn are_fitting(plan: &Plan, view: &View, rows: &[(ModName, Ver)]) -> bool
    ensures { result ≡ are_fitting plan.now rows.now view.now }
{
    for place in 0..rows.len() {
        if !is_fitting_at(plan, &rows[place], view.at(place)) {
            return false;
        }
    }
    view.at(rows.len()).is_none()
}

fn is_fitting_at(
    plan: &Plan,
    row: &(ModName, Ver),
    kept: Option<(&ModName, Ver, &Analysis)>,
) -> bool
    ensures { result
        ≡ is_fitting_at plan.now row.now
        (option_map (λ found. (found.0.now, record { version = found.1; analysis = found.2.now }))
        kept.entry) }
{
    match kept {
        Some((name, version, _)) => row.0 == *name && (row.1 == version || plan.replaces(name)),
        None => false,
    }
}

// Whether each of the names is told at the version that was fetched.
fn are_told(plan: &Plan, view: &View, rows: &[(ModName, Ver)], names: &[ModName]) -> bool
    ensures { IsTrue result → (n : Name) → has names.now n ≡ true → IsToldOf plan.now rows.now n }
{
    for name in names {
        if !is_told_of(plan, view, rows, name) {
            return false;
        }
    }
    true
}

fn is_told_of(plan: &Plan, view: &View, rows: &[(ModName, Ver)], name: &ModName) -> bool
    ensures { IsTrue result → IsToldOf plan.now rows.now name.now }
{
    match (view.place(name), plan.staged(name)) {
        (Some(place), Some((version, _))) => is_row(rows, place, name, version),
        _ => false,
    }
}

fn is_row(rows: &[(ModName, Ver)], place: usize, name: &ModName, version: Ver) -> bool
    ensures { IsTrue result → slice_get rows.now place ≡ Some (name.now, version) }
{
    match rows.get(place) {
        Some(row) => row.0 == *name && row.1 == version,
        None => false,
    }
}
