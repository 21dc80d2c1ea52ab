// An update by which no module comes to the page: its modules stay where they are, and those that get a new
// instance get their new entries.
ghost use Rattle.std.specs.List.{list_all};
ghost use Rattle.std.specs.Prelude.{◌≡◌, true, is_some, IfOk, OnOk};
ghost use Rattle.core_model.specs.Names.{at, names_of, rising};
ghost use Rattle.core_model.specs.Page.{entry_at};
ghost use Rattle.core_model.specs.View.{table_of};
ghost use Rattle.page_plan.specs.Views.{put_found};
ghost use Rattle.client_plan.specs.Renewing.{is_renewing, put_each, put_version, put_versions, renewed_view};

use crate::table::rows_of;
use hmr_types::{ModName, PlanKind, Table, Ver};
use module_graph::{View, copy_name};
use page_plan::Plan;
use std::alloc::{AllocError, Global};

/// Whether the plan is an update, and each of these names that of a module of the page. It takes time in
/// proportion to the names.
pub(crate) fn is_renewing(plan: &Plan, view: &View, names: &[ModName]) -> bool
    ensures { result ≡ is_renewing plan.now.kind view.now names.now }
{
    match plan.kind() {
        PlanKind::Load | PlanKind::Reload => false,
        PlanKind::Update => are_there(view, names),
    }
}

// Whether each of these names is that of a module of the view.
fn are_there(view: &View, names: &[ModName]) -> bool
    ensures { result ≡ list_all (λ n. is_some (at view.now n)) names.now }
{
    for name in names {
        if view.get(name).is_none() {
            return false;
        }
    }
    true
}

/// The modules of these names get their entries of the plan in place of those that the view has, one after
/// another. It takes time in proportion to the names and to what their modules import and accept. It fails
/// only where memory runs out; some of them then have their new entries.
pub(crate) fn renew(view: &mut View, plan: &Plan, names: &[ModName]) -> Result<(), AllocError>
    ensures { OnOk result (view.new ≡ put_each plan.now names.now view.old) }
{
    for name in names {
        renew_one(view, plan, name)?;
    }
    Ok(())
}

// The module of a name gets its entry of the plan.
fn renew_one(view: &mut View, plan: &Plan, name: &ModName) -> Result<(), AllocError>
    ensures { OnOk result (view.new ≡ put_found name.now (entry_at plan.now view.old name.now) view.old) }
{
    let (version, analysis) = match plan.entry(view, name) {
        Some((version, analysis)) => (version, analysis.clone()?),
        None => return Ok(()),
    };
    view.put(copy_name(name)?, version, analysis)?;
    Ok(())
}

/// The table of the page's modules, where the modules of these names have their entries of the plan. It takes
/// time in proportion to the modules, and look-ups of the names. It fails where memory runs out; a view that
/// is no table, which no message that can be written brings about, is answered as out of memory is.
pub(crate) fn renewed_table(
    alloc: Global,
    plan: &Plan,
    view: &View,
    names: &[ModName],
) -> Result<Table, AllocError>
    ensures { rising (names_of view.now) ≡ true
        → IfOk result (λ table. table ≡ table_of (renewed_view plan.now view.now names.now)) }
{
    let mut rows = rows_of(alloc, view)?;
    renew_rows(&mut rows, plan, view, names);
    match Table::of(rows) {
        Some(table) => Ok(table),
        None => Err(AllocError),
    }
}

// In the rows of the view's modules, those of these names get their versions in the plan.
fn renew_rows(rows: &mut Vec<(ModName, Ver)>, plan: &Plan, view: &View, names: &[ModName])
    requires { names_of rows.old.items ≡ names_of view.now }
    ensures { rows.new.items ≡ put_versions (entry_at plan.now view.now) names.now rows.old.items }
{
    for name in names {
        renew_row(rows, plan, view, name);
    }
}

// The row of one name, where there is one.
fn renew_row(rows: &mut Vec<(ModName, Ver)>, plan: &Plan, view: &View, name: &ModName)
    requires { names_of rows.old.items ≡ names_of view.now }
    ensures { rows.new.items ≡ put_version name.now (entry_at plan.now view.now name.now) rows.old.items }
{
    let version = match plan.entry(view, name) {
        Some((version, _)) => version,
        None => return,
    };
    if let Some(place) = view.place(name) {
        rows[place].1 = version;
    }
}
