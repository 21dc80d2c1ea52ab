// The view that a plan makes: the entries of the names that its walk meets, and in an update also the
// old entries of names that it doesn't meet. Its modules rise by name.
ghost use Rattle.std.specs.Prelude.{◌≡◌, ◌++◌, List, filter, is_some, not, option_map, true, IfOk, OnOk};
ghost use Rattle.core_model.specs.Names.{Name, collect, first_of, has, names_of, rising, sorted};
ghost use Rattle.core_model.specs.Page.{entry_at, met_of, new_entry, new_view};
ghost use Rattle.client_model.specs.Order.{evaluation_order};
ghost use Rattle.page_plan.specs.Views.{put_found};

use crate::plan::Plan;
use hmr_types::{Analysis, ModName, PlanKind, Ver};
use module_graph::{NameSet, View, copy_of, rising};
use std::alloc::{AllocError, Global};

/// The first of these names that has no entry in the plan.
pub(crate) fn unfetched<'a>(plan: &Plan, view: &View, names: &'a [ModName]) -> Option<&'a ModName>
    ensures { option_map (λ n. n.now) result
        ≡ first_of (filter (λ n. not (is_some (entry_at plan.now view.now n))) names.now) }
{
    for name in names {
        if plan.entry(view, name).is_none() {
            return Some(name);
        }
    }
    None
}

/// The view that the plan makes of the page's modules, where this is the order of its whole walk. It takes
/// the time of a sort of the names.
pub fn made_view(
    alloc: Global,
    plan: &Plan,
    view: &View,
    order: &[ModName],
) -> Result<View, AllocError>
    ensures { (roots : List Name) → order.now ≡ evaluation_order roots plan.now view.now
        → IfOk result (λ made. made ≡ new_view roots plan.now view.now) }
{
    let names = copy_of(alloc, order)?;
    let met = rising(names)?;
    let made = new_view(alloc, plan, view, &met)?;
    Ok(made)
}

/// The view that the plan makes of the page's modules, where its walk meets these names, which rise by
/// bytes.
pub(crate) fn new_view(
    alloc: Global,
    plan: &Plan,
    view: &View,
    met: &[ModName],
) -> Result<View, AllocError>
    ensures { (roots : List Name) → met.now ≡ sorted (met_of roots plan.now view.now)
        → IfOk result (λ made. made ≡ new_view roots plan.now view.now) }
{
    let set = NameSet::of(alloc, met)?;
    let names = all_names(alloc, met, view)?;
    let made = collect(alloc, plan, view, &set, &names)?;
    Ok(made)
}

// The names that are met or are on the page, rising by bytes.
fn all_names(alloc: Global, met: &[ModName], view: &View) -> Result<Vec<ModName>, AllocError>
    ensures { IfOk result (λ names. names.items ≡ sorted (met.now ++ names_of view.now)) }
{
    let mut names = copy_of(alloc, met)?;
    let mut kept = view.names(alloc)?;
    names.append(&mut kept)?;
    rising(names)
}

// The new entries of these names.
fn collect(
    alloc: Global,
    plan: &Plan,
    view: &View,
    met: &NameSet,
    names: &[ModName],
) -> Result<View, AllocError>
    requires { rising names.now ≡ true }
    ensures { IfOk result
        (λ made. made ≡ collect (λ n. new_entry (has met.now n) plan.now view.now n) names.now) }
{
    let mut made = View::new(alloc);
    for name in names {
        let entry = new_entry(plan, view, met.has(name), name);
        put_found(&mut made, name, entry)?;
    }
    Ok(made)
}

// Puts an entry into a view, where there is one.
fn put_found(
    made: &mut View,
    name: &ModName,
    entry: Option<(Ver, &Analysis)>,
) -> Result<(), AllocError>
    ensures { OnOk result
        (made.new
        ≡ put_found name.now
        (option_map (λ found. record { version = found.0; analysis = found.1.now }) entry.entry) made.old) }
{
    if let Some((version, analysis)) = entry {
        made.put(name.clone()?, version, analysis.clone()?)?;
    }
    Ok(())
}

// The entry of a module once the plan is applied, where the walk meets it or not.
fn new_entry<'a>(
    plan: &'a Plan,
    view: &'a View,
    is_met: bool,
    name: &ModName,
) -> Option<(Ver, &'a Analysis)>
    ensures { option_map (λ found. record { version = found.0; analysis = found.1.now }) result
        ≡ new_entry is_met plan.now view.now name.now }
{
    if is_met {
        return plan.entry(view, name);
    }
    match plan.kind() {
        PlanKind::Load | PlanKind::Reload => None,
        PlanKind::Update => view.get(name),
    }
}
