// What a plan makes of a page, by its kind: what ends, what is made, and who is told. What hangs on the old
// instances is found before any of them ends.
ghost use Rattle.std.specs.Prelude.{◌≡◌, ◌+◌, ◌<◌, ◌^◌, ◌&&◌, ◌||◌, length, true, is_some, IfOk, OnOk};
ghost use Rattle.hmr_types.specs.declared.words.PlanKind.TheVariants as plan_kind;
ghost use Rattle.core_model.specs.Names.{Name, has, same_name};
ghost use Rattle.core_model.specs.Page.{Plan};
ghost use Rattle.client_model.specs.Linking.{new_names};
ghost use Rattle.client_model.specs.Runtime.{Runtime};
ghost use Rattle.page_plan.specs.Numbers.{new_number};
ghost use Rattle.page_plan.specs.Plans.{IsSamePlan};
ghost use Rattle.page_state.specs.Standing.{KeepWords, StandsFor};
ghost use Rattle.plan_changes.specs.Changing.{AreMade, AreNumbers, CanChange, CanUpdate, HasChanged};
ghost use Rattle.plan_changes.specs.Changing.{IsChange, IsUpdate, page_done};

use hmr_types::{ModName, PlanKind};
use module_graph::copy_name;
use output_lines::OutLine;
use page_births::{Birth, make_all};
use page_ends::{Told, drop_all, reload_all, tellings};
use page_lifecycle::{replace_all, tell_all};
use page_plan::{NameSet, Numbers, Plan};
use page_state::Page;
use retained_data::{Bag, Ran};
use std::alloc::{AllocError, Global};

/// What a plan does with the instances that are there.
#[derive(Drop)]
pub enum Change {
    /// There are none.
    Load,
    /// They all end with their page.
    Reload,
    /// Some are replaced, and boundaries are told.
    Update(Update),
}

/// What an update does with the instances that are there.
#[derive(Drop)]
pub struct Update {
    /// The names whose instances are replaced.
    pub replaced: NameSet,
    /// The numbers of the new instances.
    pub numbers: Numbers,
    /// How the boundaries are told, in order.
    pub rows: Vec<Told>,
}

/// What a plan does with the instances that are there, where these names get new instances of these numbers,
/// an update tells these boundaries, and these names are forced. It takes time in proportion to the names
/// and to the boundaries, each with the logarithm of the number of names. It fails only where memory runs
/// out.
pub(crate) fn change_of<F>(
    alloc: Global,
    page: &Page<F>,
    plan: &Plan,
    numbers: Numbers,
    names: &[ModName],
    pairs: &[(ModName, ModName)],
    forced: &[ModName],
) -> Result<Change, AllocError>
    requires { (n : Name) → has names.now n ≡ true → is_some (new_number numbers n) ≡ true }
    ensures can { IfOk result (CanChange page.now) }
    ensures change { (r : Runtime) (p : Plan) → StandsFor r page.now → IsSamePlan p plan.now
        → AreNumbers r p numbers → names.now ≡ new_names p r → r.pairs ≡ pairs.now
        → r.page.forced ≡ forced.now → IfOk result (IsChange r p) }
{
    match plan.kind() {
        PlanKind::Load => Ok(Change::Load),
        PlanKind::Reload => Ok(Change::Reload),
        PlanKind::Update => {
            let update = update_of(alloc, page, plan, numbers, names, pairs, forced)?;
            Ok(Change::Update(update))
        }
    }
}

// What an update does with the instances that are there.
fn update_of<F>(
    alloc: Global,
    page: &Page<F>,
    plan: &Plan,
    numbers: Numbers,
    names: &[ModName],
    pairs: &[(ModName, ModName)],
    forced: &[ModName],
) -> Result<Update, AllocError>
    requires { (n : Name) → has names.now n ≡ true → is_some (new_number numbers n) ≡ true }
    ensures can { IfOk result (CanUpdate page.now) }
    ensures update { (r : Runtime) (p : Plan) → StandsFor r page.now → IsSamePlan p plan.now
        → plan.now.kind ≡ plan_kind.Update → AreNumbers r p numbers → names.now ≡ new_names p r
        → r.pairs ≡ pairs.now → r.page.forced ≡ forced.now → IfOk result (IsUpdate r p) }
{
    let replaced = replaced_of(alloc, plan, names)?;
    let forced = NameSet::of(alloc, forced)?;
    let rows = tellings(page, alloc, pairs, &numbers, &forced)?;
    Ok(Update {
        replaced,
        numbers,
        rows,
    })
}

// Those of these names that the plan replaces.
fn replaced_of(alloc: Global, plan: &Plan, names: &[ModName]) -> Result<NameSet, AllocError>
    ensures { (n : Name) → IfOk result (λ set.
        has set n ≡ (has plan.now.replaced n && has names.now n)) }
{
    let mut set = NameSet::new(alloc);
    for name in names {
        add_replaced(&mut set, plan, name)?;
    }
    Ok(set)
}

// Adds a name, where the plan replaces it.
fn add_replaced(set: &mut NameSet, plan: &Plan, name: &ModName) -> Result<(), AllocError>
    ensures { (n : Name) → OnOk result (has set.new n
        ≡ (has plan.now.replaced n && same_name name.now n || has set.old n)) }
{
    if plan.replaces(name) {
        set.add(copy_name(name)?)?;
    }
    Ok(())
}

/// The page becomes what a plan makes of it: old instances end, the new ones are made, and boundaries are
/// told. Adds the lines. It takes time in proportion to the number of instances, to the trees of the new
/// ones, and to what their evaluations and the handlers do. It fails only where memory runs out; the page
/// can't be used then.
pub fn change_page<F: FnOnce(Bag) -> Result<Ran, AllocError> + Drop>(
    page: &mut Page<F>,
    alloc: Global,
    change: Change,
    births: Vec<Birth>,
    lines: &mut Vec<OutLine>,
) -> Result<(), AllocError>
    requires can { CanChange page.old change }
    requires room { length page.old.instances.items + length births.items < 2 ^ 32 }
    requires callable { (f : F) → F.IsAlwaysCallable f }
    requires words { KeepWords F.post page.old }
    ensures words { OnOk result (KeepWords F.post page.new) }
    ensures changed { (r : Runtime) (p : Plan) → StandsFor r page.old → IsChange r p change
        → AreMade r p page.old births.items → OnOk result (HasChanged (page_done p.kind p r) r p
        page.old page.new lines.old.items lines.new.items) }
{
    match change {
        Change::Load => load(page, alloc, births, lines),
        Change::Reload => reload(page, alloc, births, lines),
        Change::Update(update) => replace(page, alloc, update, births, lines),
    }
}

// The page is loaded: nothing ends.
fn load<F: FnOnce(Bag) -> Result<Ran, AllocError> + Drop>(
    page: &mut Page<F>,
    alloc: Global,
    births: Vec<Birth>,
    lines: &mut Vec<OutLine>,
) -> Result<(), AllocError>
    requires room { length page.old.instances.items + length births.items < 2 ^ 32 }
    requires callable { (f : F) → F.IsAlwaysCallable f }
    requires words { KeepWords F.post page.old }
    ensures words { OnOk result (KeepWords F.post page.new) }
    ensures changed { (r : Runtime) (p : Plan) → StandsFor r page.old → p.kind ≡ plan_kind.Load
        → AreMade r p page.old births.items → OnOk result (HasChanged
        (page_done plan_kind.Load p r) r p page.old page.new lines.old.items lines.new.items) }
{
    make_all(page, alloc, births, lines)?;
    Ok(())
}

// The page is loaded anew: each instance ends with the page.
fn reload<F: FnOnce(Bag) -> Result<Ran, AllocError> + Drop>(
    page: &mut Page<F>,
    alloc: Global,
    births: Vec<Birth>,
    lines: &mut Vec<OutLine>,
) -> Result<(), AllocError>
    requires room { length page.old.instances.items + length births.items < 2 ^ 32 }
    requires callable { (f : F) → F.IsAlwaysCallable f }
    requires words { KeepWords F.post page.old }
    ensures words { OnOk result (KeepWords F.post page.new) }
    ensures changed { (r : Runtime) (p : Plan) → StandsFor r page.old → p.kind ≡ plan_kind.Reload
        → AreMade r p page.old births.items → OnOk result (HasChanged
        (page_done plan_kind.Reload p r) r p page.old page.new lines.old.items lines.new.items) }
{
    reload_all(page, alloc)?;
    make_all(page, alloc, births, lines)?;
    Ok(())
}

// Modules are replaced: their instances end, the new ones are made, boundaries are told, and the callbacks
// that were set aside and not run are dropped.
fn replace<F: FnOnce(Bag) -> Result<Ran, AllocError> + Drop>(
    page: &mut Page<F>,
    alloc: Global,
    update: Update,
    births: Vec<Birth>,
    lines: &mut Vec<OutLine>,
) -> Result<(), AllocError>
    requires can { CanUpdate page.old update }
    requires room { length page.old.instances.items + length births.items < 2 ^ 32 }
    requires callable { (f : F) → F.IsAlwaysCallable f }
    requires words { KeepWords F.post page.old }
    ensures words { OnOk result (KeepWords F.post page.new) }
    ensures changed { (r : Runtime) (p : Plan) → StandsFor r page.old → IsUpdate r p update
        → AreMade r p page.old births.items → OnOk result (HasChanged
        (page_done plan_kind.Update p r) r p page.old page.new lines.old.items lines.new.items) }
{
    let Update {
        replaced,
        numbers,
        rows,
    } = update;
    let places = replace_all(page, alloc, replaced, &numbers, lines)?;
    make_all(page, alloc, births, lines)?;
    tell_all(page, alloc, &rows, lines)?;
    drop_all(page, &places);
    Ok(())
}
