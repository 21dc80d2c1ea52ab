// The held callbacks of an instance on its dependencies that list a name are run, one turn after another.
// They stay held, so each turn is that of a place in the table.
ghost use Rattle.std.specs.Prelude.{◌≡◌, ◌<◌, suc, true, Some, length, slice_get, OnOk};
ghost use Rattle.core_model.specs.Names.{has};
ghost use Rattle.output_lines.specs.declared.words.FaultPlace.TheVariants as fault_place;
ghost use Rattle.client_model.specs.Instance.{accepts_dep};
ghost use Rattle.client_model.specs.Running.{run_each};
ghost use Rattle.module_language.specs.ModuleLanguage.{module_language};
ghost use Rattle.page_state.specs.Standing.{Follows, KeepWords};
ghost use Rattle.page_runs.specs.Telling.{Begins, arguments_in, deps_at, run_listing};

use crate::given::{Given, arguments_given, lists};
use crate::settling::settle;
use const_eval::run_body;
use handler_table::Dep;
use hmr_types::ModName;
use output_lines::{FaultPlace, OutLine};
use page_instances::{Instance, imports_in};
use page_state::Page;
use retained_data::{Bag, Ran};
use std::alloc::{AllocError, Global};

/// How many callbacks on dependencies the instance at a place holds.
fn callback_count<F>(page: &Page<F>, place: usize) -> usize
    requires place { place < length page.now.instances.items }
    ensures { result ≡ length (deps_at page.now place) }
{
    page.instances[place].held.dep_count()
}

/// The callback on dependencies of this turn.
fn callback<F>(page: &Page<F>, place: usize, turn: usize) -> &Dep
    requires place { place < length page.now.instances.items }
    requires turn { turn < length (deps_at page.now place) }
    ensures { slice_get (deps_at page.now place) turn ≡ Some result.now }
{
    dep_of(&page.instances[place], turn)
}

/// The callback on dependencies that an instance holds for this turn.
fn dep_of<F>(instance: &Instance<F>, turn: usize) -> &Dep
    requires { turn < length instance.now.held.deps }
    ensures { slice_get instance.now.held.deps turn ≡ Some result.now }
{
    match instance.held.dep(turn) {
        Some(dep) => dep,
        None => unreachable!(),
    }
}

/// The callback of this turn is run; it lists the name.
fn run_callback<F: FnOnce(Bag) -> Result<Ran, AllocError> + Drop>(
    page: &mut Page<F>,
    alloc: Global,
    place: usize,
    turn: usize,
    name: &ModName,
    given: &Given,
    lines: &mut Vec<OutLine>,
) -> Result<(), AllocError>
    requires place { place < length page.old.instances.items }
    requires turn { turn < length (deps_at page.old place) }
    requires lists { (d : Dep) → slice_get (deps_at page.old place) turn ≡ Some d
        → has d.deps name.now ≡ true }
    requires words { KeepWords F.post page.old }
    ensures count { OnOk result (length page.new.instances.items ≡ length page.old.instances.items) }
    ensures words { OnOk result (KeepWords F.post page.new) }
    ensures deps { OnOk result (deps_at page.new place ≡ deps_at page.old place) }
    ensures runs { OnOk result (Begins (run_listing name.now given.now turn place)
        (run_listing name.now given.now (suc turn) place)
        page.old page.new lines.old.items lines.new.items) }
{
    let imports = imports_in(alloc, &page.instances, &page.instances[place])?;
    let deps = callback(page, place, turn).deps.as_slice();
    let mods = arguments_given(page, alloc, name, given, deps)?;
    let bag = page.bags.take(alloc, &page.instances[place].name);
    let instance = &page.instances[place];
    let code = &dep_of(instance, turn).code;
    let own = instance.values.as_slice();
    let ran = run_body(alloc, code, own, &imports, &mods, bag)?;
    settle(page, place, FaultPlace::Dep, ran, lines)?;
    Ok(())
}

/// The callback of this turn is run where it lists the name.
fn run_turn<F: FnOnce(Bag) -> Result<Ran, AllocError> + Drop>(
    page: &mut Page<F>,
    alloc: Global,
    place: usize,
    turn: usize,
    name: &ModName,
    given: &Given,
    lines: &mut Vec<OutLine>,
) -> Result<(), AllocError>
    requires place { place < length page.old.instances.items }
    requires turn { turn < length (deps_at page.old place) }
    requires words { KeepWords F.post page.old }
    ensures count { OnOk result (length page.new.instances.items ≡ length page.old.instances.items) }
    ensures words { OnOk result (KeepWords F.post page.new) }
    ensures deps { OnOk result (deps_at page.new place ≡ deps_at page.old place) }
    ensures runs { OnOk result (Begins (run_listing name.now given.now turn place)
        (run_listing name.now given.now (suc turn) place)
        page.old page.new lines.old.items lines.new.items) }
{
    if lists(callback(page, place, turn).deps.as_slice(), name) {
        run_callback(page, alloc, place, turn, name, given, lines)?;
    }
    Ok(())
}

/// The callbacks on dependencies of the instance at a place that list the name are run, in the order in
/// which they came. Each gets what is given for the name at the places where it lists it, and
/// `undefined` at the others. Adds their lines. It fails only where memory runs out; the page can't be
/// used then. It takes time in proportion to the callbacks that the instance holds and to what those
/// that are run do.
pub fn run_listing<F: FnOnce(Bag) -> Result<Ran, AllocError> + Drop>(
    page: &mut Page<F>,
    alloc: Global,
    place: usize,
    name: &ModName,
    given: &Given,
    lines: &mut Vec<OutLine>,
) -> Result<(), AllocError>
    requires place { place < length page.old.instances.items }
    requires words { KeepWords F.post page.old }
    ensures count { OnOk result (length page.new.instances.items ≡ length page.old.instances.items) }
    ensures words { OnOk result (KeepWords F.post page.new) }
    ensures follows { OnOk result (Follows
        (run_each module_language fault_place.Dep (arguments_in name.now given.now)
        (accepts_dep name.now) (suc place))
        page.old page.new lines.old.items lines.new.items) }
{
    for turn in 0..callback_count(page, place) {
        run_turn(page, alloc, place, turn, name, given, lines)?;
    }
    Ok(())
}
