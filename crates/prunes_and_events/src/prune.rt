// Modules left the page: of each instance its disposer and its prune handler are run, its other handlers are
// dropped, and its data is given up.
ghost use Rattle.std.specs.Prelude.{◌≡◌, ◌<◌, suc, Some, length, OnOk};
ghost use Rattle.std.specs.List.{All};
ghost use Rattle.output_lines.specs.declared.words.FaultPlace.TheVariants.{Prune};
ghost use Rattle.core_model.specs.Names.{has};
ghost use Rattle.client_model.specs.Applying.{live_of, prune_instance};
ghost use Rattle.client_model.specs.Instance as model;
ghost use Rattle.client_model.specs.Instance.{prunes};
ghost use Rattle.client_model.specs.Running.{no_arguments, run_each};
ghost use Rattle.client_model.specs.Runtime.{for_each};
ghost use Rattle.module_language.specs.ModuleLanguage.{module_language};
ghost use Rattle.page_ends.specs.Each.{FollowsEach};
ghost use Rattle.page_state.specs.Standing.{Follows, KeepWords, name_at};

use hmr_types::ModName;
use module_semantics::ModParam;
use output_lines::{FaultPlace, InstanceFate, OutLine};
use page_ends::{Whose, drop_held, end_instance, falling_places, give_up_bag};
use page_instances::imports_in;
use page_plan::NameSet;
use page_runs::{run_disposer, settle, spend};
use page_state::Page;
use retained_data::{Bag, Ran};
use std::alloc::{AllocError, Global};

/// Runs the prune handler of the instance at a place, where it holds one, and adds its lines. It fails
/// only where memory runs out.
pub fn run_prune<F: FnOnce(Bag) -> Result<Ran, AllocError> + Drop>(
    page: &mut Page<F>,
    alloc: Global,
    place: usize,
    lines: &mut Vec<OutLine>,
) -> Result<(), AllocError>
    requires place { place < length page.old.instances.items }
    requires callable { (f : F) → F.IsAlwaysCallable f }
    requires words { KeepWords F.post page.old }
    ensures count { OnOk result (length page.new.instances.items ≡ length page.old.instances.items) }
    ensures words { OnOk result (KeepWords F.post page.new) }
    ensures follows { OnOk result
        (Follows (run_each module_language Prune no_arguments prunes (suc place))
        page.old page.new lines.old.items lines.new.items) }
{
    let imports = imports_in(alloc, &page.instances, &page.instances[place])?;
    let mods: Vec<ModParam> = Vec::new(alloc);
    let handler = match page.instances[place].take_prune() {
        Some(handler) => handler,
        None => return Ok(()),
    };
    let bag = page.bags.take(alloc, &page.instances[place].name);
    let own = page.instances[place].values.as_slice();
    let ran = spend(alloc, handler, own, &imports, &mods, bag)?;
    settle(page, place, FaultPlace::Prune, ran, lines)?;
    Ok(())
}

/// The instance at a place is pruned. Adds its lines, that of the prune last. It fails only where memory
/// runs out; the page can't be used then. It takes time in proportion to what its two handlers do and to
/// the number of its handlers.
pub fn prune_instance<F: FnOnce(Bag) -> Result<Ran, AllocError> + Drop>(
    page: &mut Page<F>,
    alloc: Global,
    place: usize,
    lines: &mut Vec<OutLine>,
) -> Result<(), AllocError>
    requires place { place < length page.old.instances.items }
    requires callable { (f : F) → F.IsAlwaysCallable f }
    requires words { KeepWords F.post page.old }
    ensures count { OnOk result (length page.new.instances.items ≡ length page.old.instances.items) }
    ensures words { OnOk result (KeepWords F.post page.new) }
    ensures follows { (i : model.Instance) → i.number ≡ suc place → name_at page.old place ≡ Some i.name
        → OnOk result (Follows (prune_instance module_language i)
        page.old page.new lines.old.items lines.new.items) }
{
    run_disposer(page, alloc, place, lines)?;
    run_prune(page, alloc, place, lines)?;
    drop_held(page, place);
    give_up_bag(page, place);
    end_instance(page, place, InstanceFate::Pruned);
    let name = page.instances[place].name.clone()?;
    lines.push(OutLine::Pruned {
        client: page.client,
        name,
    })?;
    Ok(())
}

/// The instances at these places are pruned, one after another.
fn prune_each<F: FnOnce(Bag) -> Result<Ran, AllocError> + Drop>(
    page: &mut Page<F>,
    alloc: Global,
    places: &[usize],
    lines: &mut Vec<OutLine>,
) -> Result<(), AllocError>
    requires places { All (λ k. k < length page.old.instances.items) places.now }
    requires callable { (f : F) → F.IsAlwaysCallable f }
    requires words { KeepWords F.post page.old }
    ensures count { OnOk result (length page.new.instances.items ≡ length page.old.instances.items) }
    ensures words { OnOk result (KeepWords F.post page.new) }
    ensures each { OnOk result (FollowsEach (prune_instance module_language) places.now
        page.old page.new lines.old.items lines.new.items) }
{
    for place in places {
        prune_instance(page, alloc, *place, lines)?;
    }
    Ok(())
}

/// The live instances of these names are pruned, the latest first. Adds their lines. It fails only where
/// memory runs out; the page can't be used then. It takes time in proportion to the number of instances
/// and to what the handlers do.
pub fn prune_all<F: FnOnce(Bag) -> Result<Ran, AllocError> + Drop>(
    page: &mut Page<F>,
    alloc: Global,
    names: &[ModName],
    lines: &mut Vec<OutLine>,
) -> Result<(), AllocError>
    requires callable { (f : F) → F.IsAlwaysCallable f }
    requires words { KeepWords F.post page.old }
    ensures count { OnOk result (length page.new.instances.items ≡ length page.old.instances.items) }
    ensures words { OnOk result (KeepWords F.post page.new) }
    ensures follows { OnOk result
        (Follows (λ r. for_each (prune_instance module_language) (live_of (has names.now) r) r)
        page.old page.new lines.old.items lines.new.items) }
{
    let set = NameSet::of(alloc, names)?;
    let whose = Whose::Among(set);
    let places = falling_places(page, alloc, &whose)?;
    prune_each(page, alloc, &places, lines)?;
    Ok(())
}
