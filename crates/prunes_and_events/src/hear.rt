// An event is fired at a page: each live instance hears it.
ghost use Rattle.std.specs.Prelude.{◌≡◌, ◌<◌, suc, length, OnOk};
ghost use Rattle.std.specs.List.{All};
ghost use Rattle.client_model.specs.Firing.{hear_all, hear_event};
ghost use Rattle.client_model.specs.Instance as model;
ghost use Rattle.module_language.specs.ModuleLanguage.{module_language};
ghost use Rattle.page_ends.specs.Each.{FollowsEach};
ghost use Rattle.page_state.specs.Standing.{Follows, KeepWords};

use hmr_types::{ModName, Value};
use output_lines::OutLine;
use page_ends::{Whose, rising_places};
use page_runs::{Given, run_listing};
use page_state::Page;
use retained_data::{Bag, Ran};
use std::alloc::{AllocError, Global};

/// The callbacks of the instance at a place that list this event are run, in the order in which they
/// came. Each is given a module whose one export `data` is the value at the places where it lists the
/// event, and `undefined` at the others. Adds their lines. It fails only where memory runs out; the
/// page can't be used then.
pub fn hear_event<F: FnOnce(Bag) -> Result<Ran, AllocError> + Drop>(
    page: &mut Page<F>,
    alloc: Global,
    place: usize,
    event: &ModName,
    value: &Value,
    lines: &mut Vec<OutLine>,
) -> Result<(), AllocError>
    requires place { place < length page.old.instances.items }
    requires callable { (f : F) → F.IsAlwaysCallable f }
    requires words { KeepWords F.post page.old }
    ensures count { OnOk result (length page.new.instances.items ≡ length page.old.instances.items) }
    ensures words { OnOk result (KeepWords F.post page.new) }
    ensures follows { (i : model.Instance) → i.number ≡ suc place
        → OnOk result (Follows (hear_event module_language event.now value.now i)
        page.old page.new lines.old.items lines.new.items) }
{
    let copy = value.clone()?;
    let given = Given::Event(copy);
    run_listing(page, alloc, place, event, &given, lines)?;
    Ok(())
}

/// The instances at these places hear an event, one after another.
fn hear_each<F: FnOnce(Bag) -> Result<Ran, AllocError> + Drop>(
    page: &mut Page<F>,
    alloc: Global,
    places: &[usize],
    event: &ModName,
    value: &Value,
    lines: &mut Vec<OutLine>,
) -> Result<(), AllocError>
    requires places { All (λ k. k < length page.old.instances.items) places.now }
    requires callable { (f : F) → F.IsAlwaysCallable f }
    requires words { KeepWords F.post page.old }
    ensures count { OnOk result (length page.new.instances.items ≡ length page.old.instances.items) }
    ensures words { OnOk result (KeepWords F.post page.new) }
    ensures each { OnOk result (FollowsEach (hear_event module_language event.now value.now) places.now
        page.old page.new lines.old.items lines.new.items) }
{
    for place in places {
        hear_event(page, alloc, *place, event, value, lines)?;
    }
    Ok(())
}

/// Each live instance hears an event, the earliest first: its callbacks that list the event are run.
/// Adds their lines. It fails only where memory runs out; the page can't be used then. It takes time
/// in proportion to the number of instances and to what the callbacks do.
pub fn hear_all<F: FnOnce(Bag) -> Result<Ran, AllocError> + Drop>(
    page: &mut Page<F>,
    alloc: Global,
    event: &ModName,
    value: &Value,
    lines: &mut Vec<OutLine>,
) -> Result<(), AllocError>
    requires callable { (f : F) → F.IsAlwaysCallable f }
    requires words { KeepWords F.post page.old }
    ensures count { OnOk result (length page.new.instances.items ≡ length page.old.instances.items) }
    ensures words { OnOk result (KeepWords F.post page.new) }
    ensures follows { OnOk result (Follows (hear_all module_language event.now value.now)
        page.old page.new lines.old.items lines.new.items) }
{
    let whose = Whose::All;
    let places = rising_places(page, alloc, &whose)?;
    hear_each(page, alloc, &places, event, value, lines)?;
    Ok(())
}
