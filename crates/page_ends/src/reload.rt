// The page is loaded anew: each live instance ends, and no handler of it is run. All data is given up.
ghost use Rattle.std.specs.Prelude.{◌≡◌, ◌<◌, suc, None, length, OnErr, OnOk};
ghost use Rattle.std.specs.List.{All};
ghost use Rattle.core_model.specs.Names.{Name};
ghost use Rattle.client_model.specs.Applying.{reload_all, reload_instance};
ghost use Rattle.client_model.specs.Instance as model;
ghost use Rattle.client_model.specs.Runtime.{Runtime};
ghost use Rattle.page_ends.specs.Each.{FollowsEach};
ghost use Rattle.page_state.specs.Live.{number_of};
ghost use Rattle.page_state.specs.Standing.{Follows, KeepWords, StandsFor};

use crate::places::{Whose, falling_places};
use crate::steps::{drop_held, end_instance};
use output_lines::InstanceFate;
use page_state::Page;
use retained_data::{Bag, Bags, Ran};
use std::alloc::{AllocError, Global};

/// The instance at a place ends with its page: its handlers are dropped. It tells nothing. It takes
/// time in proportion to the number of its handlers.
pub fn reload_instance<F: FnOnce(Bag) -> Result<Ran, AllocError> + Drop>(
    page: &mut Page<F>,
    place: usize,
)
    requires { place < length page.old.instances.items }
    ensures count { length page.new.instances.items ≡ length page.old.instances.items }
    ensures words { KeepWords F.post page.old → KeepWords F.post page.new }
    ensures follows { (lines : _) (i : model.Instance) → i.number ≡ suc place
        → Follows (reload_instance i) page.old page.new lines lines }
{
    drop_held(page, place);
    end_instance(page, place, InstanceFate::Reloaded);
}

/// The instances at these places end with their page, one after another.
fn reload_each<F: FnOnce(Bag) -> Result<Ran, AllocError> + Drop>(
    page: &mut Page<F>,
    places: &[usize],
)
    requires { All (λ k. k < length page.old.instances.items) places.now }
    ensures count { length page.new.instances.items ≡ length page.old.instances.items }
    ensures words { KeepWords F.post page.old → KeepWords F.post page.new }
    ensures each { (lines : _) → FollowsEach reload_instance places.now page.old page.new lines lines }
{
    for place in places {
        reload_instance(page, *place);
    }
}

/// The page is loaded anew: every live instance ends, its handlers are dropped, and all data is given
/// up. It tells nothing. It fails only where memory runs out; the page is then as before. It takes
/// time in proportion to the number of instances and of the handlers of those that are live.
pub fn reload_all<F: FnOnce(Bag) -> Result<Ran, AllocError> + Drop>(
    page: &mut Page<F>,
    alloc: Global,
) -> Result<(), AllocError>
    ensures count { OnOk result (length page.new.instances.items ≡ length page.old.instances.items) }
    ensures words { KeepWords F.post page.old → OnOk result (KeepWords F.post page.new) }
    ensures gone { (r : Runtime) → StandsFor r page.old → (n : Name)
        → OnOk result (number_of page.new.live n ≡ None) }
    ensures follows { (lines : _) → OnOk result (Follows reload_all page.old page.new lines lines) }
    ensures unchanged { OnErr result (page.new ≡ page.old) }
{
    let whose = Whose::All;
    let places = falling_places(page, alloc, &whose)?;
    reload_each(page, &places);
    page.bags = Bags::new(alloc);
    Ok(())
}
