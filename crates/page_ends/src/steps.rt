// The single steps by which an instance ends: its handlers are dropped, its data is given up, and it gets
// its fate.
ghost use Rattle.std.specs.Prelude.{◌≡◌, ◌<◌, ◌++◌, suc, false, Some, length};
ghost use Rattle.client_model.specs.Applying.{is_left_behind};
ghost use Rattle.client_model.specs.Instance.{is_held, is_live_fate};
ghost use Rattle.client_model.specs.Journal.{fate_lines};
ghost use Rattle.client_model.specs.Running.{drop_each, end_instance, give_up_bag};
ghost use Rattle.page_state.specs.Standing.{Follows, KeepWords, name_at};

use output_lines::InstanceFate;
use page_state::Page;
use retained_data::{Bag, Ran};
use std::alloc::AllocError;

/// Drops the handlers of the instance at a place but the callbacks on itself.
pub fn drop_left_behind<F: FnOnce(Bag) -> Result<Ran, AllocError> + Drop>(
    page: &mut Page<F>,
    place: usize,
)
    requires { place < length page.old.instances.items }
    ensures count { length page.new.instances.items ≡ length page.old.instances.items }
    ensures words { KeepWords F.post page.old → KeepWords F.post page.new }
    ensures follows { (lines : _) → Follows
        (drop_each is_left_behind (suc place)) page.old page.new lines lines }
{
    page.instances[place].drop_left_behind();
}

/// Drops all handlers of the instance at a place.
pub fn drop_held<F: FnOnce(Bag) -> Result<Ran, AllocError> + Drop>(page: &mut Page<F>, place: usize)
    requires { place < length page.old.instances.items }
    ensures count { length page.new.instances.items ≡ length page.old.instances.items }
    ensures words { KeepWords F.post page.old → KeepWords F.post page.new }
    ensures follows { (lines : _) → Follows
        (drop_each is_held (suc place)) page.old page.new lines lines }
{
    page.instances[place].drop_held();
}

/// Gives the instance at a place its fate, by which it is dead. It takes time in proportion to the
/// logarithm of the number of names.
pub fn end_instance<F: FnOnce(Bag) -> Result<Ran, AllocError> + Drop>(
    page: &mut Page<F>,
    place: usize,
    fate: InstanceFate,
)
    requires place { place < length page.old.instances.items }
    requires dead { is_live_fate fate ≡ false }
    ensures count { length page.new.instances.items ≡ length page.old.instances.items }
    ensures words { KeepWords F.post page.old → KeepWords F.post page.new }
    ensures follows { (told : _) (n : _) → Follows (end_instance fate (suc place) n)
        page.old page.new told (told ++ fate_lines page.old.client n fate) }
{
    page.live.end(&page.instances[place].name, place + 1);
    page.instances[place].end(fate);
}

/// Gives up the data of the name of the instance at a place. It takes time in proportion to the
/// logarithm of the number of names.
pub fn give_up_bag<F: FnOnce(Bag) -> Result<Ran, AllocError> + Drop>(
    page: &mut Page<F>,
    place: usize,
)
    requires { place < length page.old.instances.items }
    ensures count { length page.new.instances.items ≡ length page.old.instances.items }
    ensures words { KeepWords F.post page.old → KeepWords F.post page.new }
    ensures follows { (lines : _) (n : _) → name_at page.old place ≡ Some n
        → Follows (give_up_bag n) page.old page.new lines lines }
{
    page.bags.forget(&page.instances[place].name);
}
