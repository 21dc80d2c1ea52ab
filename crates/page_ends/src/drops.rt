// What instances still hold is dropped.
ghost use Rattle.std.specs.Prelude.{◌≡◌, ◌<◌, length};
ghost use Rattle.std.specs.List.{All};
ghost use Rattle.client_model.specs.Instance.{is_held};
ghost use Rattle.client_model.specs.Running.{drop_each};
ghost use Rattle.page_ends.specs.Each.{FollowsEach};
ghost use Rattle.page_state.specs.Standing.{KeepWords};

use crate::steps::drop_held;
use page_state::Page;
use retained_data::{Bag, Ran};
use std::alloc::AllocError;

/// All handlers that the instances at these places still hold are dropped, one instance after another.
/// It tells nothing. It takes time in proportion to the number of handlers.
pub fn drop_all<F: FnOnce(Bag) -> Result<Ran, AllocError> + Drop>(
    page: &mut Page<F>,
    places: &[usize],
)
    requires { All (λ k. k < length page.old.instances.items) places.now }
    ensures count { length page.new.instances.items ≡ length page.old.instances.items }
    ensures words { KeepWords F.post page.old → KeepWords F.post page.new }
    ensures each { (lines : _) → FollowsEach (λ i r. drop_each is_held i.number r) places.now
        page.old page.new lines lines }
{
    for place in places {
        drop_held(page, *place);
    }
}
