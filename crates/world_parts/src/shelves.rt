// The closures of clients that haven't come yet: client c gets the c-th shelf, or an empty one.
ghost use Rattle.std.specs.Prelude.{◌≡◌, ◌+◌, ◌≤◌, ℕ, List};
ghost use Rattle.std.specs.List.{All};
ghost use Rattle.core_model.specs.Sources.{Text};
ghost use Rattle.handler_table.specs.Held.{IsHost};
ghost use Rattle.handler_table.specs.Shelf.{marks_of};
ghost use Rattle.world_model.specs.Turning.{shelf_of};
ghost use Rattle.world_parts.specs.Shelves.{AreHosts, AreShelves};

use handler_table::Shelf;
use hmr_types::ClientId;
use retained_data::{Bag, Ran};
use std::alloc::{AllocError, Global};
use std::mem;

/// Takes the closures of the client of this number, from 1, out of the shelves: those of the shelf with this
/// number, or none where there are fewer shelves. The shelf is empty then. It takes constant time.
pub fn take_shelf<F: FnOnce(Bag) -> Result<Ran, AllocError> + Drop>(
    alloc: Global,
    shelves: &mut [Shelf<F>],
    client: ClientId,
) -> Shelf<F>
    requires { 1 ≤ client }
    ensures taken { (given : ℕ) (marks : List (List (Text × ℕ))) → client ≡ given + 1
        → AreShelves given marks shelves.old → marks_of result ≡ shelf_of marks client }
    ensures left { (given : ℕ) (marks : List (List (Text × ℕ))) → client ≡ given + 1
        → AreShelves given marks shelves.old → AreShelves client marks shelves.new }
    ensures host { AreHosts F.post shelves.old → All (IsHost F.post) result }
    ensures hosts { AreHosts F.post shelves.old → AreHosts F.post shelves.new }
{
    let empty = Shelf::new(Vec::new(alloc));
    let place = client as usize - 1;
    if place < shelves.len() {
        return mem::replace(&mut shelves[place], empty);
    }
    empty
}

/// Lets all closures go without a call. It takes time in their number.
pub fn discard<F: Drop>(mut shelves: Vec<Shelf<F>>) {
    while let Some(shelf) = shelves.pop() {
        shelf.end();
    }
    shelves.destroy_empty();
}
