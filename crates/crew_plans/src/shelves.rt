// The closures of the program's own clients: each gets the next shelf, or an empty one where none is left.
ghost use Rattle.std.specs.List.{All};
ghost use Rattle.handler_table.specs.Held.{IsHost};

use handler_table::Shelf;
use retained_data::{Bag, Ran};
use std::alloc::{AllocError, Global};
use std::mem;

/// Takes the closures that stand at this place, counted from 0, which leaves none there; where there is no
/// such place it gives an empty shelf. The other shelves stay as they are. It takes no memory.
pub fn take_shelf<F: FnOnce(Bag) -> Result<Ran, AllocError> + Drop>(
    alloc: Global,
    shelves: &mut [Shelf<F>],
    place: usize,
) -> Shelf<F>
    ensures taken { All (All (IsHost F.post)) shelves.old → All (IsHost F.post) result }
    ensures left { All (All (IsHost F.post)) shelves.old → All (All (IsHost F.post)) shelves.new }
{
    let empty = Shelf::new(Vec::new(alloc));
    if place < shelves.len() {
        return mem::replace(&mut shelves[place], empty);
    }
    empty
}
