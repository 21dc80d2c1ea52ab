// A value that records every second entry of those that are made here: the even ones.
ghost use Rattle.std.specs.Prelude.{◌≡◌, ⊤, [], IfOk, true};
ghost use Rattle.turn_tests.specs.Evens.{IsTaken};

use std::alloc::{AllocError, Global};
use turn_lock::Keeps;

/// Keeps even numbers. It answers whether a number was taken.
#[derive(Drop)]
pub struct Evens {
    entries: Vec<(u64, u64)>,
}

impl Evens {
    /// Room for so many numbers.
    pub fn with_room(alloc: Global, room: usize) -> Result<Evens, AllocError>
        ensures { IfOk result (λ evens. evens.entries.items ≡ []) }
    {
        Ok(Evens {
            entries: Vec::with_capacity(alloc, room)?,
        })
    }
}

impl Keeps for Evens {
    type Entry = u64;

    type Reply = bool;

    ghost history = { λ evens. evens.entries.items };

    ghost may = { λ by entry. true };

    ghost follows = { λ opening evens. ⊤ };

    ghost answers = { λ opening history by entry reply recorded. IsTaken entry reply recorded };

    fn apply(&mut self, by: u64, entry: u64) -> (bool, bool) {
        if entry % 2 != 0 || self.entries.push((by, entry)).is_err() {
            return (false, false);
        }
        (true, true)
    }
}
