// A value to be locked: it adds numbers up, and every addition is recorded.
ghost use Rattle.std.specs.Prelude.{◌≡◌, IfOk, [], true};
ghost use Rattle.turn_tests.specs.Totals.{IsReply, total_of};

use std::alloc::{AllocError, Global};
use turn_lock::Keeps;

/// What a tally is asked. Only an addition is recorded.
#[derive(Debug, Drop)]
pub enum Ask {
    Add(u64),
    Total,
}

/// Adds numbers up. It answers the total before an entry, or None where there was no memory for it.
#[derive(Drop)]
pub struct Tally {
    start: u64,
    total: u64,
    entries: Vec<(u64, Ask)>,
    ghost is_total: { total ≡ total_of start entries.items },
}

impl Tally {
    /// A tally that begins with a total, with room for so many entries.
    pub fn with_room(alloc: Global, start: u64, room: usize) -> Result<Tally, AllocError>
        ensures entries { IfOk result (λ tally. tally.entries.items ≡ []) }
        ensures start { IfOk result (λ tally. tally.start ≡ start) }
    {
        Ok(Tally {
            start,
            total: start,
            entries: Vec::with_capacity(alloc, room)?,
        })
    }
}

impl Keeps for Tally {
    type Entry = Ask;

    type Reply = Option<u64>;

    ghost history = { λ tally. tally.entries.items };

    ghost may = { λ by entry. true };

    ghost follows = { λ opening tally. tally.start ≡ opening.start };

    ghost answers = { λ opening history by entry reply recorded.
        IsReply (total_of opening.start history) entry reply recorded };

    #[tactic(auto, using(crate::proofs::Totals::total_more))]
    fn apply(&mut self, by: u64, entry: Ask) -> (Option<u64>, bool) {
        let before = self.total;
        match entry {
            Ask::Add(amount) => {
                if self.entries.push((by, Ask::Add(amount))).is_err() {
                    return (None, false);
                }
                self.total = before.wrapping_add(amount);
                (Some(before), true)
            }
            Ask::Total => (Some(before), false),
        }
    }
}
