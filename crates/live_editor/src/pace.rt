// How long the folder is not looked at, so that looks of a millisecond or more take a fiftieth of the time.

/// How long one rests before it listens again, in milliseconds.
pub(crate) const STEP_MILLIS: u64 = 25;

/// How often one rests after a look, at least and at most.
const FEWEST_STEPS: u64 = 2;

const MOST_STEPS: u64 = 200;

/// How many times as long as a look took is to be rested for it.
const RESTS_OF_A_LOOK: u64 = 50;

/// How many milliseconds of rest may be owed before they are made up for: a look of 40 milliseconds among
/// many that take none puts nothing off.
const OWED_MILLIS: u64 = 2_000;

/// The rest that is owed for looks, in milliseconds.
#[derive(Drop)]
pub(crate) struct Pace {
    owed: u64,
}

impl Pace {
    /// No rest is owed.
    pub fn new() -> Pace {
        Pace { owed: 0 }
    }

    /// How often one rests after a look that took so many milliseconds.
    pub fn steps_after(&mut self, millis: u64) -> u64 {
        let due = millis.saturating_mul(RESTS_OF_A_LOOK);
        self.owed = self.owed.saturating_add(due);
        let steps = if self.owed > OWED_MILLIS {
            (self.owed / STEP_MILLIS).min(MOST_STEPS)
        } else {
            FEWEST_STEPS
        };
        self.owed = self.owed.saturating_sub(steps * STEP_MILLIS);
        steps
    }
}
