// A spawner for tests: it stands before another and refuses chosen starts.
ghost use Rattle.std.specs.Prelude.{◌≡◌};

use crate::{Refused, Spawner, Started};

/// Hands each start on to another spawner, but for those whose numbers, from 0, are to be refused.
#[derive(Debug, Drop)]
pub struct CutSpawner<P> {
    inner: P,
    starts: u64,
    refused: Vec<u64>,
}

impl<P: Spawner> CutSpawner<P> {
    /// A spawner that refuses the starts of these numbers, before another that is handed the rest. What was
    /// begun and the faults are the other's.
    pub fn new(inner: P, refused: Vec<u64>) -> Self
        ensures { result.inner ≡ inner }
    {
        CutSpawner {
            inner,
            starts: 0,
            refused,
        }
    }
}

impl<P: Spawner> Spawner for CutSpawner<P> {
    ghost begun = { λ s. P.begun s.inner };

    ghost faults = { λ s. P.faults s.inner };

    fn admits(&mut self) -> bool {
        let start = self.starts;
        self.starts = self.starts.saturating_add(1);
        !self.refused.contains(&start) && self.inner.admits()
    }

    fn count_start(&mut self, started: Started) {
        self.inner.count_start(started);
    }

    fn count_fault(&mut self, refused: Refused) {
        self.inner.count_fault(refused);
    }
}
