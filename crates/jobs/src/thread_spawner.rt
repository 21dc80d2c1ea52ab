// The spawner of the program: every start goes on.
ghost use Rattle.std.specs.Prelude.{◌≡◌};
ghost use Rattle.jobs.specs.Begun.{none_begun};

use crate::{Refused, Spawner, Started};

/// Lets every start go on.
#[derive(Debug, Drop)]
pub struct ThreadSpawner {
    begun: [u64; 3],
    faults: u64,
}

impl ThreadSpawner {
    ghost use Rattle.jobs.specs.Spawners.{begun_of, faults_of};

    /// A spawner that has begun nothing, with no fault.
    pub fn new() -> Self
        ensures begun { begun_of result ≡ none_begun }
        ensures faults { faults_of result ≡ 0 }
    {
        ThreadSpawner {
            begun: [0; 3],
            faults: 0,
        }
    }
}

impl Spawner for ThreadSpawner {
    ghost begun = { λ s. s.begun };

    ghost faults = { λ s. s.faults };

    fn admits(&mut self) -> bool {
        true
    }

    fn count_start(&mut self, started: Started) {
        self.begun[usize::from(started.kind())] += 1;
    }

    fn count_fault(&mut self, _refused: Refused) {
        self.faults = self.faults.saturating_add(1);
    }
}
