// What decides of a start and counts it. Threads are started and waited for by `start_thread` and
// `finish_thread`, which ask a spawner; the decisions and the counts are all that two spawners differ in.
ghost use Rattle.std.specs.Prelude.{◌≡◌, ◌≤◌, ◌<◌, List, ℕ, length, sum};
ghost use Rattle.hmr_base.specs.Causes.{Rose};
ghost use Rattle.jobs.specs.Begun.{kinds, most_starts, one_more};

/// A thread was started, for a job of this kind. One is made for each thread, and none otherwise.
#[derive(Debug, Drop)]
pub struct Started {
    pub(crate) kind: u8,
    ghost known: { kind < kinds },
}

/// A start was refused, or what was started was given up. One is made for each such fault, and none
/// otherwise.
#[derive(Debug, Drop)]
pub struct Refused {
    pub(crate) seen: (),
}

impl Started {
    ghost use Rattle.jobs.specs.Tokens.{started_kind};

    /// The kind of the job, from 0 to 2.
    pub fn kind(&self) -> u8
        ensures is { result ≡ started_kind self.now }
        ensures range { result < kinds }
    {
        self.kind
    }
}

/// Says which starts go on, and counts those that did, by kind, and the faults. Who has no [`Started`] and
/// no [`Refused`] can count nothing.
pub trait Spawner {
    ghost use Rattle.jobs.specs.Tokens.{started_kind};

    // How many threads were started for jobs of each kind.
    ghost begun: { Self → List ℕ };
    // How often a start was refused or what was started was given up.
    ghost faults: { Self → ℕ };

    /// Whether the next start goes on. Nothing is counted.
    fn admits(&mut self) -> bool
        ensures begun { begun self.new ≡ begun self.old }
        ensures faults { faults self.new ≡ faults self.old };

    /// Counts a thread that was started.
    fn count_start(&mut self, started: Started)
        requires few { sum (begun self.old) < most_starts }
        ensures begun { begun self.new ≡ one_more (begun self.old) (started_kind started) }
        ensures faults { faults self.new ≡ faults self.old };

    /// Counts a fault.
    fn count_fault(&mut self, refused: Refused)
        ensures begun { begun self.new ≡ begun self.old }
        ensures later { faults self.old ≤ faults self.new }
        ensures rose { Rose (faults self.old) (faults self.new) };
}
