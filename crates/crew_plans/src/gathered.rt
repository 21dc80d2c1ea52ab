// What the ended jobs leave.
ghost use Rattle.std.specs.Prelude.{◌≡◌, ◌||◌, [], false, vec_len};

use hmr_hub::Pass;
use sessions::Log;
use std::alloc::Global;

/// What jobs that ended have left. How they ended is told by `memory`, `full` and `fault` alone: a session
/// that ended by a bad message, and a client of the program's own that ended by one, by an unexpected answer
/// or by too many instances, leave all three false.
#[derive(Drop)]
pub struct Gathered {
    /// The passes of workers and sessions, begun or given up.
    pub passes: Vec<Pass>,
    /// What each of the program's own clients leaves, those that were begun in the order of their beginning.
    pub logs: Vec<Log>,
    /// There was no memory for a job, or for telling the hub that a client is gone.
    pub memory: bool,
    /// The hub answered a job that its transcript is full.
    pub full: bool,
    /// The link of a job failed, or a job was given up.
    pub fault: bool,
}

impl Gathered {
    /// What is left before a job ended: no pass and no log, and nothing went wrong. It takes no memory.
    pub fn new(alloc: Global) -> Self
        ensures passes { result.passes.items ≡ [] }
        ensures counts { (vec_len result.passes ≡ 0) × (vec_len result.logs ≡ 0) }
        ensures well { (result.memory ≡ false) × (result.full ≡ false) × (result.fault ≡ false) }
    {
        Gathered {
            passes: Vec::new(alloc),
            logs: Vec::new(alloc),
            memory: false,
            full: false,
            fault: false,
        }
    }

    /// Notes what went wrong with one more job: each of the three that is true here or was noted before is
    /// noted then. The passes and the logs stay as they are, and it takes no memory.
    pub fn note(&mut self, memory: bool, full: bool, fault: bool)
        ensures memory { self.new.memory ≡ (self.old.memory || memory) }
        ensures full { self.new.full ≡ (self.old.full || full) }
        ensures fault { self.new.fault ≡ (self.old.fault || fault) }
        ensures passes { self.new.passes ≡ self.old.passes }
        ensures logs { self.new.logs ≡ self.old.logs }
    {
        self.memory = self.memory || memory;
        self.full = self.full || full;
        self.fault = self.fault || fault;
    }
}
