// What a thread is given to do.
ghost use Rattle.std.specs.Prelude.{◌≡◌, ◌<◌, ℕ};
ghost use Rattle.jobs.specs.Begun.{kinds};

use std::alloc::Global;
use std::sync::Wait;

/// Work that is done in one call, or given up. What comes of it is an `Out`. Contracts see which Outs
/// stand for a job that was worked, which for one that was given up, and the kind of the job.
pub trait Job {
    /// What a job ends in, worked or not.
    type Out;

    // The Out is one of this job, worked.
    ghost works: { Self → Self.Out → Type 0 };
    // The Out is one of this job, given up.
    ghost gives_up: { Self → Self.Out → Type 0 };
    // The kind of the job: 0, 1 or 2.
    ghost kind_of: { Self → ℕ };

    /// Does the job. It may wait.
    fn work<R: Wait>(self, rt: &R, alloc: Global) -> Self::Out
        ensures { works self result };

    /// Ends the job unrun, and closes what it holds open.
    fn give_up(self) -> Self::Out
        ensures { gives_up self result };

    /// The kind of the job, from 0 to 2.
    fn kind(&self) -> u8
        ensures is { result ≡ kind_of self.now }
        ensures range { result < kinds };
}
