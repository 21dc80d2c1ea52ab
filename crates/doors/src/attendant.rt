// What serves visitors, one at a time.
ghost use Rattle.std.specs.Prelude.{◌≡◌, ◌≤◌, ℕ, Bool, false};
ghost use Rattle.transport.specs.declared.link.Phase.{Phase};
ghost use Rattle.doors.specs.Accepting.{one_more};

use crate::Visitor;
use std::alloc::Global;
use std::sync::Wait;
use transport::Link;

/// Serves one visitor after another, and may have enough at some time. What each visit keeps of it is a
/// relation: so a job that has an attendant can say what is kept over any number of visits, as the pass of a
/// hub.
pub trait Attendant {
    // Whether it serves no more.
    ghost is_done: { Self → Bool };
    // How many it served, up to the largest u64.
    ghost visits: { Self → ℕ };
    // What a visit keeps of it.
    ghost stays: { Self → Self → Type 0 };

    /// Serves a visitor, and shuts its end. It may wait.
    fn attend<R: Wait, E: Visitor>(&mut self, rt: &R, alloc: Global, end: &mut E)
        requires going { is_done self.old ≡ false }
        requires fresh { E.phase end.old ≡ Phase.Fresh }
        requires clean { E.faults end.old ≡ 0 }
        ensures shut { E.phase end.new ≡ Phase.Shut }
        ensures later { E.faults end.old ≤ E.faults end.new }
        ensures visits { visits self.new ≡ one_more (visits self.old) }
        ensures stays { stays self.old self.new };

    /// Whether it serves no more.
    fn is_done(&self) -> bool
        ensures { result ≡ is_done self.now };

    ghost same: { (attendant : Self) → stays attendant attendant };

    ghost then: { (attendant next last : Self)
        → stays attendant next → stays next last → stays attendant last };
}
