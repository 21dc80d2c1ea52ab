// What gives the ends of connections one after another. Contracts see whether it answered that no more come,
// whether an end that it gave is still out, how many it gave, how often it failed and, where it tells it,
// what the connections to come will send.
ghost use Rattle.std.specs.Prelude.{◌≡◌, ◌≢◌, ◌≤◌, ℕ, List, Option, None, Bool, true, false};
ghost use Rattle.std.specs.Prelude.{IfOk, IfSome, OnErr};
ghost use Rattle.hmr_base.specs.Causes.{Rose};
ghost use Rattle.hmr_base.specs.OutCauses.{HasOutCause};
ghost use Rattle.transport.specs.declared.link.Phase.{Phase};
ghost use Rattle.transport.specs.Told.{IsNoneLeft};
ghost use Rattle.doors.specs.Accepting.{Enters, is_given, is_last, visits_after};

use crate::{OutFault, Visitor};
use std::alloc::Global;
use transport::Link;

/// A share of what listens, which one thread has. It gives one end at a time: the next only once the last was
/// given back.
pub trait Door {
    /// One end of a connection.
    type End: Visitor;

    // How often it, or an end that it took back, has failed.
    ghost faults: { Self → ℕ };
    // Whether it answered that no more come.
    ghost is_shut: { Self → Bool };
    // Whether an end that it gave was not given back yet.
    ghost is_out: { Self → Bool };
    // How many ends it gave, up to the largest u64.
    ghost visits: { Self → ℕ };
    // The bytes that each connection to come will send, where it tells them.
    ghost coming: { Self → Option (List (List ℕ)) };

    /// The end of the next connection, or None once no more come. It may wait. It may be asked only where the
    /// last end was given back, and never after a None.
    ///
    /// `Failed` comes only where the count of faults rose in this call, as where too many files are open, and
    /// `NoMemory` where memory ran out; it may be asked again.
    fn accept(&mut self, alloc: Global) -> Result<Option<Self::End>, OutFault>
        requires going { is_shut self.old ≡ false }
        requires back { is_out self.old ≡ false }
        ensures fresh { IfOk result (λ got. IfSome got (λ end. Self.End.phase end ≡ Phase.Fresh)) }
        ensures clean { IfOk result (λ got. IfSome got (λ end. Self.End.faults end ≡ 0)) }
        ensures enters { IfOk result (λ got. IfSome got
            (λ end. Enters (coming self.old) (coming self.new) (Self.End.unread end))) }
        ensures none { IfOk result (λ got. got ≡ None
            → IsNoneLeft (coming self.old) × (coming self.new ≡ coming self.old)) }
        ensures untaken { OnErr result (coming self.new ≡ coming self.old) }
        ensures out { is_out self.new ≡ is_given result }
        ensures shut { is_shut self.new ≡ is_last result }
        ensures visits { visits self.new ≡ visits_after (visits self.old) result }
        ensures cause { HasOutCause (faults self.old) (faults self.new) result };

    /// Lets one rest to whom an end was refused: over real connections it returns after 100 milliseconds, in
    /// memory at once.
    fn pause(&self);

    /// Takes a closed end back, and counts a fault exactly where the end's count isn't 0.
    fn retire(&mut self, end: Self::End)
        requires shut { Self.End.phase end ≡ Phase.Shut }
        requires out { is_out self.old ≡ true }
        ensures back { is_out self.new ≡ false }
        ensures rose { Self.End.faults end ≢ 0 → Rose (faults self.old) (faults self.new) }
        ensures same { Self.End.faults end ≡ 0 → faults self.new ≡ faults self.old }
        ensures later { faults self.old ≤ faults self.new }
        ensures is_shut { is_shut self.new ≡ is_shut self.old }
        ensures visits { visits self.new ≡ visits self.old }
        ensures coming { coming self.new ≡ coming self.old };
}
