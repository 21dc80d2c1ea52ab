// What gives doors, and takes them back. Contracts see how often it failed, how many doors are out, and
// whether it was shut.
ghost use Rattle.std.specs.Prelude.{◌≡◌, ◌≢◌, ◌≤◌, ◌+◌, ◌-◌, ℕ, Bool, true, false, IfOk, OnOk, OnErr};
ghost use Rattle.hmr_base.specs.Causes.{Rose};
ghost use Rattle.hmr_base.specs.OutCauses.{HasOutCause};

use crate::{Door, OutFault};
use std::alloc::Global;

/// Listens, gives doors to as many threads as want one, and shuts them all at once.
pub trait Entrance {
    /// A share of what it listens at.
    type Door: Door;

    // How often it, or a door that it took back, has failed.
    ghost faults: { Self → ℕ };
    // How many doors it gave that it hasn't taken back.
    ghost given: { Self → ℕ };
    // Whether it was shut.
    ghost is_shut: { Self → Bool };

    /// Listens at a port of this machine, at one that is free where the port is 0, and answers which it is.
    ///
    /// `Failed` comes only where the count of faults rose in this call, as for a port that is taken, and
    /// `NoMemory` where memory ran out; another port may then be tried.
    fn listen(&mut self, alloc: Global, port: u16) -> Result<u16, OutFault>
        ensures given { given self.new ≡ given self.old }
        ensures is_shut { is_shut self.new ≡ is_shut self.old }
        ensures cause { HasOutCause (faults self.old) (faults self.new) result };

    /// At how many addresses it listens. Doors are given to them in turn, so who wants so many doors at each
    /// asks for so many times as many.
    fn addresses(&self) -> usize;

    /// One more door, which gave no end so far.
    ///
    /// `Failed` comes only where the count of faults rose in this call, `NoMemory` where memory ran out, or
    /// where 2^64 - 1 doors are out.
    fn door(&mut self, alloc: Global) -> Result<Self::Door, OutFault>
        requires going { is_shut self.old ≡ false }
        ensures going { IfOk result (λ door. Self.Door.is_shut door ≡ false) }
        ensures none_out { IfOk result (λ door. Self.Door.is_out door ≡ false) }
        ensures unvisited { IfOk result (λ door. Self.Door.visits door ≡ 0) }
        ensures clean { IfOk result (λ door. Self.Door.faults door ≡ 0) }
        ensures gave { OnOk result (given self.new ≡ given self.old + 1) }
        ensures kept { OnErr result (given self.new ≡ given self.old) }
        ensures is_shut { is_shut self.new ≡ is_shut self.old }
        ensures cause { HasOutCause (faults self.old) (faults self.new) result };

    /// Shuts all doors: each `accept` of theirs answers None from then on, also one that waits, and what
    /// waits for bytes of a visitor is told that none come.
    fn shut(&mut self)
        ensures shut { is_shut self.new ≡ true }
        ensures given { given self.new ≡ given self.old }
        ensures later { faults self.old ≤ faults self.new };

    /// Takes a door back whose last end was given back, and counts a fault exactly where the door's count
    /// isn't 0.
    fn take_back(&mut self, door: Self::Door)
        requires back { Self.Door.is_out door ≡ false }
        ensures rose { Self.Door.faults door ≢ 0 → Rose (faults self.old) (faults self.new) }
        ensures same { Self.Door.faults door ≡ 0 → faults self.new ≡ faults self.old }
        ensures later { faults self.old ≤ faults self.new }
        ensures given { given self.new ≡ given self.old - 1 }
        ensures is_shut { is_shut self.new ≡ is_shut self.old };
}
