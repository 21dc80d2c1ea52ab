// What gives the ends of connections. Contracts see what it was first asked, the port that it listens
// at, how often it failed and, where it tells them, the messages of the end that comes next, and of the end
// that came back last those that were left to it and those that it sent. They also see how many ends are
// out, whether an end was refused, and whether one was given after that.
ghost use Rattle.std.specs.Prelude.{◌≡◌, ◌≢◌, ◌≤◌, ◌-◌};
ghost use Rattle.std.specs.Prelude.{ℕ, List, Option, Some, None, Bool, false, IfOk, OnOk, OnErr, IsSome};
ghost use Rattle.hmr_base.specs.Causes.{Rose};
ghost use Rattle.hmr_base.specs.OutCauses.{HasOutCause, is_failed};
ghost use Rattle.hmr_base.specs.Plans.{AsPlanned, Plan};
ghost use Rattle.transport.specs.declared.link.Phase.{Phase};
ghost use Rattle.transport.specs.declared.net.Asked.{Asked};
ghost use Rattle.transport.specs.Asks.{MayConnect, first_asked};
ghost use Rattle.transport.specs.Ends.{ends_after, plan_of_next};
ghost use Rattle.transport.specs.Lending.{HasGiven, HasRefused};
ghost use Rattle.transport.specs.Told.{told_none, told_of};

use crate::{Link, OutFault};
use std::alloc::Global;

/// What a net was first asked.
#[derive(Clone, Copy, Debug, PartialEq, Eq)]
pub enum Asked {
    /// To listen at this port.
    Listen(u16),
    /// To connect to this port.
    Connect(u16),
}

/// Gives the ends of connections, and takes them back.
pub trait Net {
    /// One end of a connection.
    type End: Link;

    // How often it, or an end that it took back, has failed.
    ghost faults: { Self → ℕ };
    // How many ends it gave that it hasn't taken back.
    ghost lent: { Self → ℕ };
    // Whether `accept` or `connect` was ever refused.
    ghost refused: { Self → Bool };
    // Whether it gave an end after that.
    ghost late: { Self → Bool };
    // What it was first asked.
    ghost asked: { Self → Option Asked };
    // The port that `listen` answered.
    ghost heard: { Self → Option ℕ };
    // The messages of the end that the next `connect` gives, where it tells them.
    ghost coming: { Self → Option (List (List ℕ)) };
    // The messages that were left to the end which it took back last, where it tells messages.
    ghost unread: { Self → Option (List (List ℕ)) };
    // The messages that this end had sent, where it tells messages.
    ghost spoken: { Self → Option (List (List ℕ)) };
    // Which calls of `listen`, `accept` and `connect` are to fail, where it tells that.
    ghost plan: { Self → Option Plan };
    // For each end to come the numbers of its calls that are to fail, where it tells them.
    ghost ends: { Self → Option (List (List ℕ)) };

    /// Listens at a port, at one that is free where the port is 0, and answers which it is.
    ///
    /// `Failed` comes only where the count of faults rose in this call, `NoMemory` where memory ran out.
    fn listen(&mut self, alloc: Global, port: u16) -> Result<u16, OutFault>
        requires unasked { asked self.old ≡ None }
        ensures asked { asked self.new ≡ Some (Asked.Listen port) }
        ensures heard { IfOk result (λ heard_port. heard self.new ≡ Some heard_port) }
        ensures coming { coming self.new ≡ coming self.old }
        ensures ends { ends self.new ≡ ends self.old }
        ensures lent { lent self.new ≡ lent self.old }
        ensures refused { refused self.new ≡ refused self.old }
        ensures late { late self.new ≡ late self.old }
        ensures cause { HasOutCause (faults self.old) (faults self.new) result }
        ensures planned { AsPlanned (plan self.old) (plan self.new) (is_failed result) false };

    /// The end of the next connection that someone makes to the port. It may wait.
    ///
    /// `Failed` comes only where the count of faults rose in this call, `NoMemory` where memory ran out, or
    /// where 2^64 - 1 ends are out.
    fn accept(&mut self, alloc: Global) -> Result<Self::End, OutFault>
        requires heard { IsSome (heard self.old) }
        ensures fresh { IfOk result (λ end. Self.End.phase end ≡ Phase.Fresh) }
        ensures clean { IfOk result (λ end. Self.End.faults end ≡ 0) }
        ensures gave { OnOk result (HasGiven (lent self.old) (lent self.new)
            (refused self.old) (refused self.new) (late self.old) (late self.new)) }
        ensures kept { OnErr result (HasRefused (lent self.old) (lent self.new)
            (refused self.new) (late self.old) (late self.new)) }
        ensures end_plan { IfOk result (λ end. Self.End.plan end ≡ plan_of_next (ends self.old)) }
        ensures ends { OnOk result (ends self.new ≡ ends_after (ends self.old)) }
        ensures no_end { OnErr result (ends self.new ≡ ends self.old) }
        ensures asked { asked self.new ≡ asked self.old }
        ensures heard { heard self.new ≡ heard self.old }
        ensures cause { HasOutCause (faults self.old) (faults self.new) result }
        ensures planned { AsPlanned (plan self.old) (plan self.new) (is_failed result) false };

    /// The end of a new connection to a port of this machine. It may wait.
    ///
    /// `Failed` comes only where the count of faults rose in this call, `NoMemory` where memory ran out, or
    /// where 2^64 - 1 ends are out.
    fn connect(&mut self, alloc: Global, port: u16) -> Result<Self::End, OutFault>
        requires may { MayConnect (asked self.old) (heard self.old) port }
        ensures fresh { IfOk result (λ end. Self.End.phase end ≡ Phase.Fresh) }
        ensures clean { IfOk result (λ end. Self.End.faults end ≡ 0) }
        ensures gave { OnOk result (HasGiven (lent self.old) (lent self.new)
            (refused self.old) (refused self.new) (late self.old) (late self.new)) }
        ensures kept { OnErr result (HasRefused (lent self.old) (lent self.new)
            (refused self.new) (late self.old) (late self.new)) }
        ensures told { IfOk result (λ end. Self.End.left end ≡ coming self.old) }
        ensures silent { IfOk result (λ end. Self.End.sent end ≡ told_none (coming self.old)) }
        ensures no_more { OnOk result (coming self.new ≡ told_none (coming self.old)) }
        ensures untold { OnErr result (coming self.new ≡ coming self.old) }
        ensures end_plan { IfOk result (λ end. Self.End.plan end ≡ plan_of_next (ends self.old)) }
        ensures ends { OnOk result (ends self.new ≡ ends_after (ends self.old)) }
        ensures no_end { OnErr result (ends self.new ≡ ends self.old) }
        ensures asked { asked self.new ≡ first_asked (asked self.old) (Asked.Connect port) }
        ensures heard { heard self.new ≡ heard self.old }
        ensures cause { HasOutCause (faults self.old) (faults self.new) result }
        ensures planned { AsPlanned (plan self.old) (plan self.new) (is_failed result) false };

    /// Takes a closed end back, and counts a fault exactly where the end's count isn't 0. A net that tells
    /// messages tells from then on which were left to this end, and which it sent.
    fn retire(&mut self, end: Self::End)
        requires shut { Self.End.phase end ≡ Phase.Shut }
        ensures rose { Self.End.faults end ≢ 0 → Rose (faults self.old) (faults self.new) }
        ensures same { Self.End.faults end ≡ 0 → faults self.new ≡ faults self.old }
        ensures later { faults self.old ≤ faults self.new }
        ensures asked { asked self.new ≡ asked self.old }
        ensures heard { heard self.new ≡ heard self.old }
        ensures coming { coming self.new ≡ coming self.old }
        ensures lent { lent self.new ≡ lent self.old - 1 }
        ensures refused { refused self.new ≡ refused self.old }
        ensures late { late self.new ≡ late self.old }
        ensures unread { unread self.new ≡ told_of (coming self.old) (Self.End.left end) }
        ensures spoken { spoken self.new ≡ told_of (coming self.old) (Self.End.sent end) }
        ensures ends { ends self.new ≡ ends self.old }
        ensures plan { plan self.new ≡ plan self.old };
}
