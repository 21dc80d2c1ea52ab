// One end of a connection. Contracts see in which phase it is, how often it failed and, where it tells
// them, the messages that are left to receive and those that were sent.
ghost use Rattle.std.specs.Prelude.{◌≡◌, ◌≤◌, ◌∷◌, [], List, ℕ, Option, false, None};
ghost use Rattle.std.specs.Prelude.{vec_len, length, IfOk, IfSome, OnOk, OnErr};
ghost use Rattle.hmr_base.specs.OutCauses.{HasOutCause, is_failed};
ghost use Rattle.hmr_base.specs.Plans.{AsPlanned, Plan};
ghost use Rattle.transport.specs.declared.link.Phase.{Phase};
ghost use Rattle.transport.specs.Messages.{is_first_long, is_long, message_bytes};
ghost use Rattle.transport.specs.Told.{IsNoneLeft, told_and, told_front};

use crate::OutFault;
use std::alloc::Global;

/// How far a link has come.
#[derive(Clone, Copy, Debug, PartialEq, Eq)]
pub enum Phase {
    /// It was made, and no handshake has passed.
    Fresh,
    /// It sends and receives.
    Open,
    /// It was closed.
    Shut,
}

/// One end of a connection that carries messages, each of at most 16,777,216 bytes.
pub trait Link {
    // How far it has come.
    ghost phase: { Self → Phase };
    // How often it has failed.
    ghost faults: { Self → ℕ };
    // The messages that are left to receive, where it tells them.
    ghost left: { Self → Option (List (List ℕ)) };
    // The messages that were sent, where it tells them.
    ghost sent: { Self → Option (List (List ℕ)) };
    // Which calls of `open`, `send` and `recv` are to fail, where it tells that.
    ghost plan: { Self → Option Plan };

    /// The handshake with the other end. It may wait.
    ///
    /// `Failed` comes only where the count of faults rose in this call, `NoMemory` where memory ran out.
    fn open(&mut self, alloc: Global) -> Result<(), OutFault>
        requires fresh { phase self.old ≡ Phase.Fresh }
        ensures opened { OnOk result (phase self.new ≡ Phase.Open) }
        ensures left { left self.new ≡ left self.old }
        ensures sent { sent self.new ≡ sent self.old }
        ensures cause { HasOutCause (faults self.old) (faults self.new) result }
        ensures planned { AsPlanned (plan self.old) (plan self.new) (is_failed result) false };

    /// Sends a message. It may wait.
    ///
    /// `Failed` comes only where the count of faults rose in this call, as for a message of more than
    /// 16,777,216 bytes, and `NoMemory` where memory ran out; the message then isn't sent.
    fn send(&mut self, alloc: Global, message: &[u8]) -> Result<(), OutFault>
        requires is_open { phase self.old ≡ Phase.Open }
        ensures stays { phase self.new ≡ Phase.Open }
        ensures left { left self.new ≡ left self.old }
        ensures sent { OnOk result (sent self.new ≡ told_and (sent self.old) (message.now ∷ [])) }
        ensures unsent { OnErr result (sent self.new ≡ sent self.old) }
        ensures cause { HasOutCause (faults self.old) (faults self.new) result }
        ensures planned { AsPlanned (plan self.old) (plan self.new) (is_failed result)
            (is_long message.now) };

    /// The next message, or None where the other end has closed and nothing is left. It may wait.
    ///
    /// `Failed` comes only where the count of faults rose in this call, as for a message of more than
    /// 16,777,216 bytes, and `NoMemory` where memory ran out; no message is then taken.
    fn recv(&mut self, alloc: Global) -> Result<Option<Vec<u8>>, OutFault>
        requires is_open { phase self.old ≡ Phase.Open }
        ensures stays { phase self.new ≡ Phase.Open }
        ensures bound { IfOk result (λ got. IfSome got (λ v. length v.items ≤ message_bytes)) }
        ensures some { IfOk result
            (λ got. IfSome got (λ v. left self.old ≡ told_front (v.items ∷ []) (left self.new))) }
        ensures none { IfOk result
            (λ got. got ≡ None → IsNoneLeft (left self.old) × (left self.new ≡ left self.old)) }
        ensures untaken { OnErr result (left self.new ≡ left self.old) }
        ensures sent { sent self.new ≡ sent self.old }
        ensures cause { HasOutCause (faults self.old) (faults self.new) result }
        ensures planned { AsPlanned (plan self.old) (plan self.new) (is_failed result)
            (is_first_long (left self.old)) };

    /// Lets a client rest that was told there is nothing new: over a real connection it returns after 50
    /// milliseconds, in memory at once.
    fn pause(&self);

    /// Closes the end. The other end still receives what was sent before, and after that None or a
    /// failure.
    fn close(&mut self)
        ensures shut { phase self.new ≡ Phase.Shut }
        ensures left { left self.new ≡ left self.old }
        ensures sent { sent self.new ≡ sent self.old }
        ensures faults { faults self.new ≡ faults self.old }
        ensures plan { plan self.new ≡ plan self.old };
}
