// One end of a connection that was accepted. It speaks HTTP first: heads are taken and answers written. Once
// it was opened as a link it carries messages, and what came behind the last head is the first of them.
// Contracts see what is left to read and what was written before it was opened, where the end tells it.
ghost use Rattle.std.specs.Prelude.{◌≡◌, ℕ, List, Option, IfOk, OnOk, OnErr};
ghost use Rattle.hmr_base.specs.OutCauses.{HasOutCause};
ghost use Rattle.transport.specs.declared.link.Phase.{Phase};
ghost use Rattle.transport.specs.Told.{told_and};
ghost use Rattle.doors.specs.Coming.{IsBody, IsNext};
ghost use Rattle.doors.specs.Told.{TellsFront};

use crate::OutFault;
use std::alloc::Global;
use transport::Link;

/// What came next of a visitor.
#[derive(Debug, Drop)]
pub enum Coming {
    /// A whole request head, with the empty line at its end.
    Head(Vec<u8>),
    /// As many bytes as a head may have or more, in which none ends.
    TooLong,
    /// The other end closed, or it sent no whole head in the time that one may take.
    Gone,
}

/// One end of a connection, which speaks HTTP until it is opened as a link. [`Link::open`] then answers the
/// head that was taken last as the request of an upgrade, and is refused with a fault where it is none.
pub trait Visitor: Link {
    // The bytes that are left to read before it is opened, where it tells them.
    ghost unread: { Self → Option (List ℕ) };
    // The bytes that were written before it was opened, where it tells them.
    ghost written: { Self → Option (List ℕ) };

    /// The next request head, of 8,192 bytes at most; what came behind it stays unread. It may wait.
    ///
    /// `Failed` comes only where the count of faults rose in this call, `NoMemory` where memory ran out; no
    /// head is then taken.
    fn next_head(&mut self, alloc: Global) -> Result<Coming, OutFault>
        requires fresh { Self.phase self.old ≡ Phase.Fresh }
        ensures stays { Self.phase self.new ≡ Phase.Fresh }
        ensures next { IfOk result (IsNext (unread self.old) (unread self.new)) }
        ensures untaken { OnErr result (unread self.new ≡ unread self.old) }
        ensures written { written self.new ≡ written self.old }
        ensures left { Self.left self.new ≡ Self.left self.old }
        ensures sent { Self.sent self.new ≡ Self.sent self.old }
        ensures cause { HasOutCause (Self.faults self.old) (Self.faults self.new) result };

    /// The next bytes, as many as this: the body of the request whose head was taken last. None where the
    /// other end closed before, or they didn't come in the time that a body may take; what came of them then
    /// stays unread. It may wait, and takes memory for the bytes.
    ///
    /// `Failed` comes only where the count of faults rose in this call, `NoMemory` where memory ran out; no
    /// byte is then taken.
    fn next_body(&mut self, alloc: Global, count: usize) -> Result<Option<Vec<u8>>, OutFault>
        requires fresh { Self.phase self.old ≡ Phase.Fresh }
        ensures stays { Self.phase self.new ≡ Phase.Fresh }
        ensures body { IfOk result (IsBody count (unread self.old) (unread self.new)) }
        ensures untaken { OnErr result (unread self.new ≡ unread self.old) }
        ensures written { written self.new ≡ written self.old }
        ensures left { Self.left self.new ≡ Self.left self.old }
        ensures sent { Self.sent self.new ≡ Self.sent self.old }
        ensures cause { HasOutCause (Self.faults self.old) (Self.faults self.new) result };

    /// Writes these bytes, whole. It may wait.
    ///
    /// `Failed` comes only where the count of faults rose in this call, `NoMemory` where memory ran out; a
    /// prefix of the bytes may then have been written.
    fn answer(&mut self, text: &[u8]) -> Result<(), OutFault>
        requires fresh { Self.phase self.old ≡ Phase.Fresh }
        ensures stays { Self.phase self.new ≡ Phase.Fresh }
        ensures done { OnOk result (written self.new ≡ told_and (written self.old) text.now) }
        ensures cut { OnErr result (TellsFront (written self.old) (written self.new) text.now) }
        ensures unread { unread self.new ≡ unread self.old }
        ensures left { Self.left self.new ≡ Self.left self.old }
        ensures sent { Self.sent self.new ≡ Self.sent self.old }
        ensures cause { HasOutCause (Self.faults self.old) (Self.faults self.new) result };
}
