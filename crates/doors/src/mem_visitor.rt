// A visitor in memory: what it sends before an upgrade is there from the start, and its messages are those of
// a link.
ghost use Rattle.std.specs.Prelude.{◌≡◌, ◌≤◌, ◌++◌, [], Some, IfOk, OnOk, OnErr, drop, vec_len};
ghost use Rattle.transport.specs.declared.link.Phase.{Phase};
ghost use Rattle.doors.specs.Coming.{IsNext};

use crate::heads::{take_body, take_head};
use crate::{Coming, OutFault, Visitor};
use std::alloc::Global;
use transport::Link;

/// A link with bytes before its messages: those that are left to read, and those that were written.
#[derive(Drop)]
pub struct MemVisitor<L: Drop> {
    link: L,
    unread: Vec<u8>,
    written: Vec<u8>,
}

impl<L: Link + Drop> MemVisitor<L> {
    /// A visitor that sends these bytes before its link is opened.
    pub fn new(alloc: Global, link: L, unread: Vec<u8>) -> Self
        ensures link { result.link ≡ link }
        ensures unread { result.unread ≡ unread }
        ensures written { result.written.items ≡ [] }
    {
        MemVisitor {
            link,
            unread,
            written: Vec::new(alloc),
        }
    }

    /// The bytes that were written before the link was opened.
    pub fn written(&self) -> &[u8]
        ensures { result.now ≡ self.now.written.items }
    {
        &self.written
    }

    /// The link.
    pub fn into_link(self) -> L
        ensures { result ≡ self.link }
    {
        let MemVisitor {
            link,
            unread: _,
            written: _,
        } = self;
        link
    }
}

impl<L: Link + Drop> Link for MemVisitor<L> {
    ghost phase = { λ visitor. L.phase visitor.link };

    ghost faults = { λ visitor. L.faults visitor.link };

    ghost left = { λ visitor. L.left visitor.link };

    ghost sent = { λ visitor. L.sent visitor.link };

    ghost plan = { λ visitor. L.plan visitor.link };

    fn open(&mut self, alloc: Global) -> Result<(), OutFault> {
        self.link.open(alloc)
    }

    fn send(&mut self, alloc: Global, message: &[u8]) -> Result<(), OutFault> {
        self.link.send(alloc, message)
    }

    fn recv(&mut self, alloc: Global) -> Result<Option<Vec<u8>>, OutFault> {
        self.link.recv(alloc)
    }

    fn pause(&self) {
        self.link.pause();
    }

    fn close(&mut self) {
        self.link.close();
    }
}

impl<L: Link + Drop> Visitor for MemVisitor<L> {
    ghost unread = { λ visitor. Some visitor.unread.items };

    ghost written = { λ visitor. Some visitor.written.items };

    fn next_head(&mut self, alloc: Global) -> Result<Coming, OutFault> {
        let coming = take_head(alloc, &mut self.unread)?;
        Ok(coming)
    }

    fn next_body(&mut self, alloc: Global, count: usize) -> Result<Option<Vec<u8>>, OutFault> {
        let body = take_body(alloc, &mut self.unread, count)?;
        Ok(body)
    }

    fn answer(&mut self, text: &[u8]) -> Result<(), OutFault> {
        self.written.extend_from_slice(text)?;
        Ok(())
    }
}
