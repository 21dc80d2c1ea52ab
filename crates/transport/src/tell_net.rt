// A net in memory whose next end has its messages from the start, and tells them. It holds the end that it
// took back last, and so tells what was left to it and what it sent.
ghost use Rattle.std.specs.Prelude.{◌≡◌, ◌≢◌, ◌≤◌, ◌<◌, ◌-◌, ◌^◌, ℕ, List, Option, Some, None, IfOk, IfSome, IsSome, map, []};
ghost use Rattle.hmr_base.specs.Plans.{faults_of, fresh_plan, plan_of};
ghost use Rattle.transport.specs.declared.link.Phase.{Phase};
ghost use Rattle.transport.specs.Ends.{ends_after, ends_of, failing_next};
ghost use Rattle.transport.specs.Feeds.{left_of, sent_of, spoken_of, unread_of};
ghost use Rattle.transport.specs.Lending.{HasGiven, HasRefused};
ghost use Rattle.transport.specs.Lent.{Gives};
ghost use Rattle.transport.specs.Told.{told_none, told_of};

use crate::feed::Feed;
use crate::port::Port;
use crate::{MemLink, Net, OutFault};
use std::alloc::Global;
use std::collections::VecDeque;
use std::mem;
use std::sync::Wait;

/// A net in memory whose next `connect` or `accept` gives an end that receives the messages which were
/// handed in, and tells them; a later end receives none. `listen` at port 0 answers 5173.
#[derive(Drop)]
pub struct TellNet<R: Drop> {
    rt: R,
    coming: VecDeque<Vec<u8>>,
    port: Port,
    back: Option<MemLink<R>>,
}

impl<R: Wait + Copy + Drop> TellNet<R> {
    /// A net whose next end receives the messages of `coming`. Of its calls of `listen`, `accept` and
    /// `connect` those fail whose numbers, from 0, stand in `failing`, and of the calls of the n-th end
    /// that it gives those whose numbers stand in the n-th list of `ends`; of an end past these lists no
    /// call fails.
    pub fn new(
        rt: R,
        coming: VecDeque<Vec<u8>>,
        failing: Vec<u64>,
        ends: VecDeque<Vec<u64>>,
    ) -> Self
        ensures unasked { (result.port.asked ≡ None) × (result.port.heard ≡ None) }
        ensures coming { result.coming ≡ coming }
        ensures plan { plan_of result.port.plan ≡ fresh_plan failing.items }
        ensures faults { faults_of result.port.plan ≡ 0 }
        ensures ends { result.port.ends ≡ ends }
    {
        TellNet {
            rt,
            coming,
            port: Port::new(failing, ends),
            back: None,
        }
    }

    /// The messages that the end which it took back last had sent; none before it took one back.
    pub fn spoken(&self) -> &[Vec<u8>]
        ensures { IfSome (spoken_of self.now.back)
            (λ messages. map (λ message. message.items) result.now ≡ messages) }
    {
        match &self.back {
            Some(end) => end.sent(),
            None => &[],
        }
    }

    // The end that comes now.
    fn next_link(&mut self, alloc: Global) -> MemLink<R>
        requires room { self.old.port.lent < 2 ^ 64 - 1 }
        ensures gave { Gives self.old.port self.new.port }
        ensures fresh { result.phase ≡ Phase.Fresh }
        ensures told { left_of result.feed ≡ Some (map (λ message. message.items) self.old.coming.items) }
        ensures silent { sent_of result.feed ≡ Some [] }
        ensures no_more { self.new.coming.items ≡ [] }
        ensures clean { faults_of result.plan ≡ 0 }
        ensures plan { plan_of result.plan ≡ fresh_plan (failing_next (ends_of self.old.port)) }
        ensures ends { Some (ends_of self.new.port) ≡ ends_after (Some (ends_of self.old.port)) }
        ensures asked { self.new.port.asked ≡ self.old.port.asked }
        ensures heard { self.new.port.heard ≡ self.old.port.heard }
        ensures same { self.new.port.plan ≡ self.old.port.plan }
    {
        let coming = mem::replace(&mut self.coming, VecDeque::new(alloc));
        let failing = self.port.next_end(alloc);
        MemLink::new(self.rt, Feed::told(alloc, coming), failing)
    }
}

impl<R: Wait + Copy + Drop> Net for TellNet<R> {
    type End = MemLink<R>;

    ghost faults = { λ s. faults_of s.port.plan };

    ghost lent = { λ s. s.port.lent };

    ghost refused = { λ s. s.port.refused };

    ghost late = { λ s. s.port.late };

    ghost asked = { λ s. s.port.asked };

    ghost heard = { λ s. s.port.heard };

    ghost coming = { λ s. Some (map (λ message. message.items) s.coming.items) };

    ghost unread = { λ s. unread_of s.back };

    ghost spoken = { λ s. spoken_of s.back };

    ghost plan = { λ s. Some (plan_of s.port.plan) };

    ghost ends = { λ s. Some (ends_of s.port) };

    fn listen(&mut self, _alloc: Global, port: u16) -> Result<u16, OutFault> {
        self.port.listen(port)
    }

    fn accept(&mut self, alloc: Global) -> Result<MemLink<R>, OutFault> {
        self.port.begin_accept()?;
        Ok(self.next_link(alloc))
    }

    fn connect(&mut self, alloc: Global, port: u16) -> Result<MemLink<R>, OutFault> {
        self.port.begin_connect(port)?;
        Ok(self.next_link(alloc))
    }

    fn retire(&mut self, end: MemLink<R>) {
        self.port.retire(end.faults());
        self.back = Some(end);
    }
}
