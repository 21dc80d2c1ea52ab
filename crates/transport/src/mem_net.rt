// A net in memory: pairs of pipes, from one thread to another. Who connects leaves the two pipes at the
// door and goes on; who accepts waits there for the first.
ghost use Rattle.std.specs.Prelude.{◌≡◌, ◌≢◌, ◌≤◌, ℕ, Option, Some, None, IfOk, IsSome, map};
ghost use Rattle.hmr_base.specs.Plans.{faults_of, fresh_plan, plan_of};
ghost use Rattle.transport.specs.declared.link.Phase.{Phase};
ghost use Rattle.transport.specs.Ends.{ends_of};
ghost use Rattle.transport.specs.Lending.{HasGiven, HasRefused};
ghost use Rattle.transport.specs.Feeds.{left_of, sent_of};
ghost use Rattle.transport.specs.Told.{told_none, told_of};

use crate::feed::Feed;
use crate::pipe::Pipe;
use crate::port::Port;
use crate::{MemLink, Net, OutFault};
use std::alloc::{AllocError, Global};
use std::collections::VecDeque;
use std::sync::{Arc, Condvar, Mutex, Wait};

/// The two pipes of an end that waits to be accepted.
#[derive(Drop)]
struct Knock {
    incoming: Arc<Pipe, Global>,
    outgoing: Arc<Pipe, Global>,
}

#[derive(Drop)]
struct Door {
    knocks: Mutex<VecDeque<Knock>>,
    came: Condvar,
}

impl Door {
    fn push(&self, rt: &impl Wait, knock: Knock) -> Result<(), AllocError> {
        let mut knocks = self.knocks.lock(rt);
        knocks.push_back(knock)?;
        drop(knocks);
        self.came.notify_all();
        Ok(())
    }

    fn pop(&self, rt: &impl Wait) -> Knock {
        for _ in rt.forever() {
            let mut knocks = self
                .came
                .wait_while(rt, self.knocks.lock(rt), |knocks| knocks.is_empty());
            if let Some(knock) = knocks.pop_front() {
                return knock;
            }
        }
        unreachable!()
    }
}

/// A way into a net in memory, which joins its ends in pairs by pipes. `listen` at port 0 answers 5173.
#[derive(Drop)]
pub struct MemNet<R: Drop> {
    rt: R,
    door: Arc<Door, Global>,
    port: Port,
}

impl<R: Wait + Copy + Drop> MemNet<R> {
    /// A way into a new net. Of its calls of `listen`, `accept` and `connect` those fail whose numbers,
    /// from 0, stand in `failing`, and of the calls of the n-th end that it gives those whose numbers
    /// stand in the n-th list of `ends`; of an end past these lists no call fails. `AllocError` where
    /// memory ran out.
    pub fn new(
        alloc: Global,
        rt: R,
        failing: Vec<u64>,
        ends: VecDeque<Vec<u64>>,
    ) -> Result<Self, AllocError>
        ensures unasked { IfOk result (λ net. (net.port.asked ≡ None) × (net.port.heard ≡ None)) }
        ensures plan { IfOk result (λ net. plan_of net.port.plan ≡ fresh_plan failing.items) }
        ensures faults { IfOk result (λ net. faults_of net.port.plan ≡ 0) }
        ensures ends { IfOk result (λ net. net.port.ends ≡ ends) }
    {
        let door = Door {
            knocks: Mutex::new(VecDeque::new(alloc)),
            came: Condvar::new(),
        };
        Ok(MemNet {
            rt,
            door: Arc::new(alloc, door)?,
            port: Port::new(failing, ends),
        })
    }

    /// Another way into the same net, for another thread, with plans of its own as `new` takes them.
    /// `AllocError` where memory ran out.
    pub fn beside(&self, failing: Vec<u64>, ends: VecDeque<Vec<u64>>) -> Result<Self, AllocError>
        ensures unasked { IfOk result (λ net. (net.port.asked ≡ None) × (net.port.heard ≡ None)) }
        ensures plan { IfOk result (λ net. plan_of net.port.plan ≡ fresh_plan failing.items) }
        ensures faults { IfOk result (λ net. faults_of net.port.plan ≡ 0) }
        ensures ends { IfOk result (λ net. net.port.ends ≡ ends) }
    {
        Ok(MemNet {
            rt: self.rt,
            door: Arc::try_clone(&self.door)?,
            port: Port::new(failing, ends),
        })
    }

    // Leaves a pair of new pipes at the door, and answers the feed of this side.
    fn knock(&self, alloc: Global) -> Result<Feed, AllocError>
        ensures untold { IfOk result (λ feed. left_of feed ≡ None) }
        ensures silent { IfOk result (λ feed. sent_of feed ≡ None) }
    {
        let there = Pipe::new(alloc)?;
        let back = Pipe::new(alloc)?;
        let knock = Knock {
            incoming: Arc::try_clone(&there)?,
            outgoing: Arc::try_clone(&back)?,
        };
        self.door.push(&self.rt, knock)?;
        Ok(Feed::Pipes(back, there))
    }
}

impl<R: Wait + Copy + Drop> Net for MemNet<R> {
    type End = MemLink<R>;

    ghost faults = { λ s. faults_of s.port.plan };

    ghost lent = { λ s. s.port.lent };

    ghost refused = { λ s. s.port.refused };

    ghost late = { λ s. s.port.late };

    ghost asked = { λ s. s.port.asked };

    ghost heard = { λ s. s.port.heard };

    ghost coming = { λ _. None };

    ghost unread = { λ _. None };

    ghost spoken = { λ _. None };

    ghost plan = { λ s. Some (plan_of s.port.plan) };

    ghost ends = { λ s. Some (ends_of s.port) };

    fn listen(&mut self, _alloc: Global, port: u16) -> Result<u16, OutFault> {
        self.port.listen(port)
    }

    fn accept(&mut self, alloc: Global) -> Result<MemLink<R>, OutFault> {
        self.port.begin_accept()?;
        let knock = self.door.pop(&self.rt);
        let failing = self.port.next_end(alloc);
        let feed = Feed::Pipes(knock.incoming, knock.outgoing);
        Ok(MemLink::new(self.rt, feed, failing))
    }

    fn connect(&mut self, alloc: Global, port: u16) -> Result<MemLink<R>, OutFault> {
        self.port.begin_connect(port)?;
        let Ok(feed) = self.knock(alloc) else {
            return Err(self.port.refuse(OutFault::NoMemory));
        };
        let failing = self.port.next_end(alloc);
        Ok(MemLink::new(self.rt, feed, failing))
    }

    fn retire(&mut self, end: MemLink<R>) {
        self.port.retire(end.faults());
    }
}
