// A link in memory. What moves its messages is its feed, and which of its calls fail is its plan. It holds
// the runtime by which a pipe waits, so that the calls of the trait need none.
ghost use Rattle.std.specs.Prelude.{◌≡◌, ◌≤◌, ◌∷◌, [], Option, Some, None, IfSome, map};
ghost use Rattle.hmr_base.specs.Plans.{faults_of, fresh_plan, plan_of};
ghost use Rattle.transport.specs.declared.link.Phase.{Phase};
ghost use Rattle.transport.specs.Feeds.{left_of, sent_of};
ghost use Rattle.transport.specs.Told.{IsNoneLeft, told_and, told_front};

use crate::feed::Feed;
use crate::{Link, OutFault, Phase};
use hmr_base::FaultPlan;
use hmr_types::limits::MESSAGE_BYTES;
use std::alloc::Global;
use std::sync::Wait;

/// An end of a connection in memory: of a pair of pipes, or over messages that are there from the start.
/// What is sent to an end that is closed is lost.
#[derive(Drop)]
pub struct MemLink<R: Drop> {
    rt: R,
    feed: Feed,
    phase: Phase,
    plan: FaultPlan,
}

impl<R: Drop> MemLink<R> {
    /// A fresh end with this feed, whose calls fail where their numbers, from 0, stand in `failing`.
    pub(crate) fn new(rt: R, feed: Feed, failing: Vec<u64>) -> Self
        ensures fresh { result.phase ≡ Phase.Fresh }
        ensures feed { result.feed ≡ feed }
        ensures plan { plan_of result.plan ≡ fresh_plan failing.items }
        ensures faults { faults_of result.plan ≡ 0 }
    {
        MemLink {
            rt,
            feed,
            phase: Phase::Fresh,
            plan: FaultPlan::new(failing),
        }
    }

    /// How often it has failed, up to the largest `u64`.
    pub fn faults(&self) -> u64
        ensures { result ≡ faults_of self.now.plan }
    {
        self.plan.faults()
    }

    /// The messages that were sent, where the link tells them; an end of a pair of pipes tells none.
    pub fn sent(&self) -> &[Vec<u8>]
        ensures { IfSome (sent_of self.now.feed)
            (λ messages. map (λ message. message.items) result.now ≡ messages) }
    {
        self.feed.sent()
    }
}

impl<R: Wait + Drop> Link for MemLink<R> {
    ghost phase = { λ s. s.phase };

    ghost faults = { λ s. faults_of s.plan };

    ghost left = { λ s. left_of s.feed };

    ghost sent = { λ s. sent_of s.feed };

    ghost plan = { λ s. Some (plan_of s.plan) };

    fn open(&mut self, _alloc: Global) -> Result<(), OutFault> {
        self.plan.begin()?;
        self.phase = Phase::Open;
        Ok(())
    }

    fn send(&mut self, alloc: Global, message: &[u8]) -> Result<(), OutFault> {
        self.plan.begin()?;
        if message.len() > MESSAGE_BYTES {
            return Err(OutFault::from(self.plan.fail()));
        }
        let message = Vec::from_slice(alloc, message)?;
        self.feed.put(&self.rt, message)?;
        Ok(())
    }

    fn recv(&mut self, _alloc: Global) -> Result<Option<Vec<u8>>, OutFault> {
        self.plan.begin()?;
        match self.feed.take(&self.rt) {
            Ok(got) => Ok(got),
            Err(_) => Err(OutFault::from(self.plan.fail())),
        }
    }

    fn pause(&self) {}

    fn close(&mut self) {
        self.feed.shut(&self.rt);
        self.phase = Phase::Shut;
    }
}
