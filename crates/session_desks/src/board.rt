// A worker's board: jobs come from a queue, and results go to the hub.
ghost use Rattle.std.specs.Prelude.{◌≡◌, ◌≤◌, ◌+◌, None, false, length, refl, true};
ghost use Rattle.std.proofs.Common.{◌∙◌};
ghost use Rattle.std.specs.Arc.{arc_value};
ghost use Rattle.hmr_types.specs.declared.limits.TheConstants.{MESSAGE_BYTES};
ghost use Rattle.transform_pool.specs.Passes as queues;
ghost use Rattle.transform_pool.specs.Passes.{role_of};
ghost use Rattle.hmr_hub.specs.Passes.{IsPassOf, seen_of};
ghost use Rattle.hmr_hub.specs.Fullness.{IsNearlyFull};
ghost use Rattle.session_desks.specs.Fullness.{is_nearly_full};

use crate::telling::tell;
use events_and_replies::Event;
use hmr_hub::{Hub, Pass};
use hmr_types::Ver;
use std::alloc::Global;
use std::sync::{Arc, Wait};
use transcripts::has_version;
use transform_pool::{Board, JobPass, JobQueue, TextJob};
use transforms::Transformed;
use update_msgs::HubStop;

/// The board of one worker: a hub and a queue, and a pass of each. It has whether the hub answered it that
/// the transcript is full.
#[derive(Drop)]
pub struct HubBoard {
    hub: Arc<Hub, Global>,
    pass: Pass,
    queue: Arc<JobQueue, Global>,
    jobs: JobPass,
    full: bool,
    ghost of_hub: { IsPassOf (arc_value hub) pass },
    ghost near_full: { full ≡ true → is_nearly_full (seen_of pass) ≡ true },
    ghost of_queue: { queues.IsPassOf (arc_value queue) jobs },
    ghost takes: { (role_of jobs).puts ≡ false },
}

impl HubBoard {
    ghost use Rattle.session_desks.specs.Boards.{Posted, has_ended};

    /// A board over a hub and a queue, with a pass of each; that of the queue takes and has not ended.
    pub fn new(
        hub: Arc<Hub, Global>,
        pass: Pass,
        queue: Arc<JobQueue, Global>,
        jobs: JobPass,
    ) -> Self
        requires of { IsPassOf (arc_value hub) pass }
        requires of_queue { queues.IsPassOf (arc_value queue) jobs }
        requires takes { (role_of jobs).puts ≡ false }
        requires going { (role_of jobs).ended ≡ false }
        ensures hub { result.hub ≡ hub }
        ensures pass { result.pass ≡ pass }
        ensures queue { result.queue ≡ queue }
        ensures going { has_ended result ≡ false }
        ensures full { result.full ≡ false }
    {
        HubBoard {
            hub,
            pass,
            queue,
            jobs,
            full: false,
        }
    }

    /// Whether the hub answered that its transcript is full.
    pub fn is_full(&self) -> bool
        ensures { result ≡ self.now.full }
    {
        self.full
    }

    /// The hub's pass of the board.
    pub fn into_pass(self) -> Pass
        ensures pass { result ≡ self.pass }
        ensures near_full { self.full ≡ true → IsNearlyFull (seen_of result) }
    {
        let HubBoard {
            hub: _,
            pass,
            queue: _,
            jobs: _,
            full: _,
        } = self;
        pass
    }

    /// Tells the hub a result, whose name and text have together at most 16,777,216 bytes. It waits.
    ///
    /// A result at a version that no edit can have is late, and is not told. [`HubStop::TranscriptFull`] and
    /// [`HubStop::NoMemory`] come exactly where the hub answers so, and only the first changes the board: it
    /// is full from then on.
    pub fn settle<R: Wait>(&mut self, rt: &R, done: Transformed, ver: Ver) -> Result<(), HubStop>
        requires short { length done.name + length done.text ≤ MESSAGE_BYTES }
        ensures posted { Posted done ver self.old self.new result }
    {
        let event = Event::Settle(done, ver);
        if !has_version(&event) {
            return Ok(());
        }
        tell(rt, &self.hub, &mut self.pass, &mut self.full, event)?;
        Ok(())
    }
}

impl Board for HubBoard {
    ghost use Rattle.session_desks.specs.Boards.{SameBoard, has_ended};

    ghost ended = { has_ended };

    ghost full = { λ board. board.full };

    ghost taken = { λ board. None };

    ghost posted = { λ board. None };

    ghost stays = { SameBoard };

    fn take_job<R: Wait>(&mut self, rt: &R) -> Option<TextJob> {
        self.queue.take(rt, &mut self.jobs)
    }

    fn post<R: Wait>(
        &mut self,
        rt: &R,
        _alloc: Global,
        done: Transformed,
        ver: Ver,
    ) -> Result<(), HubStop> {
        self.settle(rt, done, ver)
    }

    ghost same = { λ x. record { hub = refl; number = refl; queue = refl } };

    ghost longer = { λ x y z p q.
        record { hub = q.hub ∙ p.hub; number = q.number ∙ p.number; queue = q.queue ∙ p.queue } };
}
