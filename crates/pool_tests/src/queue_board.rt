// A queue into which jobs are put, and a worker's board over it.
ghost use Rattle.std.specs.Prelude.{◌≡◌, ⊤, IsSome, None, false, true};
ghost use Rattle.std.specs.Arc.{arc_value};
ghost use Rattle.transform_pool.specs.Passes.{IsPassOf, role_of};

use hmr_types::Ver;
use std::alloc::Global;
use std::collections::VecDeque;
use std::sync::{Arc, Wait};
use transform_pool::{Board, JobPass, JobQueue, TextJob};
use transforms::Transformed;
use update_msgs::HubStop;

/// Takes jobs from a queue, by a pass of its own, and keeps the versions that are posted. It tells nothing of
/// either.
#[derive(Drop)]
pub(crate) struct QueueBoard {
    queue: Arc<JobQueue, Global>,
    pass: JobPass,
    posted: Vec<Ver>,
    ghost of_queue: { IsPassOf (arc_value queue) pass },
    ghost takes: { (role_of pass).puts ≡ false },
}

impl QueueBoard {
    /// A board over this queue, with a pass of it that takes.
    pub(crate) fn new(alloc: Global, queue: Arc<JobQueue, Global>, pass: JobPass) -> QueueBoard
        requires of { IsPassOf (arc_value queue) pass }
        requires takes { (role_of pass).puts ≡ false }
        ensures pass { result.pass ≡ pass }
    {
        QueueBoard {
            queue,
            pass,
            posted: Vec::new(alloc),
        }
    }

    /// The versions that were posted, in order.
    pub(crate) fn posted(&self) -> &[Ver] {
        &self.posted
    }
}

impl Board for QueueBoard {
    ghost ended = { λ b. (role_of b.pass).ended };

    ghost full = { λ b. false };

    ghost taken = { λ b. None };

    ghost posted = { λ b. None };

    ghost stays = { λ x y. ⊤ };

    fn take_job<R: Wait>(&mut self, rt: &R) -> Option<TextJob> {
        match self.queue.take(rt, &mut self.pass) {
            Some(job) => Some(job),
            None => None,
        }
    }

    fn post<R: Wait>(
        &mut self,
        _rt: &R,
        _alloc: Global,
        _done: Transformed,
        ver: Ver,
    ) -> Result<(), HubStop> {
        match self.posted.push(ver) {
            Ok(()) => Ok(()),
            Err(_) => Err(HubStop::NoMemory),
        }
    }

    ghost same = { λ x. tt };

    ghost longer = { λ x y z p q. tt };
}

/// Puts jobs until none is left or one finds no place, and answers how many were put.
pub(crate) fn put_all<R: Wait>(
    rt: &R,
    queue: &JobQueue,
    pass: &mut JobPass,
    jobs: VecDeque<TextJob>,
) -> usize
    requires of { IsPassOf queue.now pass.old }
    requires puts { (role_of pass.old).puts ≡ true }
    requires unclosed { (role_of pass.old).closed ≡ false }
    ensures of { IsPassOf queue.now pass.new }
    ensures puts { (role_of pass.new).puts ≡ true }
    ensures unclosed { (role_of pass.new).closed ≡ false }
{
    let mut count = 0usize;
    for job in jobs {
        if queue.put(rt, pass, job).is_err() {
            return count;
        }
        count = count.saturating_add(1);
    }
    count
}

/// The version of the next job, by a pass that takes and has not ended; None where it ends.
pub(crate) fn next_version<R: Wait>(rt: &R, queue: &JobQueue, pass: &mut JobPass) -> Option<Ver>
    requires of { IsPassOf queue.now pass.old }
    requires takes { (role_of pass.old).puts ≡ false }
    requires going { (role_of pass.old).ended ≡ false }
    ensures of { IsPassOf queue.now pass.new }
    ensures takes { (role_of pass.new).puts ≡ false }
    ensures going { IsSome result → (role_of pass.new).ended ≡ false }
{
    let job = queue.take(rt, pass)?;
    Some(job.ver())
}
