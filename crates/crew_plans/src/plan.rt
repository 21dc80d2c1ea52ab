// What a crew is to begin.
ghost use Rattle.std.specs.Prelude.{◌≡◌, ◌≤◌, ◌++◌, All, IfNone, IfOk, IfSome, length, option_to_list};
ghost use Rattle.std.specs.Arc.{arc_value};
ghost use Rattle.transform_pool.specs.Passes.{IsPassOf, role_of};
ghost use Rattle.transform_pool.specs.Roles.{putting, taking};

use std::alloc::{AllocError, Global};
use std::sync::Arc;
use transform_pool::{JobPass, JobQueue};

/// The workers that are to be begun: one for each taking pass of a queue, each behind a gate.
#[derive(Drop)]
pub struct Workers<G: Drop> {
    pub queue: Arc<JobQueue, Global>,
    pub takers: Vec<JobPass>,
    pub gate: G,
    ghost of: { All (IsPassOf (arc_value queue)) takers.items },
    ghost take: { All (λ p. role_of p ≡ taking) takers.items },
}

impl<G: Drop> Workers<G> {
    /// So many workers of a new queue, from 1 to 16, behind a gate; before them the queue and the pass that
    /// puts into it. It fails only where memory runs out, and takes memory for the queue and its passes.
    pub fn of_new_queue(
        alloc: Global,
        count: u32,
        gate: G,
    ) -> Result<(Arc<JobQueue, Global>, JobPass, Workers<G>), AllocError>
        requires count { (1 ≤ count) × (count ≤ 16) }
        ensures of { IfOk result (λ made. IsPassOf (arc_value made.0) made.1) }
        ensures puts { IfOk result (λ made. role_of made.1 ≡ putting) }
        ensures count { IfOk result (λ made. length made.2.takers.items ≡ count) }
    {
        let (queue, jobs, takers) = JobQueue::new(alloc, count as usize)?;
        let queue = Arc::new(alloc, queue)?;
        let shared = Arc::try_clone(&queue)?;
        let workers = Workers {
            queue: shared,
            takers,
            gate,
        };
        Ok((queue, jobs, workers))
    }

    /// The pass of the worker that is begun next, or `None` where none is left. It is the last of those that
    /// are left, which is taken off them; the queue and the gate stay as they are. It takes no memory.
    pub fn next_taker(&mut self) -> Option<JobPass>
        ensures queue { self.new.queue ≡ self.old.queue }
        ensures items { self.old.takers.items ≡ self.new.takers.items ++ option_to_list result }
        ensures of { IfSome result (λ jobs. IsPassOf (arc_value self.new.queue) jobs) }
        ensures take { IfSome result (λ jobs. role_of jobs ≡ taking) }
        ensures none { IfNone result (length self.old.takers.items ≡ 0) }
    {
        self.takers.pop()
    }
}

/// The clients whose sessions are to be begun.
#[derive(Clone, Copy, Debug)]
pub struct Clients {
    /// How many clients of its own the program has, each with a session.
    pub own: u32,
    /// How many requests each of these makes.
    pub turns: u32,
    /// The port that the net listens at.
    pub port: u16,
    /// How many clients from outside get a session.
    pub outside: u32,
}

/// What a crew is to begin: its workers, and the clients whose sessions are to be begun.
#[derive(Drop)]
pub struct CrewPlan<G: Drop> {
    pub workers: Workers<G>,
    pub clients: Clients,
}
