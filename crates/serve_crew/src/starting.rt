// How workers are begun, and sessions with clients from outside. A refused start gives its job up, and the
// next is begun; where the net gives no end, or there is no pass or no memory, no more are begun.
ghost use Rattle.std.specs.Prelude.{◌≡◌, ◌≤◌, ◌+◌, IsErrOf, IsSome, OnOk, length, sum};
ghost use Rattle.std.specs.Arc.{arc_value};
ghost use Rattle.hmr_base.specs.Causes.{Rose};
ghost use Rattle.jobs.specs.Begun.{most_starts};
ghost use Rattle.transform_pool.specs.Passes as queues;
ghost use Rattle.transform_pool.specs.Passes.{role_of};
ghost use Rattle.transform_pool.specs.Roles.{taking};
ghost use Rattle.crew_plans.specs.Hubs.{IsPassOf, all_given};
ghost use Rattle.crew_plans.specs.Splits.{IsSpentBy};
ghost use Rattle.serve_crew.specs.Crews.{IsCrew};
ghost use Rattle.serve_crew.specs.Begins.{Begins, BegunAll};

use crate::crew::Crew;
use crate::job::{ServeJob, WorkerJob};
use crew_plans::{Cause, Pass, Workers};
use jobs::{Gate, Spawner};
use session_desks::HubBoard;
use std::sync::{Arc, Wait};
use std::thread::Threads;
use transform_pool::JobPass;
use transport::{Link, Net};

// Begins a worker for each pass that takes.
pub(crate) fn begin_workers<
    R: Threads + Wait + Copy + Drop + Send + 'static,
    N: Net,
    G: Gate + Clone + Drop + Send + 'static,
    C: Drop,
    P: Spawner,
>(
    crew: &mut Crew<R, N, G, C>,
    pass: &mut Pass,
    net: &mut N,
    spawner: &mut P,
    mut workers: Workers<G>,
) -> Result<(), Cause>
where
    N::End: Drop + Send + 'static,
    requires crew { IsCrew ⟦<N::End as Link>⟧ (arc_value crew.old.hub)
        crew.old.running crew.old.clients crew.old.gathered }
    requires of { IsPassOf (arc_value crew.old.hub) pass.old }
    requires few { sum (P.begun spawner.old) + length workers.takers.items ≤ most_starts }
    ensures begins { Begins ⟦<N as Net>⟧ ⟦<P as Spawner>⟧
        crew.old crew.new pass.old pass.new net.old net.new spawner.old spawner.new }
    ensures all { OnOk result (BegunAll ⟦<N as Net>⟧ ⟦<P as Spawner>⟧ (length workers.takers.items) 0 0
        crew.old crew.new net.old net.new spawner.old spawner.new) }
    ensures spent { IsSpentBy (all_given pass.old) (all_given pass.new) result }
    ensures failed { IsErrOf result Cause.Fault → Rose (N.faults net.old) (N.faults net.new) }
{
    while let Some(jobs) = workers.next_taker() {
        begin_worker(crew, pass, net, spawner, &workers, jobs)?;
    }
    Ok(())
}

// Begins a worker.
fn begin_worker<
    R: Threads + Wait + Copy + Drop + Send + 'static,
    N: Net,
    G: Gate + Clone + Drop + Send + 'static,
    C: Drop,
    P: Spawner,
>(
    crew: &mut Crew<R, N, G, C>,
    pass: &mut Pass,
    net: &mut N,
    spawner: &mut P,
    workers: &Workers<G>,
    jobs: JobPass,
) -> Result<(), Cause>
where
    N::End: Drop + Send + 'static,
    requires crew { IsCrew ⟦<N::End as Link>⟧ (arc_value crew.old.hub)
        crew.old.running crew.old.clients crew.old.gathered }
    requires of { IsPassOf (arc_value crew.old.hub) pass.old }
    requires of_queue { queues.IsPassOf (arc_value workers.now.queue) jobs }
    requires takes { role_of jobs ≡ taking }
    requires few { sum (P.begun spawner.old) + 1 ≤ most_starts }
    ensures begins { Begins ⟦<N as Net>⟧ ⟦<P as Spawner>⟧
        crew.old crew.new pass.old pass.new net.old net.new spawner.old spawner.new }
    ensures all { OnOk result (BegunAll ⟦<N as Net>⟧ ⟦<P as Spawner>⟧ 1 0 0
        crew.old crew.new net.old net.new spawner.old spawner.new) }
    ensures spent { IsSpentBy (all_given pass.old) (all_given pass.new) result }
    ensures failed { IsErrOf result Cause.Fault → Rose (N.faults net.old) (N.faults net.new) }
{
    let gate = workers.gate.clone()?;
    let queue = Arc::try_clone(&workers.queue)?;
    let (hub, half) = crew.split(pass)?;
    let board = HubBoard::new(hub, half, queue, jobs);
    let job = ServeJob::Worker(WorkerJob::new(board, gate));
    crew.begin(net, spawner, job);
    Ok(())
}

// Begins a session for each of so many clients from outside.
pub(crate) fn begin_sessions<
    R: Threads + Wait + Copy + Drop + Send + 'static,
    N: Net,
    G: Gate + Clone + Drop + Send + 'static,
    C: Drop,
    P: Spawner,
>(
    crew: &mut Crew<R, N, G, C>,
    pass: &mut Pass,
    net: &mut N,
    spawner: &mut P,
    count: u32,
) -> Result<(), Cause>
where
    N::End: Drop + Send + 'static,
    requires crew { IsCrew ⟦<N::End as Link>⟧ (arc_value crew.old.hub)
        crew.old.running crew.old.clients crew.old.gathered }
    requires of { IsPassOf (arc_value crew.old.hub) pass.old }
    requires heard { IsSome (N.heard net.old) }
    requires few { sum (P.begun spawner.old) + count ≤ most_starts }
    ensures begins { Begins ⟦<N as Net>⟧ ⟦<P as Spawner>⟧
        crew.old crew.new pass.old pass.new net.old net.new spawner.old spawner.new }
    ensures all { OnOk result (BegunAll ⟦<N as Net>⟧ ⟦<P as Spawner>⟧ 0 count 0
        crew.old crew.new net.old net.new spawner.old spawner.new) }
    ensures spent { IsSpentBy (all_given pass.old) (all_given pass.new) result }
    ensures failed { IsErrOf result Cause.Fault → Rose (N.faults net.old) (N.faults net.new) }
{
    for _ in 0..count {
        begin_outside(crew, pass, net, spawner)?;
    }
    Ok(())
}

// Begins a session with the next client from outside.
fn begin_outside<
    R: Threads + Wait + Copy + Drop + Send + 'static,
    N: Net,
    G: Gate + Clone + Drop + Send + 'static,
    C: Drop,
    P: Spawner,
>(crew: &mut Crew<R, N, G, C>, pass: &mut Pass, net: &mut N, spawner: &mut P) -> Result<(), Cause>
where
    N::End: Drop + Send + 'static,
    requires crew { IsCrew ⟦<N::End as Link>⟧ (arc_value crew.old.hub)
        crew.old.running crew.old.clients crew.old.gathered }
    requires of { IsPassOf (arc_value crew.old.hub) pass.old }
    requires heard { IsSome (N.heard net.old) }
    requires few { sum (P.begun spawner.old) + 1 ≤ most_starts }
    ensures begins { Begins ⟦<N as Net>⟧ ⟦<P as Spawner>⟧
        crew.old crew.new pass.old pass.new net.old net.new spawner.old spawner.new }
    ensures all { OnOk result (BegunAll ⟦<N as Net>⟧ ⟦<P as Spawner>⟧ 0 1 0
        crew.old crew.new net.old net.new spawner.old spawner.new) }
    ensures spent { IsSpentBy (all_given pass.old) (all_given pass.new) result }
    ensures failed { IsErrOf result Cause.Fault → Rose (N.faults net.old) (N.faults net.new) }
{
    let end = net.accept(crew.alloc)?;
    crew.begin_session(pass, net, spawner, end)
}
