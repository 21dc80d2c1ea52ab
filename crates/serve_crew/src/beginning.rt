// How all jobs of a crew are begun: workers, pairs of a session and a client of the program's own, and
// sessions with clients from outside.
ghost use Rattle.std.specs.Prelude.{◌≡◌, ◌≤◌, ◌+◌, ◌*◌, ◌∷◌, [], Some, false, length};
ghost use Rattle.std.specs.Prelude.{IsErrOf, IsSome, OnOk};
ghost use Rattle.std.specs.List.{All};
ghost use Rattle.std.specs.Arc.{arc_value};
ghost use Rattle.hmr_base.specs.Causes.{Rose};
ghost use Rattle.jobs.specs.Begun.{most_starts, none_begun};
ghost use Rattle.handler_table.specs.Held.{IsHost};
ghost use Rattle.crew_plans.specs.Hubs.{IsPassOf, all_given};
ghost use Rattle.crew_plans.specs.Splits.{IsSpentBy};
ghost use Rattle.serve_crew.specs.Crews.{IsCrew};
ghost use Rattle.serve_crew.specs.Begins.{Begins, BegunAll};

use crate::crew::Crew;
use crate::pairs::begin_pairs;
use crate::starting::{begin_sessions, begin_workers};
use client_jobs::RunningClient;
use crew_plans::{Cause, CrewPlan, Pass};
use handler_table::Shelf;
use jobs::{Gate, Spawner};
use retained_data::{Bag, Ran};
use std::alloc::AllocError;
use std::sync::Wait;
use std::thread::Threads;
use transport::{Link, Net};

/// Begins the workers, then a session and a client for each of the program's own clients, over a
/// connection to the port that the net listens at, then a session for each client from outside. Own
/// clients get the closures of the next shelves, which are left empty, and none where no shelf is left.
/// It waits for connections.
///
/// A job whose start is refused is given up and noted as a fault, and the next is begun. No more are
/// begun after a [`Cause`]: [`Cause::Fault`] comes only where the count of the net rose in this call,
/// and [`Cause::Spent`] exactly where all numbers of passes were found given. An end without a partner
/// is then closed and given back, and the net is asked for no end after one that it refused. Each end
/// that it gave is with a job that runs, or was given back. Where the answer is Ok and no fault was
/// noted, all were begun.
pub fn begin_all<
    R: Threads + Wait + Copy + Drop + Send + 'static,
    N: Net,
    G: Gate + Clone + Drop + Send + 'static,
    F: FnOnce(Bag) -> Result<Ran, AllocError> + Drop + Send + 'static,
    P: Spawner,
>(
    crew: &mut Crew<R, N, G, RunningClient<F, N::End>>,
    pass: &mut Pass,
    net: &mut N,
    spawner: &mut P,
    plan: CrewPlan<G>,
    shelves: &mut [Shelf<F>],
) -> Result<(), Cause>
where
    N::End: Drop + Send + 'static,
    requires crew { IsCrew ⟦<N::End as Link>⟧ (arc_value crew.old.hub)
        crew.old.running crew.old.clients crew.old.gathered }
    requires of { IsPassOf (arc_value crew.old.hub) pass.old }
    requires asked { IsSome (N.asked net.old) }
    requires heard { N.heard net.old ≡ Some plan.clients.port }
    requires callable { (f : F) → F.IsAlwaysCallable f }
    requires hosts { All (All (IsHost F.post)) shelves.old }
    requires none { P.begun spawner.old ≡ none_begun }
    requires few { length plan.workers.takers.items
        + (2 * plan.clients.own + plan.clients.outside) ≤ most_starts }
    ensures hosts { All (All (IsHost F.post)) shelves.new }
    ensures begins { Begins ⟦<N as Net>⟧ ⟦<P as Spawner>⟧
        crew.old crew.new pass.old pass.new net.old net.new spawner.old spawner.new }
    ensures all { OnOk result (BegunAll ⟦<N as Net>⟧ ⟦<P as Spawner>⟧ (length plan.workers.takers.items)
        (plan.clients.own + plan.clients.outside) plan.clients.own
        crew.old crew.new net.old net.new spawner.old spawner.new) }
    ensures begun { OnOk result (crew.new.gathered.fault ≡ false → P.begun spawner.new
        ≡ length plan.workers.takers.items ∷ (plan.clients.own + plan.clients.outside)
        ∷ plan.clients.own ∷ []) }
    ensures spent { IsSpentBy (all_given pass.old) (all_given pass.new) result }
    ensures failed { IsErrOf result Cause.Fault → Rose (N.faults net.old) (N.faults net.new) }
{
    let CrewPlan { workers, clients } = plan;
    begin_workers(crew, pass, net, spawner, workers)?;
    begin_pairs(crew, pass, net, spawner, clients, shelves)?;
    begin_sessions(crew, pass, net, spawner, clients.outside)
}
