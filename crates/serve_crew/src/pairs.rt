// How pairs of a session and a client of the program's own are begun.
ghost use Rattle.std.specs.Prelude.{◌≡◌, ◌≤◌, ◌+◌, ◌*◌, IsErrOf, IsSome, OnOk, Some, sum};
ghost use Rattle.std.specs.List.{All};
ghost use Rattle.std.specs.Arc.{arc_value};
ghost use Rattle.hmr_base.specs.Causes.{Rose};
ghost use Rattle.jobs.specs.Begun.{most_starts};
ghost use Rattle.handler_table.specs.Held.{IsHost};
ghost use Rattle.client_jobs.specs.Clients.{IsReady};
ghost use Rattle.crew_plans.specs.Hubs.{IsPassOf, all_given};
ghost use Rattle.crew_plans.specs.Splits.{IsSpentBy};
ghost use Rattle.serve_crew.specs.Crews.{IsCrew};
ghost use Rattle.serve_crew.specs.Begins.{Begins, BegunAll};

use crate::crew::Crew;
use crate::ends::hang_up;
use client_jobs::{ClientJob, ClientOpening, RunningClient, begin_client};
use crew_plans::{Cause, Clients, Pass, take_shelf};
use handler_table::Shelf;
use jobs::{Gate, Spawner};
use retained_data::{Bag, Ran};
use std::alloc::AllocError;
use std::sync::Wait;
use std::thread::Threads;
use transport::{Link, Net};

/// The format of messages that the program's own clients speak.
const FIRST_FORMAT: u8 = 1;

// Begins a session and a client for each of the program's own clients.
pub(crate) fn begin_pairs<
    R: Threads + Wait + Copy + Drop + Send + 'static,
    N: Net,
    G: Gate + Clone + Drop + Send + 'static,
    F: FnOnce(Bag) -> Result<Ran, AllocError> + Drop + Send + 'static,
    P: Spawner,
>(
    crew: &mut Crew<R, N, G, RunningClient<F, N::End>>,
    pass: &mut Pass,
    net: &mut N,
    spawner: &mut P,
    clients: Clients,
    shelves: &mut [Shelf<F>],
) -> Result<(), Cause>
where
    N::End: Drop + Send + 'static,
    requires crew { IsCrew ⟦<N::End as Link>⟧ (arc_value crew.old.hub)
        crew.old.running crew.old.clients crew.old.gathered }
    requires of { IsPassOf (arc_value crew.old.hub) pass.old }
    requires asked { IsSome (N.asked net.old) }
    requires heard { N.heard net.old ≡ Some clients.port }
    requires callable { (f : F) → F.IsAlwaysCallable f }
    requires hosts { All (All (IsHost F.post)) shelves.old }
    requires few { sum (P.begun spawner.old) + 2 * clients.own ≤ most_starts }
    ensures hosts { All (All (IsHost F.post)) shelves.new }
    ensures begins { Begins ⟦<N as Net>⟧ ⟦<P as Spawner>⟧
        crew.old crew.new pass.old pass.new net.old net.new spawner.old spawner.new }
    ensures all { OnOk result (BegunAll ⟦<N as Net>⟧ ⟦<P as Spawner>⟧ 0 clients.own clients.own
        crew.old crew.new net.old net.new spawner.old spawner.new) }
    ensures spent { IsSpentBy (all_given pass.old) (all_given pass.new) result }
    ensures failed { IsErrOf result Cause.Fault → Rose (N.faults net.old) (N.faults net.new) }
{
    for place in 0..clients.own {
        let shelf = take_shelf(crew.alloc, shelves, place as usize);
        let opening = ClientOpening::new(shelf, Vec::new(crew.alloc), FIRST_FORMAT);
        begin_pair(crew, pass, net, spawner, clients, opening)?;
    }
    Ok(())
}

// Begins a session and a client at the two ends of a new connection.
fn begin_pair<
    R: Threads + Wait + Copy + Drop + Send + 'static,
    N: Net,
    G: Gate + Clone + Drop + Send + 'static,
    F: FnOnce(Bag) -> Result<Ran, AllocError> + Drop + Send + 'static,
    P: Spawner,
>(
    crew: &mut Crew<R, N, G, RunningClient<F, N::End>>,
    pass: &mut Pass,
    net: &mut N,
    spawner: &mut P,
    clients: Clients,
    opening: ClientOpening<F>,
) -> Result<(), Cause>
where
    N::End: Drop + Send + 'static,
    requires crew { IsCrew ⟦<N::End as Link>⟧ (arc_value crew.old.hub)
        crew.old.running crew.old.clients crew.old.gathered }
    requires of { IsPassOf (arc_value crew.old.hub) pass.old }
    requires asked { IsSome (N.asked net.old) }
    requires heard { N.heard net.old ≡ Some clients.port }
    requires ready { IsReady F.post ((f : F) → F.IsAlwaysCallable f) opening.shelf }
    requires few { sum (P.begun spawner.old) + 2 ≤ most_starts }
    ensures begins { Begins ⟦<N as Net>⟧ ⟦<P as Spawner>⟧
        crew.old crew.new pass.old pass.new net.old net.new spawner.old spawner.new }
    ensures all { OnOk result (BegunAll ⟦<N as Net>⟧ ⟦<P as Spawner>⟧ 0 1 1
        crew.old crew.new net.old net.new spawner.old spawner.new) }
    ensures spent { IsSpentBy (all_given pass.old) (all_given pass.new) result }
    ensures failed { IsErrOf result Cause.Fault → Rose (N.faults net.old) (N.faults net.new) }
{
    let theirs = net.connect(crew.alloc, clients.port)?;
    let ours = match net.accept(crew.alloc) {
        Ok(end) => end,
        Err(fault) => {
            hang_up(net, theirs);
            return Err(Cause::from(fault));
        }
    };
    if let Err(cause) = crew.begin_session(pass, net, spawner, ours) {
        hang_up(net, theirs);
        return Err(cause);
    }
    let job = ClientJob::new(opening, theirs, clients.turns);
    begin_client(
        &crew.rt,
        crew.alloc,
        net,
        spawner,
        job,
        &mut crew.clients,
        &mut crew.gathered,
    )
}
