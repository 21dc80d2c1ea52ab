// The end of a crew: each job is waited for, and what it leaves is taken in.
ghost use Rattle.std.specs.Prelude.{◌≡◌, length};
ghost use Rattle.std.specs.Arc.{arc_value};
ghost use Rattle.crew_plans.specs.Gathers.{Gathers, IsGathered, logs_due, passes_due};
ghost use Rattle.crew_plans.specs.Lendings.{Lends};
ghost use Rattle.serve_crew.specs.Crews.{IsCrew, ends_due};

use crate::crew::Crew;
use crate::finishing::finish_jobs;
use client_jobs::{RunningClient, finish_clients};
use jobs::{Gate, Spawner};
use retained_data::{Bag, Ran};
use std::alloc::AllocError;
use std::sync::Wait;
use std::thread::Threads;
use transport::{Link, Net};

/// Waits for the end of each job, and gathers what all have left: the passes of all workers and sessions, each
/// of the hub, and a log of each of the program's own clients. Each end of a connection is given back to the
/// net. `full` stands only where a pass has seen a transcript without a place for a message of full size,
/// `fault` only where it stood before or the count of the net or of the spawner rose in this call.
pub fn finish_all<
    R: Threads + Wait + Copy + Drop + Send + 'static,
    N: Net,
    G: Gate + Clone + Drop + Send + 'static,
    F: FnOnce(Bag) -> Result<Ran, AllocError> + Drop + Send + 'static,
    P: Spawner,
>(crew: &mut Crew<R, N, G, RunningClient<F, N::End>>, net: &mut N, spawner: &mut P)
where
    N::End: Drop + Send + 'static,
    requires crew { IsCrew ⟦<N::End as Link>⟧ (arc_value crew.old.hub)
        crew.old.running crew.old.clients crew.old.gathered }
    ensures gathered { IsGathered (arc_value crew.old.hub) crew.new.gathered }
    ensures gathers { Gathers crew.old.gathered crew.new.gathered
        (N.faults net.old) (N.faults net.new) (P.faults spawner.old) (P.faults spawner.new) }
    ensures asked { (N.asked net.new ≡ N.asked net.old) × (N.heard net.new ≡ N.heard net.old) }
    ensures ends { Lends (ends_due crew.old.running crew.old.clients) 0 (N.lent net.old) (N.lent net.new) }
    ensures unasked { (N.refused net.new ≡ N.refused net.old) × (N.late net.new ≡ N.late net.old) }
    ensures begun { P.begun spawner.new ≡ P.begun spawner.old }
    ensures kept { length crew.new.gathered.passes.items
        ≡ passes_due crew.old.running crew.old.gathered }
    ensures logs { length crew.new.gathered.logs.items
        ≡ logs_due crew.old.clients crew.old.gathered }
{
    finish_jobs(
        &crew.rt,
        &crew.hub,
        net,
        spawner,
        &mut crew.running,
        &mut crew.gathered,
    );
    finish_clients(
        &crew.rt,
        net,
        spawner,
        &mut crew.clients,
        &mut crew.gathered,
    );
}
