// How a client is begun, with room for the log that it will leave.
ghost use Rattle.std.specs.Prelude.{◌≡◌, ◌≤◌, ◌+◌, IfErr, OnOk, false, length, sum};
ghost use Rattle.jobs.specs.Begun.{most_starts};
ghost use Rattle.client_jobs.specs.Clients.{IsReady};
ghost use Rattle.crew_plans.specs.Begun.{HasBegun};
ghost use Rattle.crew_plans.specs.Gathers.{Gathers, HasPlace, HasRoom, TakenIn, logs_due};
ghost use Rattle.crew_plans.specs.Lendings.{Lends};

use crate::client::{ClientEnd, ClientJob};
use crate::client_threads::{RunningClient, start_client};
use crate::taking::take_client;
use crew_plans::{Cause, Gathered, reserve_place};
use jobs::Spawner;
use retained_data::{Bag, Ran};
use std::alloc::{AllocError, Global};
use std::sync::Wait;
use std::thread::Threads;
use transport::Net;

/// Begins a client in a thread of its own, behind those that were begun, and makes room for its log before. A
/// client whose start is refused is given up, a fault is noted, and the answer is Ok. Where there is no memory
/// for its place, which is the only failure, its end of the connection is closed and given back to the net.
pub fn begin_client<
    R: Threads + Wait,
    N: Net,
    F: FnOnce(Bag) -> Result<Ran, AllocError> + Drop + Send + 'static,
    P: Spawner,
>(
    rt: &R,
    alloc: Global,
    net: &mut N,
    spawner: &mut P,
    job: ClientJob<F, N::End>,
    clients: &mut Vec<RunningClient<F, N::End>>,
    gathered: &mut Gathered,
) -> Result<(), Cause>
where
    N::End: Drop + Send + 'static,
    requires ready { IsReady F.post ((f : F) → F.IsAlwaysCallable f) job.opening.shelf }
    requires room { HasRoom clients.old gathered.old.logs }
    requires few { sum (P.begun spawner.old) + 1 ≤ most_starts }
    ensures room { HasRoom clients.new gathered.new.logs }
    ensures passes { gathered.new.passes ≡ gathered.old.passes }
    ensures full { gathered.new.full ≡ gathered.old.full }
    ensures gathers { Gathers gathered.old gathered.new
        (N.faults net.old) (N.faults net.new) (P.faults spawner.old) (P.faults spawner.new) }
    ensures asked { (N.asked net.new ≡ N.asked net.old) × (N.heard net.new ≡ N.heard net.old) }
    ensures ends { Lends (length clients.old.items + 1) (length clients.new.items)
        (N.lent net.old) (N.lent net.new) }
    ensures unasked { (N.refused net.new ≡ N.refused net.old) × (N.late net.new ≡ N.late net.old) }
    ensures begun { OnOk result (gathered.new.fault ≡ false
        → HasBegun 0 0 1 (P.begun spawner.old) (P.begun spawner.new)) }
    ensures few { sum (P.begun spawner.new) ≤ sum (P.begun spawner.old) + 1 }
    ensures logs { OnOk result (logs_due clients.new gathered.new
        ≡ logs_due clients.old gathered.old + 1) }
    ensures only { IfErr result (λ cause. cause ≡ Cause.NoMemory) }
{
    if reserve_place(clients, &mut gathered.logs).is_err() {
        let ClientEnd {
            client: _,
            link,
            told: _,
        } = job.give_up();
        net.retire(link);
        return Err(Cause::NoMemory);
    }
    match start_client(rt, alloc, spawner, job) {
        Ok(running) => clients.push_reserved(running),
        Err(end) => take_client(gathered, net, end),
    }
    Ok(())
}
