// The end of workers and sessions: each is waited for, and what it leaves is taken in.
ghost use Rattle.std.specs.Prelude.{◌≡◌, ◌<◌, ◌+◌, length, vec_capacity, vec_len};
ghost use Rattle.std.specs.List.{All, sum_by};
ghost use Rattle.serve_crew.specs.Crews.{RunsOn, ends_held};
ghost use Rattle.crew_plans.specs.Gathers.{Gathers, HasRoom, IsGathered, passes_due};
ghost use Rattle.crew_plans.specs.Lendings.{Lends};

use crate::job::ServeJob;
use crate::taking::take_in;
use crew_plans::{Gathered, Hub};
use jobs::{Gate, Running, Spawner, finish};
use std::sync::Wait;
use std::thread::Threads;
use transport::{Link, Net};

// Waits for the end of each worker and each session of a hub, all of which it takes, and takes in what
// they leave, for which there is room. Each end of a connection that they have is given back to the net.
// A fault is noted only where the count of the net or of the spawner rose in this call. It takes no
// memory.
pub(crate) fn finish_jobs<R: Threads + Wait + Drop, N: Net, P: Spawner, G: Gate + Drop>(
    rt: &R,
    hub: &Hub,
    net: &mut N,
    spawner: &mut P,
    running: &mut Vec<Running<ServeJob<R, N::End, G>>>,
    gathered: &mut Gathered,
)
where
    N::End: Drop,
    requires jobs { All (RunsOn ⟦<N::End as Link>⟧ hub.now) running.old.items }
    requires room { HasRoom running.old gathered.old.passes }
    ensures gathered { IsGathered hub.now gathered.old → IsGathered hub.now gathered.new }
    ensures gathers { Gathers gathered.old gathered.new
        (N.faults net.old) (N.faults net.new) (P.faults spawner.old) (P.faults spawner.new) }
    ensures asked { (N.asked net.new ≡ N.asked net.old) × (N.heard net.new ≡ N.heard net.old) }
    ensures ends { Lends (sum_by ends_held running.old.items) 0 (N.lent net.old) (N.lent net.new) }
    ensures unasked { (N.refused net.new ≡ N.refused net.old) × (N.late net.new ≡ N.late net.old) }
    ensures begun { P.begun spawner.new ≡ P.begun spawner.old }
    ensures kept { length gathered.new.passes.items ≡ passes_due running.old gathered.old }
    ensures logs { gathered.new.logs ≡ gathered.old.logs }
{
    while let Some(job) = running.pop() {
        finish_job(rt, hub, net, spawner, job, gathered);
    }
}

// Waits for the end of a worker or a session.
fn finish_job<R: Threads + Wait + Drop, N: Net, P: Spawner, G: Gate + Drop>(
    rt: &R,
    hub: &Hub,
    net: &mut N,
    spawner: &mut P,
    running: Running<ServeJob<R, N::End, G>>,
    gathered: &mut Gathered,
)
where
    N::End: Drop,
    requires runs { RunsOn ⟦<N::End as Link>⟧ hub.now running }
    requires room { vec_len gathered.old.passes < vec_capacity gathered.old.passes }
    ensures gathered { IsGathered hub.now gathered.old → IsGathered hub.now gathered.new }
    ensures gathers { Gathers gathered.old gathered.new
        (N.faults net.old) (N.faults net.new) (P.faults spawner.old) (P.faults spawner.new) }
    ensures asked { (N.asked net.new ≡ N.asked net.old) × (N.heard net.new ≡ N.heard net.old) }
    ensures ends { Lends (ends_held running) 0 (N.lent net.old) (N.lent net.new) }
    ensures unasked { (N.refused net.new ≡ N.refused net.old) × (N.late net.new ≡ N.late net.old) }
    ensures begun { P.begun spawner.new ≡ P.begun spawner.old }
    ensures kept { length gathered.new.passes.items ≡ length gathered.old.passes.items + 1 }
    ensures count { vec_len gathered.new.passes ≡ vec_len gathered.old.passes + 1 }
    ensures room { vec_capacity gathered.new.passes ≡ vec_capacity gathered.old.passes }
    ensures logs { gathered.new.logs ≡ gathered.old.logs }
{
    let _hub = hub;
    let out = finish(rt, spawner, running);
    take_in(gathered, net, out);
}
