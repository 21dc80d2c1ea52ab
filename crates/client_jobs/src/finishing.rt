// The end of the program's own clients: each is waited for, and what it leaves is taken in.
ghost use Rattle.std.specs.Prelude.{◌≡◌, ◌<◌, ◌+◌, ◌-◌, length, vec_capacity, vec_len};
ghost use Rattle.crew_plans.specs.Gathers.{Gathers, HasRoom, logs_due};
ghost use Rattle.crew_plans.specs.Lendings.{Lends};

use crate::client_threads::{RunningClient, finish_client};
use crate::taking::take_client;
use crew_plans::Gathered;
use jobs::Spawner;
use std::sync::Wait;
use std::thread::Threads;
use transport::{Link, Net};

/// Waits for the end of each client, all of which it takes, in the order in which they were begun, and
/// takes in what they leave, for which there is room. Each end of a connection that they have is given
/// back to the net. A fault is noted only where the count of the net or of the spawner rose in this call.
/// It takes no memory.
pub fn finish_clients<R: Threads + Wait, N: Net, P: Spawner, F: Drop>(
    rt: &R,
    net: &mut N,
    spawner: &mut P,
    clients: &mut Vec<RunningClient<F, N::End>>,
    gathered: &mut Gathered,
)
where
    N::End: Drop,
    requires room { HasRoom clients.old gathered.old.logs }
    ensures passes { gathered.new.passes ≡ gathered.old.passes }
    ensures full { gathered.new.full ≡ gathered.old.full }
    ensures logs { length gathered.new.logs.items ≡ logs_due clients.old gathered.old }
    ensures gathers { Gathers gathered.old gathered.new
        (N.faults net.old) (N.faults net.new) (P.faults spawner.old) (P.faults spawner.new) }
    ensures asked { (N.asked net.new ≡ N.asked net.old) × (N.heard net.new ≡ N.heard net.old) }
    ensures ends { Lends (length clients.old.items) 0 (N.lent net.old) (N.lent net.new) }
    ensures unasked { (N.refused net.new ≡ N.refused net.old) × (N.late net.new ≡ N.late net.old) }
    ensures begun { P.begun spawner.new ≡ P.begun spawner.old }
{
    clients.reverse();
    while let Some(client) = clients.pop() {
        finish_one_client(rt, net, spawner, client, gathered);
    }
}

// Waits for the end of a client.
fn finish_one_client<R: Threads + Wait, N: Net, P: Spawner, F: Drop>(
    rt: &R,
    net: &mut N,
    spawner: &mut P,
    running: RunningClient<F, N::End>,
    gathered: &mut Gathered,
)
where
    N::End: Drop,
    requires room { vec_len gathered.old.logs < vec_capacity gathered.old.logs }
    ensures passes { gathered.new.passes ≡ gathered.old.passes }
    ensures full { gathered.new.full ≡ gathered.old.full }
    ensures logs { length gathered.new.logs.items ≡ length gathered.old.logs.items + 1 }
    ensures count { vec_len gathered.new.logs ≡ vec_len gathered.old.logs + 1 }
    ensures room { vec_capacity gathered.new.logs ≡ vec_capacity gathered.old.logs }
    ensures gathers { Gathers gathered.old gathered.new
        (N.faults net.old) (N.faults net.new) (P.faults spawner.old) (P.faults spawner.new) }
    ensures asked { (N.asked net.new ≡ N.asked net.old) × (N.heard net.new ≡ N.heard net.old) }
    ensures ends { N.lent net.new ≡ N.lent net.old - 1 }
    ensures unasked { (N.refused net.new ≡ N.refused net.old) × (N.late net.new ≡ N.late net.old) }
    ensures begun { P.begun spawner.new ≡ P.begun spawner.old }
{
    let end = finish_client(rt, spawner, running);
    take_client(gathered, net, end);
}
