// Clients in threads of their own, which a spawner counts.
ghost use Rattle.std.specs.Prelude.{◌≡◌, ◌≤◌, ◌<◌};
ghost use Rattle.std.specs.Prelude.{IfErr, IfOk, OnErr, OnOk, Bool, false, is_some, sum};
ghost use Rattle.hmr_base.specs.Causes.{Rose};
ghost use Rattle.jobs.specs.Begun.{most_starts, one_more};
ghost use Rattle.client_jobs.specs.ClientEnds.{IsClientEnd};
ghost use Rattle.client_jobs.specs.ClientSessions.{IsEndOf, Tells, opening_of};
ghost use Rattle.client_jobs.specs.Clients.{IsReady};
ghost use Rattle.client_jobs.specs.RunningClients.{RunsClient};

use crate::client::{ClientEnd, ClientJob};
use jobs::{Spawner, Thread, finish_thread, start_thread};
use retained_data::{Bag, Ran};
use std::alloc::{AllocError, Global};
use std::snapshot::Snapshot;
use std::sync::Wait;
use std::thread::{Promise, Threads};
use transport::Link;

// The kind of a client's job.
const CLIENT: u8 = 2;

/// What the thread of a client promises: its end is that of the client, worked or given up as the flag beside
/// it says.
#[derive(Drop)]
pub struct ClientPromise<F: Drop, L: Link + Drop>(Snapshot<ClientJob<F, L>>);

impl<F: Drop, L: Link + Drop> Promise<(ClientEnd<L>, bool)> for ClientPromise<F, L> {
    ghost kept_by = { λ p r. IsEndOf p.0.value r.0 r.1 };
}

/// A client that was started, in a thread of its own. [`finish_client`] gives its end.
#[derive(Drop)]
pub struct RunningClient<F: Drop, L: Link + Drop> {
    thread: Thread<ClientEnd<L>, ClientPromise<F, L>>,
}

/// Starts a client in a thread of its own. A refused start gives its job up, and the Err is that end; it
/// comes only where the spawner's count of faults rose. A start that answers Ok, and no other, raises the
/// number begun of kind 2 by one.
pub fn start_client<
    P: Spawner,
    F: FnOnce(Bag) -> Result<Ran, AllocError> + Drop + Send + 'static,
    L: Link + Drop + Send + 'static,
    R: Threads + Wait,
>(
    rt: &R,
    alloc: Global,
    spawner: &mut P,
    job: ClientJob<F, L>,
) -> Result<RunningClient<F, L>, ClientEnd<L>>
    requires few { sum (P.begun spawner.old) < most_starts }
    requires ready { IsReady F.post ((f : F) → F.IsAlwaysCallable f) job.opening.shelf }
    ensures running { IfOk result (λ r. RunsClient r job) }
    ensures refused { IfErr result (λ end. IsEndOf job end false) }
    ensures begun { OnOk result (P.begun spawner.new ≡ one_more (P.begun spawner.old) 2) }
    ensures same { OnErr result (P.begun spawner.new ≡ P.begun spawner.old) }
    ensures later { P.faults spawner.old ≤ P.faults spawner.new }
    ensures failed { OnErr result (Rose (P.faults spawner.old) (P.faults spawner.new)) }
{
    let promise = ClientPromise(Snapshot::of(&job));
    match start_thread(
        rt,
        alloc,
        spawner,
        CLIENT,
        promise,
        move |goes_on: bool| -> ClientEnd<L>
            requires ready { IsReady F.post ((f : F) → F.IsAlwaysCallable f) job.opening.shelf }
            ensures { IsEndOf job result goes_on }
        {
            let job = job;
            if goes_on {
                job.work(alloc)
            } else {
                job.give_up()
            }
        },
    ) {
        Ok(thread) => Ok(RunningClient { thread }),
        Err(end) => Err(end),
    }
}

/// Waits for the end of a client that was started. Its lines, its ending and what went over its link are
/// those of one session of that client. Where the client was given up, nothing went over its link and the
/// spawner's count of faults then rose.
pub fn finish_client<P: Spawner, F: Drop, L: Link + Drop, R: Threads + Wait>(
    rt: &R,
    spawner: &mut P,
    running: RunningClient<F, L>,
) -> ClientEnd<L>
    ensures ended { (worked : Bool)
        × IsClientEnd (L.phase result.link) (L.faults result.link) result.told worked }
    ensures tells { (job : _) → RunsClient running job → Tells ⟦<L as Link>⟧ (opening_of job.opening)
        job.turns job.link result.link result.told }
    ensures failed { is_some result.told ≡ false → Rose (P.faults spawner.old) (P.faults spawner.new) }
    ensures begun { P.begun spawner.new ≡ P.begun spawner.old }
    ensures later { P.faults spawner.old ≤ P.faults spawner.new }
{
    let RunningClient { thread } = running;
    let (end, _worked) = finish_thread(rt, spawner, thread);
    end
}
