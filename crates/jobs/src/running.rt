// Jobs are started in threads of their own, and their ends are waited for.
ghost use Rattle.std.specs.Prelude.{◌≡◌, ◌≤◌, ◌<◌, IfErr, IfOk, OnErr, OnOk, sum};
ghost use Rattle.hmr_base.specs.Causes.{Rose};
ghost use Rattle.jobs.specs.Begun.{most_starts, one_more};
ghost use Rattle.jobs.specs.Ends.{Ended, Finished};
ghost use Rattle.jobs.specs.Runs.{Runs};

use crate::threads::{Thread, finish_thread, start_thread};
use crate::{Job, Spawner};
use std::alloc::Global;
use std::snapshot::Snapshot;
use std::sync::Wait;
use std::thread::{Promise, Threads};

/// What a thread promises of its job: the Out is one of the job, worked or given up as the flag beside it
/// says.
#[derive(Drop)]
pub struct Promised<J>(Snapshot<J>);

impl<J: Job> Promise<(J::Out, bool)> for Promised<J> {
    ghost kept_by = { λ p r. Ended J.works J.gives_up p.0.value r.0 r.1 };
}

/// A job that was started, in a thread of its own. [`finish`] gives its Out.
#[derive(Drop)]
pub struct Running<J: Job> {
    thread: Thread<J::Out, Promised<J>>,
}

/// Starts a job in a thread of its own. A refused start gives its job up, and the Err is that Out; it
/// comes only where the spawner's count of faults rose. A start that answers Ok, and no other, raises the
/// number begun of the job's kind by one.
pub fn start<P: Spawner, J: Job + Drop + Send + 'static, R: Threads + Wait + Copy + Send + 'static>(
    rt: &R,
    alloc: Global,
    spawner: &mut P,
    job: J,
) -> Result<Running<J>, J::Out>
where
    J::Out: Send + Drop + 'static,
    requires { sum (P.begun spawner.old) < most_starts }
    ensures running { IfOk result (λ r. Runs r job) }
    ensures refused { IfErr result (λ out. J.gives_up job out) }
    ensures begun { OnOk result (P.begun spawner.new ≡ one_more (P.begun spawner.old) (J.kind_of job)) }
    ensures same { OnErr result (P.begun spawner.new ≡ P.begun spawner.old) }
    ensures later { P.faults spawner.old ≤ P.faults spawner.new }
    ensures failed { OnErr result (Rose (P.faults spawner.old) (P.faults spawner.new)) }
{
    let kind = job.kind();
    let promise = Promised(Snapshot::of(&job));
    let handle = *rt;
    match start_thread(
        rt,
        alloc,
        spawner,
        kind,
        promise,
        move |goes_on: bool| -> J::Out
            ensures { Ended J.works J.gives_up job result goes_on }
        {
            let job = job;
            if goes_on {
                job.work(&handle, alloc)
            } else {
                job.give_up()
            }
        },
    ) {
        Ok(thread) => Ok(Running { thread }),
        Err(out) => Err(out),
    }
}

/// Waits for the end of a job that was started, and gives its Out: that of the job worked, or of the job
/// given up, where the spawner's count of faults then rose.
pub fn finish<P: Spawner, J: Job, R: Threads + Wait>(
    rt: &R,
    spawner: &mut P,
    running: Running<J>,
) -> J::Out
    ensures out { (job : J) → Runs running job
        → Finished J.works J.gives_up job result (P.faults spawner.old) (P.faults spawner.new) }
    ensures begun { P.begun spawner.new ≡ P.begun spawner.old }
    ensures later { P.faults spawner.old ≤ P.faults spawner.new }
{
    let Running { thread } = running;
    let (out, _worked) = finish_thread(rt, spawner, thread);
    out
}
