// Work is done in threads of its own that a spawner counts, and its end is waited for.
//
// A thread may be refused after the work has gone into its closure, which the caller then gets back. So
// caller and closure share a flag: a closure that finds it set gives its work up, and tells which it did.
ghost use Rattle.std.specs.Prelude.{◌≡◌, ◌≤◌, ◌<◌, Bool, IfErr, IfOk, OnErr, OnOk, false, sum};
ghost use Rattle.hmr_base.specs.Causes.{Rose};
ghost use Rattle.jobs.specs.Begun.{kinds, most_starts, one_more};
ghost use Rattle.jobs.specs.Runs.{promise_of};

use crate::spawner::{Refused, Spawner, Started};
use std::alloc::Global;
use std::sync::atomic::{AtomicBool, Ordering};
use std::sync::{Arc, Wait};
use std::thread;
use std::thread::{Promise, PromisedHandle, Threads};

/// A thread that was started and counted. [`finish_thread`] gives what it ended in.
#[derive(Drop)]
pub struct Thread<T, Q: Promise<(T, bool)>> {
    handle: PromisedHandle<(T, bool), Q>,
}

/// Starts a thread that calls `work` with true. Where none is started, `work` is called here with false, to
/// give up, and the Err is what that gives; it comes only where the spawner's count of faults rose. A start
/// that answers Ok, and no other, raises the number begun of this kind by one. What `work` gives keeps the
/// promise, together with what it was called with.
pub fn start_thread<
    P: Spawner,
    T: Drop + Send + 'static,
    Q: Promise<(T, bool)> + Drop,
    F: FnOnce(bool) -> T + Drop + Send + 'static,
    R: Threads + Wait,
>(rt: &R, alloc: Global, spawner: &mut P, kind: u8, promise: Q, work: F) -> Result<Thread<T, Q>, T>
    requires few { sum (P.begun spawner.old) < most_starts }
    requires kind { kind < kinds }
    requires callable { F.IsAlwaysCallable work }
    requires kept { (worked : Bool) (out : T) → F.post work worked out → Q.kept_by promise (out, worked) }
    ensures running { IfOk result (λ t. promise_of t ≡ promise) }
    ensures refused { IfErr result (λ out. F.post work false out) }
    ensures begun { OnOk result (P.begun spawner.new ≡ one_more (P.begun spawner.old) kind) }
    ensures same { OnErr result (P.begun spawner.new ≡ P.begun spawner.old) }
    ensures later { P.faults spawner.old ≤ P.faults spawner.new }
    ensures failed { OnErr result (Rose (P.faults spawner.old) (P.faults spawner.new)) }
{
    match admitted(rt, alloc, spawner, promise, work) {
        Ok(handle) => {
            spawner.count_start(Started { kind });
            Ok(Thread { handle })
        }
        Err(out) => {
            spawner.count_fault(Refused { seen: () });
            Err(out)
        }
    }
}

// The handle of a thread that calls `work` with true, where the spawner lets it start; else what `work` gives
// at false. It counts nothing.
fn admitted<
    P: Spawner,
    T: Drop + Send + 'static,
    Q: Promise<(T, bool)> + Drop,
    F: FnOnce(bool) -> T + Drop + Send + 'static,
    R: Threads + Wait,
>(
    rt: &R,
    alloc: Global,
    spawner: &mut P,
    promise: Q,
    work: F,
) -> Result<PromisedHandle<(T, bool), Q>, T>
    requires callable { F.IsAlwaysCallable work }
    requires kept { (worked : Bool) (out : T) → F.post work worked out → Q.kept_by promise (out, worked) }
    ensures running { IfOk result (λ h. h.promise ≡ promise) }
    ensures refused { IfErr result (λ out. F.post work false out) }
    ensures begun { P.begun spawner.new ≡ P.begun spawner.old }
    ensures faults { P.faults spawner.new ≡ P.faults spawner.old }
{
    if !spawner.admits() {
        return Err(work(false));
    }
    let Ok(flag) = Arc::new(alloc, AtomicBool::new(false)) else {
        return Err(work(false));
    };
    let Ok(ours) = Arc::try_clone(&flag) else {
        return Err(work(false));
    };
    spawn(rt, ours, flag, promise, work)
}

// The handle of a thread that calls `work` with true; without a thread what `work` gives at false.
fn spawn<
    T: Drop + Send + 'static,
    Q: Promise<(T, bool)> + Drop,
    F: FnOnce(bool) -> T + Drop + Send + 'static,
    R: Threads + Wait,
>(
    rt: &R,
    ours: Arc<AtomicBool, Global>,
    theirs: Arc<AtomicBool, Global>,
    promise: Q,
    work: F,
) -> Result<PromisedHandle<(T, bool), Q>, T>
    requires callable { F.IsAlwaysCallable work }
    requires kept { (worked : Bool) (out : T) → F.post work worked out → Q.kept_by promise (out, worked) }
    ensures running { IfOk result (λ h. h.promise ≡ promise) }
    ensures refused { IfErr result (λ out. F.post work false out) }
{
    match thread::spawn_with(
        rt,
        promise,
        move || -> (T, bool)
            requires { F.IsAlwaysCallable work }
            ensures { F.post work result.1 result.0 }
        {
            let work = work;
            let goes_on = !theirs.load(Ordering::SeqCst);
            (work(goes_on), goes_on)
        },
    ) {
        Ok(handle) => Ok(handle),
        Err(refused) => {
            ours.store(true, Ordering::SeqCst);
            let (out, worked) = (refused.value)();
            if worked {
                // No run comes here, since the flag is set; a proof knows nothing of what a flag holds.
                for _ in rt.forever() {}
                unreachable!()
            }
            Err(out)
        }
    }
}

/// Waits for the end of a thread that was started, and gives what its work gave, and whether the work went
/// on; where it was given up, the spawner's count of faults rose.
pub fn finish_thread<P: Spawner, T, Q: Promise<(T, bool)>, R: Threads>(
    rt: &R,
    spawner: &mut P,
    thread: Thread<T, Q>,
) -> (T, bool)
    ensures kept { Q.kept_by (promise_of thread) result }
    ensures failed { result.1 ≡ false → Rose (P.faults spawner.old) (P.faults spawner.new) }
    ensures begun { P.begun spawner.new ≡ P.begun spawner.old }
    ensures later { P.faults spawner.old ≤ P.faults spawner.new }
{
    let Thread { handle } = thread;
    let (out, worked) = handle.join(rt);
    if !worked {
        spawner.count_fault(Refused { seen: () });
    }
    (out, worked)
}
