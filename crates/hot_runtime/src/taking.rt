// A message is taken: the answer to the request that stands.
ghost use Rattle.std.specs.Prelude.{◌≡◌, ◌≢◌, ◌↔◌, ◌∷◌, true, false, IfErr, IsErrOf};
ghost use Rattle.update_msgs.specs.Writable.{IsWritable};
ghost use Rattle.client_model.specs.Past.{Past, message, runtime_after};
ghost use Rattle.client_model.specs.Requesting.{request};
ghost use Rattle.client_model.specs.Runtime.{Opening, Runtime};
ghost use Rattle.client_model.specs.Taking.{take};
ghost use Rattle.module_language.specs.ModuleLanguage.{module_language};
ghost use Rattle.client_plan.specs.UnderWay.{untold};
ghost use Rattle.runtime_state.specs.declared.fault.RuntimeFault.TheVariants.{Stopped};
ghost use Rattle.runtime_state.specs.Answers.{IsTaken, OnRefusal, OnStop, UnlessNoMemory};
ghost use Rattle.runtime_state.specs.Becoming.{IsTaking};
ghost use Rattle.runtime_state.specs.Standing.{IsSound, Keeps, KeepsWords, StandsFor};

use crate::answering::answer;
use answer_kinds::{answer_place, is_answer, request_place};
use output_lines::OutLine;
use retained_data::{Bag, Ran};
use runtime_answers::overfills;
use runtime_state::{HotRuntime, RuntimeFault};
use std::alloc::AllocError;
use update_msgs::{ClientMsg, ServerMsg};

/// Takes the answer to the request that stands, and gives the lines of what it does.
/// [`RuntimeFault::Stopped`] comes exactly where an earlier call answered
/// [`RuntimeFault::InstancesFull`] or [`RuntimeFault::NoMemory`]; else
/// [`RuntimeFault::Unexpected`] where the message is no answer to the request, and then nothing
/// changes; else `InstancesFull` where the plan would make the 20,001st instance, and then nothing is
/// run. `NoMemory` may come in place of any answer but `Stopped`.
pub fn take<F: FnOnce(Bag) -> Result<Ran, AllocError> + Drop>(
    runtime: &mut HotRuntime<F>,
    msg: ServerMsg,
) -> Result<Vec<OutLine>, RuntimeFault>
    requires writable { IsWritable runtime.old.format msg }
    requires callable { (f : F) → F.IsAlwaysCallable f }
    requires words { KeepsWords F.post runtime.old }
    ensures stands { (opening : Opening) (past : Past) → StandsFor opening past runtime.old
        → UnlessNoMemory (StandsFor opening (message msg ∷ past) runtime.new) result }
    ensures answer { (opening : Opening) (past : Past) → StandsFor opening past runtime.old
        → IsTaken (take module_language (runtime_after module_language opening past) msg).answer result }
    ensures stopped { IsErrOf result Stopped ↔ (runtime.old.stopped ≡ true) }
    ensures stops { OnStop (runtime.new.stopped ≡ true) result }
    ensures unchanged { OnRefusal (runtime.new ≡ runtime.old) result }
    ensures words { KeepsWords F.post runtime.new }
    ensures format { runtime.new.format ≡ runtime.old.format }
{
    if runtime.stopped {
        return Err(RuntimeFault::Stopped);
    }
    match runtime.asked() {
        Ok(asked) => take_answer(runtime, asked, msg),
        Err(_) => {
            runtime.stopped = true;
            Err(RuntimeFault::NoMemory)
        }
    }
}

// Takes the answer to this request, which tells no modules.
fn take_answer<F: FnOnce(Bag) -> Result<Ran, AllocError> + Drop>(
    runtime: &mut HotRuntime<F>,
    asked: ClientMsg,
    msg: ServerMsg,
) -> Result<Vec<OutLine>, RuntimeFault>
    requires running { runtime.old.stopped ≡ false }
    requires writable { IsWritable runtime.old.format msg }
    requires callable { (f : F) → F.IsAlwaysCallable f }
    requires words { KeepsWords F.post runtime.old }
    ensures takes { (r : Runtime) → Keeps r runtime.old → IsSound runtime.old
        → untold (request module_language r) ≡ asked → IsTaking (take module_language r msg) runtime.new result }
    ensures running { IfErr result (λ fault. fault ≢ Stopped) }
    ensures stops { OnStop (runtime.new.stopped ≡ true) result }
    ensures unchanged { OnRefusal (runtime.new ≡ runtime.old) result }
    ensures words { KeepsWords F.post runtime.new }
    ensures format { runtime.new.format ≡ runtime.old.format }
{
    if !is_answer(runtime.loaded, &asked, &msg) {
        return Err(RuntimeFault::Unexpected {
            wanted: request_place(&asked),
            got: answer_place(&msg),
        });
    }
    if overfills(runtime, &asked, &msg) {
        runtime.stopped = true;
        return Err(RuntimeFault::InstancesFull);
    }
    match answer(runtime, asked, msg) {
        Ok(lines) => Ok(lines),
        Err(_) => {
            runtime.stopped = true;
            Err(RuntimeFault::NoMemory)
        }
    }
}
