// An event is fired at the page.
ghost use Rattle.std.specs.Prelude.{◌≡◌, ◌↔◌, ◌∷◌, ◌||◌, not, is_some, true, false, IfOk, IsErrOf, OnOk};
ghost use Rattle.client_model.specs.Firing.{fire, hear_all};
ghost use Rattle.client_model.specs.Past.{Past, event, runtime_after};
ghost use Rattle.client_model.specs.Runtime.{Opening, Runtime};
ghost use Rattle.module_language.specs.ModuleLanguage.{module_language};
ghost use Rattle.runtime_state.specs.declared.fault.RuntimeFault.TheVariants.{Stopped};
ghost use Rattle.runtime_state.specs.Answers.{IsFired, OnNone, OnRefusal, OnStop, UnlessNoMemory};
ghost use Rattle.runtime_state.specs.Becoming.{Becomes};
ghost use Rattle.runtime_state.specs.Standing.{IsSound, Keeps, KeepsWords, StandsFor};

use hmr_types::{ModName, Value};
use output_lines::OutLine;
use prunes_and_events::hear_all;
use retained_data::{Bag, Ran};
use runtime_state::{HotRuntime, RuntimeFault};
use std::alloc::AllocError;

/// Fires an event with a value: each live instance, in rising number, runs each of its dependency
/// callbacks that lists the event, in order, with a module whose one export `data` is the value. Gives
/// the lines; None exactly where the page isn't loaded or has a plan under way, and then nothing
/// changes. [`RuntimeFault::Stopped`] comes exactly as from `take`, and
/// [`RuntimeFault::NoMemory`] may come in place of any answer but `Stopped`.
pub fn fire<F: FnOnce(Bag) -> Result<Ran, AllocError> + Drop>(
    runtime: &mut HotRuntime<F>,
    name: &ModName,
    value: &Value,
) -> Result<Option<Vec<OutLine>>, RuntimeFault>
    requires callable { (f : F) → F.IsAlwaysCallable f }
    requires words { KeepsWords F.post runtime.old }
    ensures stands { (opening : Opening) (past : Past) → StandsFor opening past runtime.old
        → UnlessNoMemory (StandsFor opening (event name.now value.now ∷ past) runtime.new) result }
    ensures answer { (opening : Opening) (past : Past) → StandsFor opening past runtime.old
        → IsFired
        (fire module_language name.now value.now
        (runtime_after module_language opening past)).answer result }
    ensures stopped { IsErrOf result Stopped ↔ (runtime.old.stopped ≡ true) }
    ensures stops { OnStop (runtime.new.stopped ≡ true) result }
    ensures unchanged { OnRefusal (runtime.new ≡ runtime.old) result }
    ensures busy { OnNone (runtime.new ≡ runtime.old) result }
    ensures words { KeepsWords F.post runtime.new }
    ensures format { runtime.new.format ≡ runtime.old.format }
{
    if runtime.stopped {
        return Err(RuntimeFault::Stopped);
    }
    if is_busy(runtime) {
        return Ok(None);
    }
    match hear(runtime, name, value) {
        Ok(lines) => Ok(Some(lines)),
        Err(_) => {
            runtime.stopped = true;
            Err(RuntimeFault::NoMemory)
        }
    }
}

// Whether the page isn't loaded, or has a plan under way.
fn is_busy<F: FnOnce(Bag) -> Result<Ran, AllocError> + Drop>(runtime: &HotRuntime<F>) -> bool
    ensures { (r : Runtime) → Keeps r runtime.now → result ≡ (not r.page.loaded || is_some r.page.plan) }
{
    match &runtime.plan {
        Some(_) => true,
        None => !runtime.loaded,
    }
}

// Each live instance hears the event, in rising number.
fn hear<F: FnOnce(Bag) -> Result<Ran, AllocError> + Drop>(
    runtime: &mut HotRuntime<F>,
    name: &ModName,
    value: &Value,
) -> Result<Vec<OutLine>, AllocError>
    requires running { runtime.old.stopped ≡ false }
    requires callable { (f : F) → F.IsAlwaysCallable f }
    requires words { KeepsWords F.post runtime.old }
    ensures becomes { (r : Runtime) → Keeps r runtime.old → IsSound runtime.old
        → IfOk result
        (λ lines. Becomes (hear_all module_language name.now value.now r) runtime.new lines.items) }
    ensures words { OnOk result (KeepsWords F.post runtime.new) }
    ensures format { runtime.new.format ≡ runtime.old.format }
{
    let alloc = runtime.allocator();
    let mut lines = Vec::new(alloc);
    hear_all(&mut runtime.page, alloc, name, value, &mut lines)?;
    Ok(lines)
}
