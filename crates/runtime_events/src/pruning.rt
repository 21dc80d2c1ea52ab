// Modules that no root reaches any more leave the page.
ghost use Rattle.std.specs.Prelude.{◌≡◌, false, filter, not, IfOk, OnOk};
ghost use Rattle.update_msgs.specs.declared.message.ClientMsg.TheVariants.{Ask};
ghost use Rattle.core_model.specs.Names.{has};
ghost use Rattle.client_model.specs.Applying.{prune};
ghost use Rattle.client_model.specs.Requesting.{request};
ghost use Rattle.client_model.specs.Runtime.{Runtime};
ghost use Rattle.module_language.specs.ModuleLanguage.{module_language};
ghost use Rattle.runtime_state.specs.Becoming.{Becomes};
ghost use Rattle.runtime_state.specs.Standing.{IsSound, Keeps, KeepsWords};

use hmr_types::{ModName, Sequence};
use module_graph::has_name;
use output_lines::OutLine;
use prunes_and_events::prune_all;
use retained_data::{Bag, Ran};
use runtime_state::HotRuntime;
use std::alloc::AllocError;

/// The live instances of these modules are pruned, in falling number, and the modules leave the page.
pub fn prune<F: FnOnce(Bag) -> Result<Ran, AllocError> + Drop>(
    runtime: &mut HotRuntime<F>,
    paths: Sequence<ModName>,
) -> Result<Vec<OutLine>, AllocError>
    requires running { runtime.old.stopped ≡ false }
    requires callable { (f : F) → F.IsAlwaysCallable f }
    requires words { KeepsWords F.post runtime.old }
    ensures becomes { (r : Runtime) → Keeps r runtime.old → IsSound runtime.old
        → request module_language r ≡ Ask
        → IfOk result (λ lines. Becomes (prune module_language paths r) runtime.new lines.items) }
    ensures words { OnOk result (KeepsWords F.post runtime.new) }
    ensures format { runtime.new.format ≡ runtime.old.format }
    ensures stopped { runtime.new.stopped ≡ runtime.old.stopped }
{
    let alloc = runtime.allocator();
    let names = paths.as_slice();
    let mut lines = Vec::new(alloc);
    prune_all(&mut runtime.page, alloc, names, &mut lines)?;
    runtime.view.drop_names(names);
    runtime.whole = false;
    drop_forced(&mut runtime.forced, names);
    Ok(lines)
}

// Names that leave the page are forced no more.
fn drop_forced(forced: &mut Vec<ModName>, names: &[ModName])
    ensures { forced.new.items ≡ filter (λ n. not (has names.now n)) forced.old.items }
{
    forced.retain(|name| !has_name(names, name));
}
