// The disposer of an instance is run, where it holds one. Whatever may fail stands before the handler is
// taken: from there on it is spent.
ghost use Rattle.std.specs.Prelude.{◌≡◌, ◌<◌, suc, length, OnOk};
ghost use Rattle.output_lines.specs.declared.words.FaultPlace.TheVariants.{Dispose};
ghost use Rattle.client_model.specs.Instance.{disposes};
ghost use Rattle.client_model.specs.Running.{run_each, no_arguments};
ghost use Rattle.module_language.specs.ModuleLanguage.{module_language};
ghost use Rattle.page_state.specs.Standing.{Follows, KeepWords};

use crate::settling::settle;
use crate::spending::spend;
use module_semantics::ModParam;
use output_lines::{FaultPlace, OutLine};
use page_instances::imports_in;
use page_state::Page;
use retained_data::{Bag, Ran};
use std::alloc::{AllocError, Global};

/// Runs the disposer of the instance at a place, where it holds one, and adds its lines. It fails only
/// where memory runs out.
pub fn run_disposer<F: FnOnce(Bag) -> Result<Ran, AllocError> + Drop>(
    page: &mut Page<F>,
    alloc: Global,
    place: usize,
    lines: &mut Vec<OutLine>,
) -> Result<(), AllocError>
    requires place { place < length page.old.instances.items }
    requires callable { (f : F) → F.IsAlwaysCallable f }
    requires words { KeepWords F.post page.old }
    ensures count { OnOk result (length page.new.instances.items ≡ length page.old.instances.items) }
    ensures words { OnOk result (KeepWords F.post page.new) }
    ensures follows { OnOk result
        (Follows (run_each module_language Dispose no_arguments disposes (suc place))
        page.old page.new lines.old.items lines.new.items) }
{
    let imports = imports_in(alloc, &page.instances, &page.instances[place])?;
    let mods: Vec<ModParam> = Vec::new(alloc);
    let handler = match page.instances[place].take_disposer() {
        Some(handler) => handler,
        None => return Ok(()),
    };
    let bag = page.bags.take(alloc, &page.instances[place].name);
    let own = page.instances[place].values.as_slice();
    let ran = spend(alloc, handler, own, &imports, &mods, bag)?;
    settle(page, place, FaultPlace::Dispose, ran, lines)?;
    Ok(())
}
