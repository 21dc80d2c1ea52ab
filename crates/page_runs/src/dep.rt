// The callbacks of an instance that list one of its dependencies are run: it got a new instance.
ghost use Rattle.std.specs.Prelude.{◌≡◌, ◌<◌, suc, Some, length, OnOk};
ghost use Rattle.client_model.specs.Applying.{run_dep};
ghost use Rattle.module_language.specs.ModuleLanguage.{module_language};
ghost use Rattle.page_state.specs.Standing.{Follows, KeepWords};

use crate::callbacks::run_listing;
use crate::given::Given;
use hmr_types::ModName;
use output_lines::OutLine;
use page_state::Page;
use retained_data::{Bag, Ran};
use std::alloc::{AllocError, Global};

/// The callbacks of the instance at a place that list this dependency are run, in the order in which
/// they came. Each is given the dependency's live module at the places where it lists it, and
/// `undefined` at the others. Adds their lines. It fails only where memory runs out; the page can't be
/// used then.
pub fn run_dep<F: FnOnce(Bag) -> Result<Ran, AllocError> + Drop>(
    page: &mut Page<F>,
    alloc: Global,
    place: usize,
    name: &ModName,
    lines: &mut Vec<OutLine>,
) -> Result<(), AllocError>
    requires place { place < length page.old.instances.items }
    requires callable { (f : F) → F.IsAlwaysCallable f }
    requires words { KeepWords F.post page.old }
    ensures count { OnOk result (length page.new.instances.items ≡ length page.old.instances.items) }
    ensures words { OnOk result (KeepWords F.post page.new) }
    ensures follows { OnOk result (Follows (run_dep module_language (Some (suc place)) name.now)
        page.old page.new lines.old.items lines.new.items) }
{
    let given = Given::Live;
    run_listing(page, alloc, place, name, &given, lines)?;
    Ok(())
}
