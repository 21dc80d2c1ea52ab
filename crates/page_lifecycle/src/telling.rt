// The boundaries of an update are told of the modules that got a new instance.
ghost use Rattle.std.specs.Prelude.{◌≡◌, length, OnOk};
ghost use Rattle.std.specs.List.{All};
ghost use Rattle.client_model.specs.Runtime.{for_each};
ghost use Rattle.page_state.specs.Standing.{Follows, KeepWords};
ghost use Rattle.page_ends.specs.Tellings.{is_within, tell_live, told};

use hmr_types::ModName;
use output_lines::OutLine;
use page_ends::{Telling, Told, live_place};
use page_runs::{run_dep, run_own};
use page_state::Page;
use retained_data::{Bag, Ran};
use std::alloc::{AllocError, Global};

/// The live instance of a boundary is told of a module by its callbacks that list it.
fn tell_by_deps<F: FnOnce(Bag) -> Result<Ran, AllocError> + Drop>(
    page: &mut Page<F>,
    alloc: Global,
    boundary: &ModName,
    name: &ModName,
    lines: &mut Vec<OutLine>,
) -> Result<(), AllocError>
    requires callable { (f : F) → F.IsAlwaysCallable f }
    requires words { KeepWords F.post page.old }
    ensures count { OnOk result (length page.new.instances.items ≡ length page.old.instances.items) }
    ensures words { OnOk result (KeepWords F.post page.new) }
    ensures follows { OnOk result (Follows (tell_live boundary.now name.now)
        page.old page.new lines.old.items lines.new.items) }
{
    match live_place(page, boundary) {
        Some(place) => run_dep(page, alloc, place, name, lines),
        None => Ok(()),
    }
}

/// A boundary is told of a module. Adds the lines. It fails only where memory runs out; the page can't
/// be used then.
pub fn tell<F: FnOnce(Bag) -> Result<Ran, AllocError> + Drop>(
    page: &mut Page<F>,
    alloc: Global,
    row: &Told,
    lines: &mut Vec<OutLine>,
) -> Result<(), AllocError>
    requires within { is_within row.now.telling (length page.old.instances.items) }
    requires callable { (f : F) → F.IsAlwaysCallable f }
    requires words { KeepWords F.post page.old }
    ensures count { OnOk result (length page.new.instances.items ≡ length page.old.instances.items) }
    ensures words { OnOk result (KeepWords F.post page.new) }
    ensures follows { OnOk result (Follows (told row.now)
        page.old page.new lines.old.items lines.new.items) }
{
    match row.telling {
        Telling::Own(place) => run_own(page, alloc, place, &row.name, lines),
        Telling::Dep => tell_by_deps(page, alloc, &row.boundary, &row.name, lines),
        Telling::Silent => Ok(()),
    }
}

/// The boundaries are told of their modules, in order. Adds the lines. It fails only where memory runs
/// out; the page can't be used then.
pub fn tell_all<F: FnOnce(Bag) -> Result<Ran, AllocError> + Drop>(
    page: &mut Page<F>,
    alloc: Global,
    rows: &[Told],
    lines: &mut Vec<OutLine>,
) -> Result<(), AllocError>
    requires within { All (λ t. is_within t.telling (length page.old.instances.items)) rows.now }
    requires callable { (f : F) → F.IsAlwaysCallable f }
    requires words { KeepWords F.post page.old }
    ensures count { OnOk result (length page.new.instances.items ≡ length page.old.instances.items) }
    ensures words { OnOk result (KeepWords F.post page.new) }
    ensures follows { OnOk result (Follows (for_each told rows.now)
        page.old page.new lines.old.items lines.new.items) }
{
    for row in rows {
        tell(page, alloc, row, lines)?;
    }
    Ok(())
}
