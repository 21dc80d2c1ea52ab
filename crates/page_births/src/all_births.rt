// The new instances of a plan are made, one after another.
ghost use Rattle.std.specs.Prelude.{◌≡◌, ◌<◌, ◌+◌, ◌^◌, length, OnOk};
ghost use Rattle.page_births.specs.EachBirth.{FollowsBirths};
ghost use Rattle.page_state.specs.Standing.{KeepWords};

use crate::birth::Birth;
use crate::make::make;
use output_lines::OutLine;
use page_state::Page;
use retained_data::{Bag, Ran};
use std::alloc::{AllocError, Global};

/// Modules get new instances, one after another, of the page's next numbers; no two may have one name,
/// and none of the names may be live. Adds the lines of their evaluations. It fails only where memory
/// runs out; the page can't be used then. It takes time in proportion to the trees and to what their
/// evaluations do.
pub fn make_all<F: FnOnce(Bag) -> Result<Ran, AllocError> + Drop>(
    page: &mut Page<F>,
    alloc: Global,
    births: Vec<Birth>,
    lines: &mut Vec<OutLine>,
) -> Result<(), AllocError>
    requires room { length page.old.instances.items + length births.items < 2 ^ 32 }
    requires callable { (f : F) → F.IsAlwaysCallable f }
    requires words { KeepWords F.post page.old }
    ensures count { OnOk result (length page.new.instances.items
        ≡ length page.old.instances.items + length births.items) }
    ensures words { OnOk result (KeepWords F.post page.new) }
    ensures follows { OnOk result (FollowsBirths births.items
        page.old page.new lines.old.items lines.new.items) }
{
    let mut rest = births.into_iter();
    while let Some(birth) = rest.next() {
        make(page, alloc, birth, lines)?;
    }
    Ok(())
}
