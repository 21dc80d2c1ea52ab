// What the run of a handler left is settled: its lines are told, its variables are assigned, its bag is
// kept, and its invalidations wait to be sent.
ghost use Rattle.std.specs.Prelude.{◌≡◌, ◌<◌, ◌++◌, length, OnOk};
ghost use Rattle.page_state.specs.Settling.{Settles, left_by, invalidated};

use hmr_types::{ModName, Text, Ver};
use output_lines::{FaultPlace, OutLine};
use page_instances::assign_all;
use page_state::{Invalidation, Page, tell_fault, tell_log};
use retained_data::Ran;
use std::alloc::AllocError;

/// Adds invalidations of a name with these messages.
fn add_invalidations(
    unsent: &mut Vec<Invalidation>,
    name: &ModName,
    version: Ver,
    messages: &[Text],
) -> Result<(), AllocError>
    ensures { OnOk result
        (unsent.new.items ≡ unsent.old.items ++ invalidated name.now version messages.now) }
{
    for message in messages {
        unsent.push(Invalidation {
            name: name.clone()?,
            version,
            message: message.clone()?,
        })?;
    }
    Ok(())
}

/// Settles what a run of the instance at a place left.
pub fn settle<F: Drop>(
    page: &mut Page<F>,
    place: usize,
    at: FaultPlace,
    ran: Ran,
    lines: &mut Vec<OutLine>,
) -> Result<(), AllocError>
    requires place { place < length page.old.instances.items }
    ensures { OnOk result
        (Settles at (left_by ran) place page.old page.new lines.old.items lines.new.items) }
{
    let Ran {
        fault,
        lines: texts,
        changes,
        invalidations,
        bag,
    } = ran;
    let name = page.instances[place].name.clone()?;
    tell_log(lines, page.client, &name, texts.as_slice())?;
    tell_fault(lines, page.client, &name, at, fault)?;
    let version = page.live_version(&name);
    add_invalidations(&mut page.unsent, &name, version, invalidations.as_slice())?;
    assign_all(&mut page.instances[place].values, changes.as_slice())?;
    page.bags.put(name, bag)?;
    Ok(())
}
