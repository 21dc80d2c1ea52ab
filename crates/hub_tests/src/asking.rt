// What the tests ask of a hub, each in a function of its own: a test then has few values at hand at a time,
// and is proved in a short time.
ghost use Rattle.std.specs.Prelude.{◌≡◌};
ghost use Rattle.hmr_hub.specs.Passes.{IsPassOf, number_of};

use crate::filling::fill;
use crate::loading::load_and_leave;
use crate::serving::{edit, settle};
use crate::words::{all_said, lines_said};
use events_and_replies::{Event, Reply};
use hmr_hub::{Hub, HubStop, Pass};
use hmr_types::{EditRefusal, ModName, Table};
use std::alloc::{AllocError, Global};
use std::sync::Wait;
use version_map::{EditOutcome, Settled};

const TEXT: &[u8] = b"let n = 1;\n";

pub(crate) fn name(alloc: Global) -> Result<ModName, AllocError> {
    ModName::read(alloc, b"/m.js").map_err(|_| AllocError)
}

// The page's modules, where all are served.
fn table(alloc: Global) -> Result<Table, AllocError> {
    match Table::of(vec![in alloc; (name(alloc)?, 1)]?) {
        Some(table) => Ok(table),
        None => Err(AllocError),
    }
}

/// A text of so many spaces. In a function of its own, no proof looks at the list of them.
pub(crate) fn spaces(alloc: Global, count: usize) -> Result<Vec<u8>, AllocError> {
    vec![in alloc; b' '; count]
}

fn is_too_long(reply: &Reply) -> bool {
    matches!(reply, Reply::EditRefused(EditRefusal::TextTooLong))
}

/// How many of so many edits by this text are refused since it is too long.
pub(crate) fn too_long<R: Wait>(
    rt: &R,
    alloc: Global,
    hub: &Hub,
    pass: &mut Pass,
    text: &[u8],
    edits: u32,
) -> Result<usize, HubStop>
    requires pass { IsPassOf hub.now pass.old }
    requires first { number_of pass.old ≡ 0 }
    ensures pass { IsPassOf hub.now pass.new }
    ensures first { number_of pass.new ≡ 0 }
{
    let replies = fill(rt, alloc, hub, pass, &name(alloc)?, text, edits)?;
    Ok(replies.iter().filter(|reply| is_too_long(reply)).count())
}

/// Whether the least event has no place any more.
pub(crate) fn is_full<R: Wait>(rt: &R, hub: &Hub, pass: &mut Pass) -> bool
    requires pass { IsPassOf hub.now pass.old }
    ensures pass { IsPassOf hub.now pass.new }
{
    matches!(
        hub.call(rt, pass, Event::Disconnect(1)),
        Err(HubStop::TranscriptFull)
    )
}

/// Whether the first edit brings a job, whose result is then outstanding.
pub(crate) fn waits_once_edited<R: Wait>(
    rt: &R,
    alloc: Global,
    hub: &Hub,
    pass: &mut Pass,
) -> Result<bool, HubStop>
    requires pass { IsPassOf hub.now pass.old }
    requires first { number_of pass.old ≡ 0 }
    ensures pass { IsPassOf hub.now pass.new }
    ensures first { number_of pass.new ≡ 0 }
{
    let reply = edit(rt, alloc, hub, pass, name(alloc)?, TEXT)?;
    let is_job = matches!(reply, Reply::Edited(EditOutcome::Job(1)));
    let waits = hub.outstanding(rt, pass, name(alloc)?);
    Ok(is_job && waits)
}

/// Whether the result of version 1 is served, and is then outstanding no more.
pub(crate) fn rests_once_settled<R: Wait>(
    rt: &R,
    alloc: Global,
    hub: &Hub,
    pass: &mut Pass,
) -> Result<bool, HubStop>
    requires pass { IsPassOf hub.now pass.old }
    ensures pass { IsPassOf hub.now pass.new }
{
    let reply = settle(rt, alloc, hub, pass, name(alloc)?, TEXT, 1)?;
    let is_served = matches!(reply, Reply::Settled(Settled::Served));
    let waits = hub.outstanding(rt, pass, name(alloc)?);
    Ok(is_served && !waits)
}

/// What a client is answered that loads the page and leaves, as words.
pub(crate) fn loading_said<R: Wait>(
    rt: &R,
    alloc: Global,
    hub: &Hub,
    pass: &mut Pass,
) -> Result<String, HubStop>
    requires pass { IsPassOf hub.now pass.old }
    ensures pass { IsPassOf hub.now pass.new }
{
    let table = table(alloc)?;
    let replies = load_and_leave(rt, alloc, hub, pass, &name(alloc)?, table)?;
    Ok(all_said(alloc, &replies)?)
}

/// The report, as words.
pub(crate) fn report_said<R: Wait>(
    rt: &R,
    alloc: Global,
    hub: &Hub,
    pass: &mut Pass,
) -> Result<String, AllocError>
    requires pass { IsPassOf hub.now pass.old }
    ensures pass { IsPassOf hub.now pass.new }
{
    let lines = hub.report(rt, pass)?;
    lines_said(alloc, &lines)
}
