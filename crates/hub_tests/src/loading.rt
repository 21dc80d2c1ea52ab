// A client loads a page, is refused twice, and goes.
ghost use Rattle.hmr_hub.specs.Passes.{IsPassOf};

use crate::noting::note;
use events_and_replies::{Event, Reply};
use hmr_hub::{Hub, HubStop, Pass};
use hmr_types::{ModName, Table};
use std::alloc::Global;
use std::sync::Wait;

/// What is answered where client 1 comes, fetches the module at this path, has this table then, asks,
/// invalidates the module, gives up, and goes; and client 2 comes.
pub fn load_and_leave<R: Wait>(
    rt: &R,
    alloc: Global,
    hub: &Hub,
    pass: &mut Pass,
    path: &ModName,
    table: Table,
) -> Result<Vec<Reply>, HubStop>
    requires { IsPassOf hub.now pass.old }
    ensures { IsPassOf hub.now pass.new }
{
    let mut replies = Vec::new(alloc);
    note(rt, hub, pass, &mut replies, Event::Connect(Vec::new(alloc)))?;
    note(rt, hub, pass, &mut replies, Event::Fetch(1, path.clone()?))?;
    note(rt, hub, pass, &mut replies, Event::Applied(1, table))?;
    note(rt, hub, pass, &mut replies, Event::Ask(1))?;
    note(
        rt,
        hub,
        pass,
        &mut replies,
        Event::Invalidate(1, path.clone()?, 1),
    )?;
    note(rt, hub, pass, &mut replies, Event::Aborted(1))?;
    note(rt, hub, pass, &mut replies, Event::Disconnect(1))?;
    note(rt, hub, pass, &mut replies, Event::Connect(Vec::new(alloc)))?;
    Ok(replies)
}
