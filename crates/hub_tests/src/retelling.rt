// A core is told what a hub was told.
ghost use Rattle.hmr_hub.specs.Passes.{IsPassOf};

use crate::words::all_said;
use events_and_replies::{Event, Reply};
use hmr_hub::{Hub, Pass};
use hmr_types::ModName;
use server_core::Core;
use std::alloc::{AllocError, Global};
use std::sync::Wait;

/// What a core of these roots answers to the hub's events, as words.
pub(crate) fn retold_said<R: Wait>(
    rt: &R,
    alloc: Global,
    hub: &Hub,
    pass: &mut Pass,
    roots: Vec<ModName>,
) -> Result<String, AllocError>
    requires pass { IsPassOf hub.now pass.old }
    ensures pass { IsPassOf hub.now pass.new }
{
    let events = hub.events(rt, pass)?;
    all_said(alloc, &replies_to(alloc, roots, events)?)
}

fn replies_to(
    alloc: Global,
    roots: Vec<ModName>,
    events: Vec<Event>,
) -> Result<Vec<Reply>, AllocError> {
    let mut core = Core::new(alloc, roots).map_err(|_| AllocError)?;
    let mut replies = Vec::new(alloc);
    for event in events {
        replies.push(core.step(alloc, event)?)?;
    }
    Ok(replies)
}
