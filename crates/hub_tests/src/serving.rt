// A module is edited, and the result for its text comes.
ghost use Rattle.std.specs.Prelude.{◌≡◌, ◌+◌, ◌<◌, ◌^◌, length};
ghost use Rattle.core_model.specs.Formed.{IsVersion};
ghost use Rattle.hmr_hub.specs.Passes.{IsPassOf, number_of};

use events_and_replies::{Event, Reply};
use hmr_hub::{Hub, HubStop, Pass};
use hmr_types::{ModName, Ver};
use import_scan::transform;
use std::alloc::Global;
use std::sync::Wait;

/// What is answered where the module of this name gets this text.
pub fn edit<R: Wait>(
    rt: &R,
    alloc: Global,
    hub: &Hub,
    pass: &mut Pass,
    name: ModName,
    text: &[u8],
) -> Result<Reply, HubStop>
    requires pass { IsPassOf hub.now pass.old }
    requires first { number_of pass.old ≡ 0 }
    ensures pass { IsPassOf hub.now pass.new }
    ensures first { number_of pass.new ≡ 0 }
{
    let text = Some(Vec::from_slice(alloc, text)?);
    hub.call(rt, pass, Event::Edit(name, text))
}

/// What is answered where the result for this text comes at this version.
pub fn settle<R: Wait>(
    rt: &R,
    alloc: Global,
    hub: &Hub,
    pass: &mut Pass,
    name: ModName,
    text: &[u8],
    version: Ver,
) -> Result<Reply, HubStop>
    requires pass { IsPassOf hub.now pass.old }
    requires short { length text.now + 1 < 2 ^ 32 }
    requires version { IsVersion version }
    ensures pass { IsPassOf hub.now pass.new }
    ensures number { number_of pass.new ≡ number_of pass.old }
{
    let done = transform(alloc, name, Vec::from_slice(alloc, text)?)?;
    hub.call(rt, pass, Event::Settle(done, version))
}
