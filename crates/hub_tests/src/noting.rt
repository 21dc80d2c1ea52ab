// An event is told, and its reply is noted behind those before.
ghost use Rattle.std.specs.Prelude.{◌≡◌, true};
ghost use Rattle.events_and_replies.specs.Said.{event_of};
ghost use Rattle.hmr_hub.specs.Passes.{IsPassOf, number_of};
ghost use Rattle.transcripts.specs.Transcripts.{HasVersion, may_make};

use events_and_replies::{Event, Reply};
use hmr_hub::{Hub, HubStop, Pass};
use std::sync::Wait;

/// Tells the hub an event, and adds its reply. Room for it is made before.
pub fn note<R: Wait>(
    rt: &R,
    hub: &Hub,
    pass: &mut Pass,
    replies: &mut Vec<Reply>,
    event: Event,
) -> Result<(), HubStop>
    requires pass { IsPassOf hub.now pass.old }
    requires may { may_make (number_of pass.old) (event_of event) ≡ true }
    requires version { HasVersion (event_of event) }
    ensures pass { IsPassOf hub.now pass.new }
    ensures number { number_of pass.new ≡ number_of pass.old }
{
    replies.reserve(1)?;
    replies.push_reserved(hub.call(rt, pass, event)?);
    Ok(())
}
