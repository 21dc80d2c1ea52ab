// The event of a core that a record tells.
ghost use Rattle.std.specs.Prelude.{◌≡◌, ◌≤◌, IfOk};
ghost use Rattle.core_model.specs.Transcript.{event_bytes, most_bytes};
ghost use Rattle.events_and_replies.specs.Said.{event_of};
ghost use Rattle.record_laws.specs.Events.{event_in};

use events_and_replies::Event;
use import_scan::transform;
use record_text::RecordEvent;
use std::alloc::{AllocError, Global};

/// The event of a core that a record tells. It takes memory only for the text of a result, which is
/// transformed.
pub(crate) fn core_event(alloc: Global, event: RecordEvent) -> Result<Event, AllocError>
    requires { event_bytes (event_in event) ≤ most_bytes }
    ensures { IfOk result (λ told. event_of told ≡ event_in event) }
{
    match event {
        RecordEvent::Edit(name, text) => Ok(Event::Edit(name, Some(text.into_vec()))),
        RecordEvent::Remove(name) => Ok(Event::Edit(name, None)),
        RecordEvent::Settle(name, text, version) => {
            let done = transform(alloc, name, text.into_vec())?;
            Ok(Event::Settle(done, version))
        }
        RecordEvent::Connect(names) => Ok(Event::Connect(names.into_vec())),
        RecordEvent::Ask(client) => Ok(Event::Ask(client)),
        RecordEvent::Fetch(client, name) => Ok(Event::Fetch(client, name)),
        RecordEvent::Applied(client, table) => Ok(Event::Applied(client, table)),
        RecordEvent::Aborted(client) => Ok(Event::Aborted(client)),
        RecordEvent::Invalidate(client, name, version) => {
            Ok(Event::Invalidate(client, name, version))
        }
        RecordEvent::Disconnect(client) => Ok(Event::Disconnect(client)),
    }
}
