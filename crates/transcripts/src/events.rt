// The events of kept entries, told again: the text of a result is transformed anew, and a table is unpacked.
ghost use Rattle.std.specs.Prelude.{◌≡◌, ◌≤◌, IfOk, map};
ghost use Rattle.core_model.specs.Transcript.{event_bytes, events_of, most_bytes, transcript_bytes};
ghost use Rattle.events_and_replies.specs.Said.{event_of};
ghost use Rattle.transcripts.specs.KeptEvents.{entry_of, kept_as};

use crate::kept_event::{Entry, KeptEvent};
use events_and_replies::{Event, copy_text};
use import_scan::transform;
use module_graph::copy_of;
use std::alloc::{AllocError, Global};

/// The events of these entries, in their order. It takes time and memory in proportion to their names and
/// texts.
pub(crate) fn events_in(alloc: Global, entries: &[Entry]) -> Result<Vec<Event>, AllocError>
    requires { transcript_bytes (map entry_of entries.now) ≤ most_bytes }
    ensures { IfOk result (λ events. map event_of events.items ≡ events_of (map entry_of entries.now)) }
{
    let mut events = Vec::new(alloc);
    for entry in entries.iter() {
        events.push(event_in(alloc, &entry.event)?)?;
    }
    Ok(events)
}

// The event that is kept so.
fn event_in(alloc: Global, kept: &KeptEvent) -> Result<Event, AllocError>
    requires { event_bytes (kept_as kept.now) ≤ most_bytes }
    ensures { IfOk result (λ event. event_of event ≡ kept_as kept.now) }
{
    match kept {
        KeptEvent::Edit(name, text) => Ok(Event::Edit(name.clone()?, copy_text(alloc, text)?)),
        KeptEvent::Settle(name, text, version) => {
            let done = transform(alloc, name.clone()?, Vec::from_slice(alloc, text)?)?;
            Ok(Event::Settle(done, *version))
        }
        KeptEvent::Connect(names) => Ok(Event::Connect(copy_of(alloc, names)?)),
        KeptEvent::Ask(client) => Ok(Event::Ask(*client)),
        KeptEvent::Fetch(client, name) => Ok(Event::Fetch(*client, name.clone()?)),
        KeptEvent::Applied(client, packed) => Ok(Event::Applied(*client, packed.unpack(alloc)?)),
        KeptEvent::Aborted(client) => Ok(Event::Aborted(*client)),
        KeptEvent::Invalidate(client, name, version) => {
            Ok(Event::Invalidate(*client, name.clone()?, *version))
        }
        KeptEvent::Disconnect(client) => Ok(Event::Disconnect(*client)),
    }
}
