// The bytes that an event takes of those that a transcript may still have, as far as a record tells the event.
ghost use Rattle.std.specs.Prelude.{◌≤◌, ◌<◌, ◌-◌};
ghost use Rattle.std.specs.Option.{SomeIff};
ghost use Rattle.core_model.specs.Transcript.{event_bytes, most_entries};
ghost use Rattle.record_laws.specs.Bounds.{entry_bytes};
ghost use Rattle.record_laws.specs.Events.{event_in};

use event_facts::{after_entry, after_name, after_names, after_rows, after_text};
use record_text::RecordEvent;

/// What is left of so many bytes behind one event more, where so many events were told; None where it has no
/// place.
pub(crate) fn left_behind(steps: u64, left: usize, event: &RecordEvent) -> Option<usize>
    ensures { SomeIff result ((steps < most_entries) × (entry_bytes (event_in event.now) ≤ left))
        (left - entry_bytes (event_in event.now)) }
{
    left_after(after_entry(steps, left)?, event)
}

fn left_after(left: usize, event: &RecordEvent) -> Option<usize>
    ensures { SomeIff result (event_bytes (event_in event.now) ≤ left)
        (left - event_bytes (event_in event.now)) }
{
    match event {
        RecordEvent::Edit(name, text) | RecordEvent::Settle(name, text, _) => {
            after_text(left, name, text.as_slice())
        }
        RecordEvent::Remove(name)
        | RecordEvent::Fetch(_, name)
        | RecordEvent::Invalidate(_, name, _) => after_name(left, name),
        RecordEvent::Connect(names) => after_names(left, names.as_slice()),
        RecordEvent::Applied(_, table) => after_rows(left, table.as_slice()),
        RecordEvent::Ask(_) | RecordEvent::Aborted(_) | RecordEvent::Disconnect(_) => Some(left),
    }
}
