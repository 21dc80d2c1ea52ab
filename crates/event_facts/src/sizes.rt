// How much of the room of a transcript is left behind an event: an entry counts 64 bytes, and those of the
// names and texts in its event.
ghost use Rattle.std.specs.Prelude.{◌≤◌, ◌<◌, ◌+◌, ◌-◌, length, sum_by};
ghost use Rattle.std.specs.Option.{SomeIff};
ghost use Rattle.core_model.specs.Transcript.{event_bytes, most_entries};
ghost use Rattle.events_and_replies.specs.Said.{event_of};

use events_and_replies::Event;
use hmr_types::{ModName, Ver};

/// The most bytes of a transcript: 256 MiB.
pub const MOST_BYTES: usize = 268_435_456;

/// The most entries of a transcript.
const MOST_ENTRIES: u64 = 1_000_000;

/// What an entry counts beside the names and texts of its event.
const ENTRY_BYTES: usize = 64;

/// What is left of so many bytes behind what one entry more counts beside its names and texts, where there are
/// so many entries. None exactly where a transcript has no more entries, or where too little is left.
pub fn after_entry(entries: u64, left: usize) -> Option<usize>
    ensures { SomeIff result ((entries < most_entries) × (64 ≤ left)) (left - 64) }
{
    if entries >= MOST_ENTRIES {
        return None;
    }
    left.checked_sub(ENTRY_BYTES)
}

/// What is left of so many bytes behind those of the names and texts of an event. None exactly where they are
/// more. It takes time in the number of its names.
pub fn left_after(left: usize, event: &Event) -> Option<usize>
    ensures { SomeIff result (event_bytes (event_of event.now) ≤ left)
        (left - event_bytes (event_of event.now)) }
{
    match event {
        Event::Edit(name, Some(text)) => after_text(left, name, text),
        Event::Edit(name, None) => after_name(left, name),
        Event::Settle(done, _) => after_text(left, done.name(), done.text()),
        Event::Connect(names) => after_names(left, names),
        Event::Fetch(_, name) | Event::Invalidate(_, name, _) => after_name(left, name),
        Event::Applied(_, table) => after_rows(left, table.as_slice()),
        Event::Ask(_) | Event::Aborted(_) | Event::Disconnect(_) => Some(left),
    }
}

/// What is left of so many bytes behind those of a name. None exactly where they are more.
pub fn after_name(left: usize, name: &ModName) -> Option<usize>
    ensures { SomeIff result (length name.now ≤ left) (left - length name.now) }
{
    left.checked_sub(name.as_str().len())
}

/// What is left of so many bytes behind those of a name and a text. None exactly where they are more.
pub fn after_text(left: usize, name: &ModName, text: &[u8]) -> Option<usize>
    ensures { SomeIff result (length name.now + length text.now ≤ left)
        (left - (length name.now + length text.now)) }
{
    after_name(left, name)?.checked_sub(text.len())
}

/// What is left of so many bytes behind those of these names. None exactly where they are more. It takes time
/// in the number of the names.
pub fn after_names(left: usize, names: &[ModName]) -> Option<usize>
    ensures { SomeIff result (sum_by length names.now ≤ left) (left - sum_by length names.now) }
{
    let mut rest = left;
    for name in names.iter() {
        rest = after_name(rest, name)?;
    }
    Some(rest)
}

/// What is left of so many bytes behind those of the names in these rows. None exactly where they are more. It
/// takes time in the number of the rows.
pub fn after_rows(left: usize, rows: &[(ModName, Ver)]) -> Option<usize>
    ensures { SomeIff result (sum_by (λ row. length row.0) rows.now ≤ left)
        (left - sum_by (λ row. length row.0) rows.now) }
{
    let mut rest = left;
    for row in rows.iter() {
        rest = after_name(rest, &row.0)?;
    }
    Some(rest)
}
