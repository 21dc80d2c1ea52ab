// The log of the events that the core is told in the steps of a world.
ghost use Rattle.std.specs.Prelude.{◌≡◌, ◌≤◌, ◌<◌, ◌-◌, ◌++◌, ◌∷◌, [], List, OnOk, true};
ghost use Rattle.std.specs.Option.{SomeIff};
ghost use Rattle.core_model.specs.Core as model;
ghost use Rattle.core_model.specs.Transcript.{most_entries};
ghost use Rattle.events_and_replies.specs.Said.{event_of};
ghost use Rattle.record_laws.specs.Bounds.{entry_bytes};
ghost use Rattle.event_runs.specs.Logs.{IsLogOf, is_on};

use event_facts::{MOST_BYTES, after_entry, left_after};
use events_and_replies::Event;
use std::alloc::{AllocError, Global};

/// The events that the core is told in the steps of a world, as far as they have places in a transcript.
#[derive(Drop)]
pub enum EventLog {
    /// They aren't logged.
    Off,
    /// The events so far, the oldest first, and how many bytes of a transcript are left for further ones.
    Kept(Vec<Event>, usize),
    /// There are more than have places in a transcript. None is kept, and none is logged any more.
    Full,
}

impl EventLog {
    /// The log before any event, in which events are logged. It takes constant time.
    pub fn new(alloc: Global) -> EventLog
        ensures on { is_on result ≡ true }
        ensures none { IsLogOf [] result }
    {
        EventLog::Kept(Vec::new(alloc), MOST_BYTES)
    }

    /// Whether events are logged. It takes constant time.
    pub fn is_on(&self) -> bool
        ensures { result ≡ is_on self.now }
    {
        !matches!(self, EventLog::Off)
    }

    /// Logs an event behind the others, where events are logged. One that has no place in a transcript makes
    /// the log full. [`AllocError`] comes where memory runs out; then no clause says which events are logged.
    /// It takes amortized constant time, and to let all events go where the log becomes full.
    pub fn push(&mut self, event: Event) -> Result<(), AllocError>
        ensures on { is_on self.new ≡ is_on self.old }
        ensures log { (told : List model.Event) → IsLogOf told self.old
            → OnOk result (IsLogOf (told ++ event_of event ∷ []) self.new) }
    {
        match self {
            EventLog::Kept(events, left) => match left_behind(events.len(), *left, &event) {
                Some(rest) => {
                    events.push(event)?;
                    *left = rest;
                }
                None => *self = EventLog::Full,
            },
            EventLog::Off | EventLog::Full => (),
        }
        Ok(())
    }
}

// What is left of so many bytes behind one event more, where there are so many events; None where it has no
// place.
fn left_behind(events: usize, left: usize, event: &Event) -> Option<usize>
    ensures { SomeIff result ((events < most_entries) × (entry_bytes (event_of event.now) ≤ left))
        (left - entry_bytes (event_of event.now)) }
{
    left_after(after_entry(events as u64, left)?, event)
}
