// The transcript: entries with the numbers of their passes, and how many bytes further ones may have.
ghost use Rattle.std.specs.Prelude.{◌≡◌, ◌+◌, ◌≤◌, ◌<◌, ◌++◌, ◌∷◌, [], IfOk, IfSome, OnOk, false};
ghost use Rattle.std.specs.Prelude.{is_none, length, map};
ghost use Rattle.core_model.specs.Transcript.{events_of, most_bytes, most_entries, transcript_bytes};
ghost use Rattle.events_and_replies.specs.Said.{event_of};
ghost use Rattle.transcripts.specs.KeptEvents.{kept_as};
ghost use Rattle.transcripts.specs.Transcripts.{entry_bytes, is_full};

use crate::events::events_in;
use crate::kept_event::{Entry, KeptEvent};
use event_facts::{MOST_BYTES, after_entry, left_after};
use events_and_replies::Event;
use std::alloc::{AllocError, Global};
use std::marker::Model;

/// A transcript within its bounds. Contracts see its entries, and for how many more there is room.
#[derive(Drop)]
pub struct Transcript {
    entries: Vec<Entry>,
    left: usize,
}

impl Model for Transcript {
    ghost use Rattle.transcripts.specs.Kept.{Kept};

    ghost Value = { Kept };

    ghost use Rattle.transcripts.specs.Bounds.{IsBounded, kept_of};

    ghost view = { kept_of };

    ghost invariant = { IsBounded };
}

impl Transcript {
    /// The empty transcript.
    pub fn new(alloc: Global) -> Transcript
        ensures { result.entries ≡ [] }
    {
        Transcript {
            entries: Vec::new(alloc),
            left: MOST_BYTES,
        }
    }

    /// How many entries there are.
    pub fn len(&self) -> usize
        ensures { result ≡ length self.now.entries }
    {
        self.entries.len()
    }

    /// The events of the entries, oldest first; each text of a result is transformed anew.
    pub fn events(&self, alloc: Global) -> Result<Vec<Event>, AllocError>
        ensures { IfOk result (λ events. map event_of events.items ≡ events_of self.now.entries) }
    {
        events_in(alloc, &self.entries)
    }

    /// How many bytes are left after this event; None exactly where it has no place.
    pub fn left_after(&self, event: &Event) -> Option<usize>
        ensures some { IfSome result
            (λ left. left + (transcript_bytes self.now.entries + entry_bytes (event_of event.now))
            ≡ most_bytes) }
        ensures none { is_none result ≡ is_full self.now.entries (event_of event.now) }
    {
        left_after(after_entry(self.entries.len() as u64, self.left)?, event)
    }

    /// Makes room for an entry. It changes nothing else.
    pub fn make_room(&mut self) -> Result<(), AllocError>
        ensures entries { self.new.entries ≡ self.old.entries }
        ensures room { OnOk result (1 ≤ self.new.spare) }
    {
        self.entries.reserve(1)
    }

    /// Adds an entry, for which there is room; so many bytes are left after it.
    pub fn push(&mut self, by: u64, event: KeptEvent, left: usize)
        requires room { 1 ≤ self.old.spare }
        requires few { length self.old.entries < most_entries }
        requires left { left + (transcript_bytes self.old.entries + entry_bytes (kept_as event))
            ≡ most_bytes }
        ensures { self.new.entries ≡ self.old.entries ++ (by, kept_as event) ∷ [] }
    {
        self.entries.push_reserved(Entry { by, event });
        self.left = left;
    }
}
