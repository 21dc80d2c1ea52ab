// The core with its transcript: an event is told to the core and recorded, or neither.
ghost use Rattle.std.specs.Prelude.{◌≡◌, ◌+◌, ◌++◌, ◌∷◌, [], IfOk, OnErr, OnOk, false, map, true};
ghost use Rattle.module_semantics.specs.Analysis.{transformed};
ghost use Rattle.module_semantics.specs.ModuleText.{parsing};
ghost use Rattle.core_model.specs.Formed.{IsFormed};
ghost use Rattle.core_model.specs.Roots.{AreRoots};
ghost use Rattle.core_model.specs.Transcript.{IsTrueEvent, events_of, most_bytes, reply_after};
ghost use Rattle.core_model.specs.Transcript.{transcript_bytes};
ghost use Rattle.server_core.specs.Kept.{StandsFor};
ghost use Rattle.events_and_replies.specs.Said.{IsWritten, event_of, said};
ghost use Rattle.hmr_hub.specs.Outcomes.{IsOutcome};
ghost use Rattle.transcripts.specs.Transcripts.{IsTranscript, entry_bytes, is_full, is_outstanding};
ghost use Rattle.transcripts.specs.Transcripts.{may_make, recorded};

use crate::pages::{note_passage, passage_of};
use events_and_replies::{Event, Reply};
use hmr_types::{ModName, Table};
use server_core::Core;
use std::alloc::{AllocError, Global};
use std::marker::Model;
use transcripts::{Transcript, keep};
use update_msgs::HubStop;

/// A core, the transcript of what it was told, and the pages of the clients that have gone, by their
/// numbers from 1 on. Contracts see the server's roots and the transcript.
#[derive(Drop)]
pub(crate) struct RecordedCore {
    pub(crate) alloc: Global,
    pub(crate) core: Core,
    pub(crate) transcript: Transcript,
    pub(crate) pages: Vec<Option<Table>>,
}

impl Model for RecordedCore {
    ghost use Rattle.hmr_hub.specs.Recordings.{Recording};

    ghost Value = { Recording };

    ghost use Rattle.hmr_hub.specs.Inside.{IsSound, recording_of};

    ghost view = { recording_of };

    ghost invariant = { IsSound };
}

impl RecordedCore {
    /// A core that was told nothing yet.
    pub fn new(alloc: Global, core: Core) -> RecordedCore
        requires roots { AreRoots core.roots }
        requires stands { StandsFor [] core }
        ensures roots { result.roots ≡ core.roots }
        ensures entries { result.entries ≡ [] }
        ensures transcript { IsTranscript result.roots result.entries }
    {
        RecordedCore {
            alloc,
            core,
            transcript: Transcript::new(alloc),
            pages: Vec::new(alloc),
        }
    }

    /// Tells the core an event that the pass `by` may make, and records it. Where the transcript has no
    /// place for it, or there is no memory, nothing changes.
    pub fn tell(&mut self, by: u64, event: Event) -> Result<Reply, HubStop>
        requires formed { IsFormed (event_of event) }
        requires true_result { IsTrueEvent (transformed parsing) (event_of event) }
        requires may { may_make by (event_of event) ≡ true }
        ensures roots { self.new.roots ≡ self.old.roots }
        ensures entries { self.new.entries ≡ self.old.entries ++ recorded by (event_of event) result }
        ensures outcome { IsOutcome self.old.roots self.old.entries (event_of event) result }
        ensures transcript { IsTranscript self.new.roots self.new.entries }
    {
        let Some(left) = self.transcript.left_after(&event) else {
            return Err(HubStop::TranscriptFull);
        };
        Ok(self.record(by, event, left)?)
    }

    // The event has a place, after which so many bytes are left. Room is made before the step.
    fn record(&mut self, by: u64, event: Event, left: usize) -> Result<Reply, AllocError>
        requires formed { IsFormed (event_of event) }
        requires true_result { IsTrueEvent (transformed parsing) (event_of event) }
        requires may { may_make by (event_of event) ≡ true }
        requires place { is_full self.old.entries (event_of event) ≡ false }
        requires left { left + (transcript_bytes self.old.entries + entry_bytes (event_of event))
            ≡ most_bytes }
        ensures roots { self.new.roots ≡ self.old.roots }
        ensures told { OnOk result (self.new.entries ≡ self.old.entries ++ (by, event_of event) ∷ []) }
        ensures untold { OnErr result (self.new.entries ≡ self.old.entries) }
        ensures reply { IfOk result
            (λ reply. said (reply_after self.old.roots self.old.entries (event_of event)) ≡ reply) }
        ensures written { IfOk result IsWritten }
        ensures transcript { IsTranscript self.new.roots self.new.entries }
    {
        self.transcript.make_room()?;
        self.pages.reserve(1)?;
        let kept = keep(self.alloc, &event)?;
        let passage = passage_of(self.alloc, &self.core, &event)?;
        let reply = self.core.step(self.alloc, event)?;
        note_passage(&mut self.pages, passage, &reply);
        self.transcript.push(by, kept, left);
        Ok(reply)
    }

    /// Whether the name has a source whose result hasn't come.
    pub fn is_outstanding(&self, name: &ModName) -> bool
        ensures told { result ≡ is_outstanding self.now.roots self.now.entries name.now }
        ensures transcript { IsTranscript self.now.roots self.now.entries }
    {
        self.core.outstanding(name)
    }

    /// The events of the transcript, oldest first; each text of a result is transformed anew. It takes time
    /// and memory in proportion to the names and texts of all entries.
    pub fn events(&self) -> Result<Vec<Event>, AllocError>
        ensures told { IfOk result (λ events. map event_of events.items ≡ events_of self.now.entries) }
        ensures transcript { IsTranscript self.now.roots self.now.entries }
    {
        self.transcript.events(self.alloc)
    }
}
