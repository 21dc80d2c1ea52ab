// The check says yes of the record of events.
ghost use Rattle.std.specs.Prelude.{◌≡◌, ◌≤◌, [], List, length, map};
ghost use Rattle.module_semantics.specs.Analysis.{transformed};
ghost use Rattle.module_semantics.specs.ModuleText.{parsing};
ghost use Rattle.core_model.specs.Roots.{AreRoots};
ghost use Rattle.core_model.specs.Transcript.{IsLegal, Recorded, events_of, most_bytes, most_entries};
ghost use Rattle.events_and_replies.specs.Said.{event_of};
ghost use Rattle.record_text.specs.Texts.{record_text};
ghost use Rattle.record_laws.specs.Bounds.{past_bytes};
ghost use Rattle.record_laws.specs.Course.{verdict_of};
ghost use Rattle.record_laws.specs.Sound.{rests_behind};
ghost use Rattle.record_laws.specs.Written.{lines_told, record_told};
ghost use Rattle.record_laws.specs.declared.verdict.Verdict.TheVariants.{Yes};

use crate::noting::note_events;
use event_facts::note_names;
use events_and_replies::Event;
use hmr_types::ModName;

/// Of the record of these events, which a core of these roots is told, the check says yes, with as many steps
/// as there are events, where the roots are those of a core and the events have places in a transcript: that
/// is all that a record is written of (`events`). So it is of the record of a transcript that a core of these
/// roots can have, where these are its events (`transcript`). It takes time in the number of the names in
/// them.
pub fn records_are_confirmed(roots: &[ModName], events: &[Event])
    ensures events { let told = map event_of events.now in
        AreRoots roots.now → length events.now ≤ most_entries → past_bytes told ≤ most_bytes →
        verdict_of (record_text (record_told roots.now told)) ≡
        Yes (length events.now) (rests_behind 0 (lines_told roots.now [] told)) }
    ensures transcript { (entries : List Recorded) → IsLegal (transformed parsing) roots.now entries →
        map event_of events.now ≡ events_of entries →
        verdict_of (record_text (record_told roots.now (events_of entries))) ≡
        Yes (length entries) (rests_behind 0 (lines_told roots.now [] (events_of entries))) }
{
    note_names(roots);
    note_events(events);
}
