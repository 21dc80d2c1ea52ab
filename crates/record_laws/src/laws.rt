// Laws of records, over their bytes.
ghost use Rattle.std.specs.Prelude.{◌≡◌, ◌↔◌, ◌≤◌, ℕ, All, List, [], ◌∷◌, ◌++◌, Some};
ghost use Rattle.std.specs.Prelude.{length};
ghost use Rattle.module_semantics.specs.Analysis.{transformed};
ghost use Rattle.module_semantics.specs.ModuleText.{parsing};
ghost use Rattle.core_model.specs.Client.{Client};
ghost use Rattle.core_model.specs.Core.{Event, client_at, core_after, step};
ghost use Rattle.core_model.specs.Names.{Name};
ghost use Rattle.core_model.specs.Roots.{AreRoots};
ghost use Rattle.core_model.specs.Transcript.{IsTrueEvent, most_bytes, most_entries};
ghost use Rattle.record_text.specs.Fit.{HasText};
ghost use Rattle.record_text.specs.Texts.{record_text};
ghost use Rattle.record_text.specs.declared.record.Record.{Record};
ghost use Rattle.record_text.specs.declared.record.RecordEvent.{RecordEvent};
ghost use Rattle.record_text.specs.declared.record.RecordEvent.TheVariants as events;
ghost use Rattle.record_text.specs.declared.record.RecordLine.{RecordLine};
ghost use Rattle.record_text.specs.declared.record.RecordLine.TheVariants as lines;
ghost use Rattle.record_laws.specs.Answers.{answer_text};
ghost use Rattle.record_laws.specs.Bounds.{past_bytes};
ghost use Rattle.record_laws.specs.Course.{verdict_of};
ghost use Rattle.record_laws.specs.Events.{event_in};
ghost use Rattle.record_laws.specs.Sound.{IsSound, IsSoundText, past_in, rests_behind};
ghost use Rattle.core_laws.specs.Ranges.{IsWritableReply};
ghost use Rattle.event_facts.specs.Tellable.{IsTellable};
ghost use Rattle.record_laws.specs.Told.{HasFreshTable, IsAskTold};
ghost use Rattle.record_laws.specs.Written.{lines_told, record_told};
ghost use Rattle.record_laws.specs.declared.verdict.Verdict.TheVariants.{Yes};

/// The check says yes exactly of the texts of sound records, with the number of their events and of the
/// clients that they say to be at rest.
pub fn yes_is_of_sound_records()
    ensures { (text : List ℕ) (steps rests : ℕ) →
        (verdict_of text ≡ Yes steps rests) ↔ IsSoundText text steps rests }
{}

/// What a sound record says, with the core that the events before a line make of its roots. Each reply is the
/// text of the core's. A client that is said to be at rest is connected, and the table is just what its page
/// would load anew from its own roots, of which nothing is missing. An Ask of a connected client is answered
/// by a full reload exactly where no plan is under way, no notice waits, the page is loaded, nothing is
/// dropped, the client isn't held, and an unaccepted path ends badly.
pub fn sound_records_are_true()
    ensures replies { (r : Record) → IsSound r → (before after : List RecordLine) (event : RecordEvent)
        (reply : List ℕ) → r.lines ≡ before ++ lines.Entry event reply ∷ after →
        reply ≡ answer_text r.roots (past_in before) (event_in event) }
    ensures rests { (r : Record) → IsSound r → (before after : List RecordLine) (client : ℕ)
        (table : List (Name × ℕ)) → r.lines ≡ before ++ lines.Rest client table ∷ after →
        HasFreshTable (core_after r.roots (past_in before)) client table }
    ensures asks { (r : Record) → IsSound r → (before after : List RecordLine) (i : ℕ) (reply : List ℕ)
        (client : Client) → r.lines ≡ before ++ lines.Entry (events.Ask i) reply ∷ after →
        client_at (core_after r.roots (past_in before)).clients i ≡ Some client →
        IsAskTold r.roots (core_after r.roots (past_in before)) i client reply }
{}

/// The record of events whose results are true, where the roots are those of a core and the events have their
/// places in a transcript, is sound. Where its lines have the forms of a record's, the check says yes of its
/// text, with as many steps as there are events.
pub fn records_of_events_are_sound()
    ensures sound { (roots : List Name) (events : List Event) → AreRoots roots →
        length events ≤ most_entries → past_bytes events ≤ most_bytes →
        All (IsTrueEvent (transformed parsing)) events → IsSound (record_told roots events) }
    ensures yes { (roots : List Name) (events : List Event) → AreRoots roots →
        length events ≤ most_entries → past_bytes events ≤ most_bytes →
        All (IsTrueEvent (transformed parsing)) events → HasText (record_told roots events) →
        verdict_of (record_text (record_told roots events)) ≡
        Yes (length events) (rests_behind 0 (lines_told roots [] events)) }
{}

/// Events that a record can tell may have versions that no edit has. Behind such events, the reply to one more
/// can still be written where it is a message.
pub fn replies_can_be_written()
    ensures { (roots : List Name) (past : List Event) (event : Event) → All IsTellable past →
        IsTellable event → IsWritableReply (step roots (core_after roots past) event).1 }
{}
