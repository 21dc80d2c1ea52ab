// The check says yes of the record of a core.
ghost use Rattle.std.specs.Prelude.{◌≡◌, ◌≤◌, List, [], All, length};
ghost use Rattle.module_semantics.specs.Analysis.{transformed};
ghost use Rattle.module_semantics.specs.ModuleText.{parsing};
ghost use Rattle.core_model.specs.Core.{Event};
ghost use Rattle.core_model.specs.Formed.{IsName};
ghost use Rattle.core_model.specs.Names.{Name};
ghost use Rattle.core_model.specs.Roots.{AreRoots};
ghost use Rattle.core_model.specs.Transcript.{IsLegal, IsTrueEvent, Recorded, events_of, most_bytes};
ghost use Rattle.core_model.specs.Transcript.{most_entries};
ghost use Rattle.record_text.specs.Fit.{HasText};
ghost use Rattle.record_text.specs.Texts.{record_text};
ghost use Rattle.record_laws.specs.Bounds.{past_bytes};
ghost use Rattle.record_laws.specs.Course.{verdict_of};
ghost use Rattle.record_laws.specs.Sound.{rests_behind};
ghost use Rattle.record_laws.specs.Written.{lines_told, record_told};
ghost use Rattle.record_laws.specs.declared.verdict.Verdict.TheVariants.{Yes};
ghost use Rattle.record_agreement.specs.Recordable.{HasClient, IsRecordable};

/// Of the record of the events that a core was told, the check says yes, with as many steps as there are
/// events. The roots are those of a core, and names of modules. The events have their places in a transcript:
/// they are at most 1,000,000, and have at most 256 MiB. Each is one that a line can have: its names are
/// names, its table is a table, its client has the number of one, and its version has at most 64 bits. Each
/// result is what transforming its text gives. Of replies nothing is supposed: each has its form and stands
/// on one line, and so does the table of each client at rest (`text`). So it is of every transcript that a
/// core can have, where its clients have the numbers of clients (`transcripts`).
pub fn records_are_confirmed()
    ensures text { (roots : List Name) (events : List Event) → AreRoots roots → All IsName roots →
        past_bytes events ≤ most_bytes → All (IsTrueEvent (transformed parsing)) events →
        All IsRecordable events → HasText (record_told roots events) }
    ensures yes { (roots : List Name) (events : List Event) → AreRoots roots → All IsName roots →
        length events ≤ most_entries → past_bytes events ≤ most_bytes →
        All (IsTrueEvent (transformed parsing)) events → All IsRecordable events →
        verdict_of (record_text (record_told roots events)) ≡
        Yes (length events) (rests_behind 0 (lines_told roots [] events)) }
    ensures transcripts { (roots : List Name) (entries : List Recorded) →
        IsLegal (transformed parsing) roots entries → All IsName roots →
        All HasClient (events_of entries) →
        verdict_of (record_text (record_told roots (events_of entries))) ≡
        Yes (length entries) (rests_behind 0 (lines_told roots [] (events_of entries))) }
{}
