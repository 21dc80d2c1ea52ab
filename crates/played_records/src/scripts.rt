// The check says yes of the record of a script.
ghost use Rattle.std.specs.Prelude.{◌≡◌, ◌≢◌, ◌≤◌, ℕ, List, [], Ok, length};
ghost use Rattle.core_model.specs.Sources.{Text};
ghost use Rattle.play_script.specs.Script.{Contents, script_of};
ghost use Rattle.record_laws.specs.Course.{verdict_of};
ghost use Rattle.record_laws.specs.Sound.{rests_behind};
ghost use Rattle.record_laws.specs.Written.{lines_told};
ghost use Rattle.record_laws.specs.declared.verdict.Verdict.TheVariants.{Yes};
ghost use Rattle.text_commands.specs.Auditing.{record_bytes};
ghost use Rattle.text_commands.specs.Outputs.{output_of_audit, whole};
ghost use Rattle.script_runs.specs.Outputs.{output_of_record};
ghost use Rattle.script_runs.specs.Playing.{script_played, stage_on};
ghost use Rattle.script_runs.specs.Recording.{events_of};
ghost use Rattle.played_records.specs.Confirmed.{SaysYes};

use run_promises::each_step_tells_its_event;

/// Of what `record` writes of a script with a root, where its status is 0, the check says yes, with as many
/// steps as the core was told events in the run of the script (`yes`). So `audit` writes the line of a yes of
/// whatever `record` writes with status 0, unless that is nothing, as of a script without a root, or more than
/// `audit` reads (`audit`). Nothing else is supposed: that the events have names, that each client has the
/// number of one and each version 64 bits, and that each result is true, all follow from what the run of a
/// script is.
pub fn records_of_scripts_are_confirmed()
    ensures yes { (shelves : List (List (Text × ℕ))) (bytes : List ℕ) (script : Contents) →
        script_of bytes ≡ Ok script → 1 ≤ length script.roots →
        (output_of_record shelves bytes).status ≡ 0 →
        let events = events_of (stage_on shelves script.roots) (script_played shelves script) in
        verdict_of (whole (output_of_record shelves bytes)) ≡
        Yes (length events) (rests_behind 0 (lines_told script.roots [] events)) }
    ensures audit { (shelves : List (List (Text × ℕ))) (bytes : List ℕ) →
        let text = whole (output_of_record shelves bytes) in
        (output_of_record shelves bytes).status ≡ 0 → text ≢ [] → length text ≤ record_bytes →
        SaysYes (output_of_audit text) }
{
    each_step_tells_its_event();
}
