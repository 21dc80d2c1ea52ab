// Scripts in which sources change while a client fetches, or can't be had, and their lines, computed by
// the checker in a small language.
ghost use Rattle.std.specs.Prelude.{◌≡◌, [], ◌∷◌, codes, pos};
ghost use Rattle.hmr_types.specs.declared.words.PlanKind.TheVariants.{Load, Reload, Update};
ghost use Rattle.hmr_types.specs.declared.words.ReloadCause.TheVariants.{Root, Declined};
ghost use Rattle.output_lines.specs.declared.words.EditWord.TheVariants.{Job};
ghost use Rattle.output_lines.specs.declared.words.SettleWord.TheVariants.{Served};
ghost use Rattle.output_lines.specs.declared.words.ClientState.TheVariants.{Up, Behind};
ghost use Rattle.output_lines.specs.declared.words.InstanceStatus.TheVariants.{Done};
ghost use Rattle.output_lines.specs.declared.words.InstanceFate.TheVariants as fate;
ghost use Rattle.hmr_types.specs.declared.words.HandlerKind.TheVariants as kind;
ghost use Rattle.output_lines.specs.declared.words.Handled.TheVariants.{Code};
ghost use Rattle.output_lines.specs.declared.words.HandlerEnd.TheVariants.{Held, Spent, Dropped};
ghost use Rattle.hmr_types.specs.declared.value.Value.TheVariants.{Num};
ghost use Rattle.hmr_types.specs.declared.value.Slot.TheVariants.{Val};
ghost use Rattle.output_lines.specs.declared.out_line.OutLine.TheVariants as line;
ghost use Rattle.output_lines.specs.declared.words.EditWord.TheVariants as edit;
ghost use Rattle.output_lines.specs.declared.words.SettleWord.TheVariants as settle;
ghost use Rattle.output_lines.specs.declared.words.AbortWord.TheVariants as abort;
ghost use Rattle.hmr_types.specs.declared.analysis.FaultWord.TheVariants.{Unexpected};
ghost use Rattle.world_model.specs.Playing.{play, quiet_play};
ghost use Rattle.world_model.specs.SmallPages.{m, a, x};
ghost use Rattle.world_model.specs.FetchScripts.{late, late_script, faulty_script, moving, moving_script};
ghost use Rattle.world_model.specs.FetchScripts.{mixed, mixed_script, needing, needing_script, after_fetch};
ghost use Rattle.world_model.specs.FetchScripts.{after_fetch_script};

/// A late result is never served over a newer one, and an equal text counts for nothing.
pub fn late_result_is_not_served()
    ensures { play late late_script ≡
        line.Edit m (edit.Job 1) ∷
        line.Edit m (edit.Job 2) ∷
        line.Settle m 2 settle.Served ∷
        line.Settle m 1 settle.Late ∷
        line.Settle m 2 settle.NotIssued ∷
        line.Edit m edit.Same ∷
        line.Fresh ∷
        line.Module m 2 ∷ [] }
{}

/// A text that can't be read leaves the last good one served, and the client is told.
pub fn faulty_text_is_told()
    ensures { quiet_play late faulty_script ≡
        line.Applied 1 Load ∷
        line.Settle m 2 (settle.Refused (record { line = 1; col = 1; word = Unexpected })) ∷
        line.Error 1 m 1 1 Unexpected ∷
        line.Client 1 Up ∷
        line.Module m 1 ∷
        line.Reload 1 Root (m ∷ []) ∷
        line.Applied 1 Reload ∷
        line.Client 1 Up ∷
        line.Module m 3 ∷ [] }
{}

/// A fetch gives what is served at that moment, and what the page then has decides on the next change.
pub fn fetch_gives_the_newest()
    ensures { quiet_play moving moving_script ≡
        line.Applied 1 Load ∷
        line.Update 1 (a ∷ []) ∷
        line.Accept 1 a a ∷
        line.Applied 1 Update ∷
        line.Client 1 Up ∷
        line.Module a 4 ∷
        line.Module m 1 ∷
        line.Stale m a ∷
        line.Reload 1 Root (a ∷ (m ∷ [])) ∷
        line.Applied 1 Reload ∷
        line.Client 1 Up ∷
        line.Module a 5 ∷
        line.Module m 1 ∷ [] }
{}

/// What was fetched before and after a change may not fit: the plan is given up with nothing changed,
/// and the next one fits.
pub fn mixed_versions_are_given_up()
    ensures { quiet_play mixed mixed_script ≡
        line.Applied 1 Load ∷
        line.Update 1 (a ∷ (x ∷ [])) ∷
        line.Accept 1 m a ∷
        line.Aborted 1 (abort.Link a x (codes "x")) ∷
        line.Update 1 (a ∷ (x ∷ [])) ∷
        line.Accept 1 m a ∷
        line.Applied 1 Update ∷
        line.Client 1 Up ∷
        line.Module a 5 ∷
        line.Module m 1 ∷
        line.Module x 6 ∷
        line.Stale m a ∷ [] }
{}

/// A client whose plan needs a removed module stays as it was, and catches up once it is there again.
pub fn removed_dependency_is_waited_for()
    ensures { quiet_play needing needing_script ≡
        line.Applied 1 Load ∷
        line.Update 1 (x ∷ []) ∷
        line.Accept 1 m x ∷
        line.Aborted 1 (abort.Missing x) ∷
        line.Client 1 Behind ∷
        line.Module m 1 ∷
        line.Module x 2 ∷
        line.Fresh ∷
        line.Module m 1 ∷
        line.Missing x ∷
        line.Update 1 (x ∷ []) ∷
        line.Accept 1 m x ∷
        line.Log 1 m (codes "x is 5") ∷
        line.Applied 1 Update ∷
        line.Client 1 Up ∷
        line.Module m 1 ∷
        line.Module x 4 ∷
        line.Stale m x ∷ [] }
{}

/// A change between the fetch and the end of a plan isn't lost: the client is behind, and catches up.
pub fn change_after_the_fetch_is_not_lost()
    ensures { quiet_play after_fetch after_fetch_script ≡
        line.Applied 1 Load ∷
        line.Update 1 (a ∷ []) ∷
        line.Accept 1 m a ∷
        line.Applied 1 Update ∷
        line.Client 1 Behind ∷
        line.Module a 3 ∷
        line.Module m 1 ∷
        line.Stale m a ∷
        line.Update 1 (a ∷ []) ∷
        line.Accept 1 m a ∷
        line.Applied 1 Update ∷
        line.Client 1 Up ∷
        line.Module a 4 ∷
        line.Module m 1 ∷
        line.Stale m a ∷ [] }
{}
