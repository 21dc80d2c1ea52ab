// Scripts of handlers: prune, data, closures of the embedding program and invalidations, and their
// lines, computed by the checker in a small language.
ghost use Rattle.std.specs.Prelude.{◌≡◌, [], ◌∷◌, codes, pos};
ghost use Rattle.hmr_types.specs.declared.words.PlanKind.TheVariants.{Load, Reload, Update};
ghost use Rattle.hmr_types.specs.declared.words.ReloadCause.TheVariants.{Root, Declined};
ghost use Rattle.output_lines.specs.declared.words.EditWord.TheVariants.{Job};
ghost use Rattle.output_lines.specs.declared.words.SettleWord.TheVariants.{Served};
ghost use Rattle.output_lines.specs.declared.words.ClientState.TheVariants.{Up, Behind};
ghost use Rattle.output_lines.specs.declared.words.InstanceStatus.TheVariants.{Done};
ghost use Rattle.output_lines.specs.declared.words.InstanceFate.TheVariants as fate;
ghost use Rattle.hmr_types.specs.declared.words.HandlerKind.TheVariants as kind;
ghost use Rattle.output_lines.specs.declared.words.Handled.TheVariants.{Code};
ghost use Rattle.output_lines.specs.declared.words.HandlerEnd.TheVariants.{Held, Spent, Dropped};
ghost use Rattle.hmr_types.specs.declared.value.Value.TheVariants.{Num};
ghost use Rattle.hmr_types.specs.declared.value.Slot.TheVariants.{Val};
ghost use Rattle.output_lines.specs.declared.out_line.OutLine.TheVariants as line;
ghost use Rattle.output_lines.specs.declared.words.Handled.TheVariants as handled;
ghost use Rattle.world_model.specs.Playing.{play, quiet_play};
ghost use Rattle.world_model.specs.SmallPages.{m, a, x};
ghost use Rattle.world_model.specs.HandlerScripts.{seeing, seeing_script, hosting, hosting_script, label};
ghost use Rattle.world_model.specs.HandlerScripts.{invalidating, invalidating_script, second_client_script};
ghost use Rattle.world_model.specs.HandlerScripts.{invalid_root_page, invalid_root_script, faulting};
ghost use Rattle.world_model.specs.HandlerScripts.{faulting_script, watching_script, asking, asking_script};
ghost use Rattle.world_model.specs.HandlerScripts.{hearing, hearing_script};
ghost use Rattle.output_lines.specs.declared.words.FaultPlace.TheVariants as place;
ghost use Rattle.hmr_types.specs.declared.value.EvalFault.TheVariants.{Thrown};
ghost use Rattle.hmr_types.specs.declared.value.Slot.TheVariants.{Unset};

/// A module that leaves the page runs its disposer and then its prune handler, and its data is given
/// up: when it comes again it begins with none.
pub fn data_is_given_up_at_the_prune()
    ensures { quiet_play seeing seeing_script ≡
        line.Log 1 x (codes "seen undefined") ∷
        line.Applied 1 Load ∷
        line.Update 1 (m ∷ []) ∷
        line.Accept 1 m m ∷
        line.Applied 1 Update ∷
        line.Log 1 x (codes "dispose") ∷
        line.Log 1 x (codes "prune") ∷
        line.Pruned 1 x ∷
        line.Client 1 Up ∷
        line.Module m 3 ∷
        line.Update 1 (m ∷ []) ∷
        line.Accept 1 m m ∷
        line.Log 1 x (codes "seen undefined") ∷
        line.Applied 1 Update ∷
        line.Fates 1 ∷
        line.Instance 1 x 2 Done fate.Pruned ∷
        line.Handler kind.Dispose Code Spent ∷
        line.Handler kind.Prune Code Spent ∷
        line.Instance 2 m 1 Done (fate.Replaced 3) ∷
        line.Instance 3 m 3 Done (fate.Replaced 5) ∷
        line.Instance 4 x 2 Done fate.Live ∷
        line.Handler kind.Dispose Code Held ∷
        line.Handler kind.Prune Code Held ∷
        line.Instance 5 m 4 Done fate.Live ∷ [] }
{}

/// A displaced disposer is dropped unrun, a prune handler is dropped at a replacement, and a closure is
/// taken off the shelf once.
pub fn displaced_disposer_is_dropped()
    ensures { quiet_play hosting hosting_script ≡
        line.Applied 1 Load ∷
        line.Update 1 (m ∷ []) ∷
        line.Accept 1 m m ∷
        line.Log 1 m (codes "second") ∷
        line.Applied 1 Update ∷
        line.Update 1 (m ∷ []) ∷
        line.Accept 1 m m ∷
        line.Log 1 m (codes "host H 3") ∷
        line.Log 1 m (codes "3") ∷
        line.Applied 1 Update ∷
        line.Fates 1 ∷
        line.Instance 1 m 1 Done (fate.Replaced 2) ∷
        line.Handler kind.Dispose (handled.Host label 1) Dropped ∷
        line.Handler kind.Dispose Code Spent ∷
        line.Handler kind.Prune (handled.Host label 2) Dropped ∷
        line.Instance 2 m 2 Done (fate.Replaced 3) ∷
        line.Handler kind.Dispose (handled.Host label 3) Spent ∷
        line.Instance 3 m 3 Done fate.Live ∷ [] }
{}

/// An invalidation is the business of the client that made it: its importer is updated, and the other
/// client stays as it was.
pub fn invalidation_updates_the_importer()
    ensures { quiet_play invalidating invalidating_script ≡
        line.Log 1 m (codes "m 1") ∷
        line.Applied 1 Load ∷
        line.Log 2 m (codes "m 1") ∷
        line.Applied 2 Load ∷
        line.Update 1 (a ∷ []) ∷
        line.Accept 1 a a ∷
        line.Applied 1 Update ∷
        line.Invalidated 1 a (codes "changed 2") ∷
        line.Update 1 (m ∷ []) ∷
        line.Accept 1 m m ∷
        line.Log 1 m (codes "m 2") ∷
        line.Applied 1 Update ∷
        line.Client 1 Up ∷
        line.Module a 3 ∷
        line.Module m 1 ∷
        line.Client 2 Behind ∷
        line.Module a 2 ∷
        line.Module m 1 ∷ [] }
{}

/// A client that has the very version that another one invalidates stays caught up.
pub fn invalidation_leaves_other_clients_alone()
    ensures { quiet_play invalidating second_client_script ≡
        line.Log 1 m (codes "m 1") ∷
        line.Applied 1 Load ∷
        line.Log 2 m (codes "m 2") ∷
        line.Applied 2 Load ∷
        line.Update 1 (a ∷ []) ∷
        line.Accept 1 a a ∷
        line.Applied 1 Update ∷
        line.Invalidated 1 a (codes "changed 2") ∷
        line.Update 1 (m ∷ []) ∷
        line.Accept 1 m m ∷
        line.Log 1 m (codes "m 2") ∷
        line.Applied 1 Update ∷
        line.Client 1 Up ∷
        line.Module a 3 ∷
        line.Module m 1 ∷
        line.Client 2 Up ∷
        line.Module a 3 ∷
        line.Module m 1 ∷ [] }
{}

/// A root that invalidates itself has nobody above it to update: the page is loaded again.
pub fn invalidated_root_reloads()
    ensures { quiet_play invalid_root_page invalid_root_script ≡
        line.Applied 1 Load ∷
        line.Update 1 (m ∷ []) ∷
        line.Accept 1 m m ∷
        line.Applied 1 Update ∷
        line.Invalidated 1 m [] ∷
        line.Reload 1 Root (m ∷ []) ∷
        line.Applied 1 Reload ∷ [] }
{}

/// A module that imports one that faulted isn't run, and both stand on the page with their versions.
pub fn importer_of_a_fault_is_not_run()
    ensures { quiet_play faulting faulting_script ≡
        line.Fault 1 x place.Module (Thrown (codes "bad")) ∷
        line.Unrun 1 m ∷
        line.Applied 1 Load ∷
        line.Client 1 Up ∷
        line.Module m 1 ∷
        line.Module x 2 ∷
        line.Values 1 ∷
        line.Value x (codes "n") Unset ∷ [] }
{}

/// A callback gets undefined for a module whose evaluation faulted, and the update goes on.
pub fn callback_of_a_fault_gets_undefined()
    ensures { quiet_play faulting watching_script ≡
        line.Applied 1 Load ∷
        line.Update 1 (x ∷ []) ∷
        line.Accept 1 m x ∷
        line.Fault 1 x place.Module (Thrown (codes "bad")) ∷
        line.Log 1 m (codes "x has undefined") ∷
        line.Applied 1 Update ∷ [] }
{}

/// Where no closure of a label is left, nothing is registered.
pub fn missing_closure_registers_nothing()
    ensures { quiet_play asking asking_script ≡
        line.NoHost 1 m (codes "Z") ∷
        line.Applied 1 Load ∷
        line.Fates 1 ∷
        line.Instance 1 m 1 Done fate.Live ∷ [] }
{}

/// An event that is fired runs the callbacks of live instances that list it, with the value as the export
/// `data`; a client that isn't loaded, has a plan under way or isn't open hears nothing, and an instance
/// that was replaced neither.
pub fn event_is_heard_at_rest()
    ensures { quiet_play hearing hearing_script ≡
        line.Applied 1 Load ∷
        line.Log 1 m (codes "got one") ∷
        line.Update 1 (m ∷ []) ∷
        line.Accept 1 m m ∷
        line.Applied 1 Update ∷ [] }
{}
