// Scripts of a page load, an update and a reload, and their lines, computed by the checker in a small
// language.
ghost use Rattle.std.specs.Prelude.{◌≡◌, [], ◌∷◌, codes, pos};
ghost use Rattle.hmr_types.specs.declared.words.PlanKind.TheVariants.{Load, Reload, Update};
ghost use Rattle.hmr_types.specs.declared.words.ReloadCause.TheVariants.{Root, Declined};
ghost use Rattle.output_lines.specs.declared.words.EditWord.TheVariants.{Job};
ghost use Rattle.output_lines.specs.declared.words.SettleWord.TheVariants.{Served};
ghost use Rattle.output_lines.specs.declared.words.ClientState.TheVariants.{Up, Behind};
ghost use Rattle.output_lines.specs.declared.words.InstanceStatus.TheVariants.{Done};
ghost use Rattle.output_lines.specs.declared.words.InstanceFate.TheVariants as fate;
ghost use Rattle.hmr_types.specs.declared.words.HandlerKind.TheVariants as kind;
ghost use Rattle.output_lines.specs.declared.words.Handled.TheVariants.{Code};
ghost use Rattle.output_lines.specs.declared.words.HandlerEnd.TheVariants.{Held, Spent, Dropped};
ghost use Rattle.hmr_types.specs.declared.value.Value.TheVariants.{Num};
ghost use Rattle.hmr_types.specs.declared.value.Slot.TheVariants.{Val};
ghost use Rattle.output_lines.specs.declared.out_line.OutLine.TheVariants as line;
ghost use Rattle.world_model.specs.Playing.{play, quiet_play};
ghost use Rattle.world_model.specs.SmallPages.{m, a, b, x, c};
ghost use Rattle.world_model.specs.UpdateScripts.{counter, counter_script, count};
ghost use Rattle.world_model.specs.UpdateScripts.{chain, chain_script, cycle};
ghost use Rattle.world_model.specs.UpdateScripts.{cycle_script};

/// A counter as users write it: its count goes from instance to instance by its bag, and the module
/// that accepts it is told, though its own binding stays as it was.
pub fn counter_keeps_its_count()
    ensures { play counter counter_script ≡
        line.Edit m (Job 1) ∷
        line.Edit c (Job 2) ∷
        line.Settle m 1 Served ∷
        line.Settle c 2 Served ∷
        line.Open 1 ∷
        line.Log 1 c (codes "counter 1") ∷
        line.Applied 1 Load ∷
        line.Edit c (Job 3) ∷
        line.Settle c 3 Served ∷
        line.Update 1 (c ∷ []) ∷
        line.Accept 1 m c ∷
        line.Log 1 c (codes "counter 11") ∷
        line.Log 1 m (codes "count is now 11") ∷
        line.Applied 1 Update ∷
        line.Client 1 Up ∷
        line.Module c 3 ∷
        line.Module m 1 ∷
        line.Stale m c ∷
        line.Values 1 ∷
        line.Value c count (Val (Num (pos 11))) ∷
        line.Value m count (Val (Num (pos 11))) ∷
        line.Fates 1 ∷
        line.Instance 1 c 2 Done (fate.Replaced 3) ∷
        line.Handler kind.Dispose Code Spent ∷
        line.Instance 2 m 1 Done fate.Live ∷
        line.Handler kind.Dep Code Held ∷
        line.Instance 3 c 3 Done fate.Live ∷
        line.Fresh ∷
        line.Module c 3 ∷
        line.Module m 1 ∷ [] }
{}

/// Nothing on a chain accepts a change at its end: the page is loaded again, and no disposer runs.
pub fn unaccepted_chain_reloads()
    ensures { quiet_play chain chain_script ≡
        line.Applied 1 Load ∷
        line.Reload 1 Root (b ∷ a ∷ m ∷ []) ∷
        line.Applied 1 Reload ∷
        line.Fates 1 ∷
        line.Instance 1 b 3 Done fate.Reloaded ∷
        line.Instance 2 a 2 Done fate.Reloaded ∷
        line.Handler kind.Dispose Code Dropped ∷
        line.Instance 3 m 1 Done fate.Reloaded ∷
        line.Instance 4 b 4 Done fate.Live ∷
        line.Instance 5 a 2 Done fate.Live ∷
        line.Handler kind.Dispose Code Held ∷
        line.Instance 6 m 1 Done fate.Live ∷ [] }
{}

/// A cycle is replaced whole: disposers in falling number, evaluation in the order of the walk, though
/// one of its modules reads the other before it was evaluated.
pub fn cycle_is_replaced_in_order()
    ensures { quiet_play cycle cycle_script ≡
        line.Log 1 b (codes "b") ∷
        line.Log 1 x (codes "x") ∷
        line.Log 1 a (codes "a") ∷
        line.Applied 1 Load ∷
        line.Update 1 (a ∷ (b ∷ (x ∷ []))) ∷
        line.Accept 1 b b ∷
        line.Accept 1 m a ∷
        line.Log 1 a (codes "bye a") ∷
        line.Log 1 b (codes "bye b") ∷
        line.Log 1 b (codes "b") ∷
        line.Log 1 x (codes "x2") ∷
        line.Log 1 a (codes "a") ∷
        line.Applied 1 Update ∷
        line.Client 1 Up ∷
        line.Module a 2 ∷
        line.Module b 3 ∷
        line.Module m 1 ∷
        line.Module x 5 ∷
        line.Stale m a ∷ [] }
{}
