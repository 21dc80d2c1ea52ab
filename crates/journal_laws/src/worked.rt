// Runs of a client in a small language, computed by the checker: handlers are run and dropped, data is
// handed on, and variables are assigned.
ghost use Rattle.std.specs.Prelude.{◌≡◌, [], ◌∷◌, map, pos, Some, codes};
ghost use Rattle.hmr_types.specs.declared.value.Value.TheVariants.{Num};
ghost use Rattle.hmr_types.specs.declared.value.Slot.TheVariants.{Unset};
ghost use Rattle.output_lines.specs.declared.words.InstanceFate.TheVariants.{Replaced, Pruned};
ghost use Rattle.output_lines.specs.declared.words.InstanceStatus.TheVariants.{Faulted, Unrun};
ghost use Rattle.client_model.specs.Instance.{Instance};
ghost use Rattle.world_model.specs.World.{turn};
ghost use Rattle.world_model.specs.SmallPages.{m, c};
ghost use Rattle.world_model.specs.UpdateScripts.{counter, count};
ghost use Rattle.world_model.specs.HandlerScripts.{hosting, seeing, faulting};
ghost use Rattle.journal_laws.specs.Counts.{runs_of, drops_of, fates_in, disposals, prunings};
ghost use Rattle.journal_laws.specs.FirstClient.{client_of, journal_in};
ghost use Rattle.journal_laws.specs.HandlerRuns.{replacing, abandoning};
ghost use Rattle.journal_laws.specs.KeptCounter.{imported_again, starts_after, ends_after};
ghost use Rattle.journal_laws.specs.WorkedValues.{values_in, evaluations_in, imports_in, holding, loaded};
ghost use Rattle.journal_laws.specs.WorkedValues.{updated, faulted};

/// An accepted update replaces a module that registered two disposers and a prune handler: of its three
/// handlers the second disposer alone is run, and the others are dropped.
pub fn replaced_module_runs_one_disposer()
    ensures disposals { map (disposals (journal_in hosting replacing)) (1 ∷ 2 ∷ []) ≡ 1 ∷ 0 ∷ [] }
    ensures prunings { map (prunings (journal_in hosting replacing)) (1 ∷ 2 ∷ []) ≡ 0 ∷ 0 ∷ [] }
    ensures runs { map (runs_of (journal_in hosting replacing) 1) (0 ∷ 1 ∷ 2 ∷ []) ≡ 0 ∷ 1 ∷ 0 ∷ [] }
    ensures drops { map (drops_of (journal_in hosting replacing) 1) (0 ∷ 1 ∷ 2 ∷ []) ≡ 1 ∷ 0 ∷ 1 ∷ [] }
    ensures fates { map (fates_in (journal_in hosting replacing)) (1 ∷ 2 ∷ []) ≡
        (Replaced 2 ∷ []) ∷ [] ∷ [] }
{}

/// A module that left the page is live until its prune, which runs its disposer and its prune handler.
pub fn pruned_module_runs_both()
    ensures before { map (fates_in (journal_in seeing abandoning)) (1 ∷ 2 ∷ 3 ∷ []) ≡
        [] ∷ (Replaced 3 ∷ []) ∷ [] ∷ [] }
    ensures disposals { map (disposals (journal_in seeing (turn 1 ∷ abandoning))) (1 ∷ 2 ∷ 3 ∷ []) ≡
        1 ∷ 0 ∷ 0 ∷ [] }
    ensures prunings { map (prunings (journal_in seeing (turn 1 ∷ abandoning))) (1 ∷ 2 ∷ 3 ∷ []) ≡
        1 ∷ 0 ∷ 0 ∷ [] }
    ensures fates { map (fates_in (journal_in seeing (turn 1 ∷ abandoning))) (1 ∷ 2 ∷ 3 ∷ []) ≡
        (Pruned ∷ []) ∷ (Replaced 3 ∷ []) ∷ [] ∷ [] }
{}

/// A counter's disposer keeps its count, and the counter that replaces it starts with that. Once no module
/// imports the counter any more, what its disposer kept is given up: imported again, it starts with nothing.
pub fn kept_count_is_handed_on()
    ensures starts { starts_after imported_again ≡
        (1, c, []) ∷
        (2, m, []) ∷
        (3, c, (count, Num (pos 1)) ∷ []) ∷
        (4, m, []) ∷
        (5, c, []) ∷
        (6, m, []) ∷ [] }
    ensures ends { ends_after imported_again ≡
        (1, c, Replaced 3) ∷
        (2, m, Replaced 4) ∷
        (3, c, Pruned) ∷
        (4, m, Replaced 6) ∷ [] }
{}

/// A counter counts 1, and main, which accepts it, holds that count. A new counter counts 11, from the count
/// that the old one's disposer kept. Then the callback of main, which isn't made anew, assigns the new count
/// to main's own variable; its import is of the old counter still.
pub fn callback_assigns_the_new_count()
    ensures load { values_in counter loaded (1 ∷ 2 ∷ []) ≡ holding count 1 ∷ holding count 1 ∷ [] }
    ensures update { values_in counter updated (1 ∷ 2 ∷ 3 ∷ []) ≡
        holding count 1 ∷ holding count 11 ∷ holding count 11 ∷ [] }
    ensures held { map (λ (i : Instance). i.values) (client_of counter updated).instances ≡
        holding count 11 ∷ holding count 11 ∷ holding count 1 ∷ [] }
    ensures link { imports_in counter updated 2 ≡ Some (holding (codes "c") 1) }
{}

/// A module throws before it sets its export. Its importer isn't run, and has no variables.
pub fn importer_of_a_faulted_module_is_not_run()
    ensures statuses { map (λ (i : Instance). i.status) (client_of faulting faulted).instances ≡
        Unrun ∷ Faulted ∷ [] }
    ensures evaluations { evaluations_in faulting faulted (1 ∷ 2 ∷ []) ≡ 1 ∷ 0 ∷ [] }
    ensures values { values_in faulting faulted (1 ∷ 2 ∷ []) ≡ ((codes "n", Unset) ∷ []) ∷ [] ∷ [] }
{}
