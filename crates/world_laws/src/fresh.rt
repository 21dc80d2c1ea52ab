// A caught-up client holds a fresh load, and is stale where that isn't linked.
ghost use Rattle.std.specs.Prelude.{◌≡◌, ℕ, List, [], ◌∷◌, Some};
ghost use Rattle.output_lines.specs.declared.words.ClientState.TheVariants.{Up};
ghost use Rattle.output_lines.specs.declared.out_line.OutLine.{OutLine};
ghost use Rattle.output_lines.specs.declared.out_line.OutLine.TheVariants as line;
ghost use Rattle.core_model.specs.Names.{Name};
ghost use Rattle.core_model.specs.Sources.{Text};
ghost use Rattle.core_model.specs.Core.{client_at};
ghost use Rattle.client_model.specs.Language.{Language};
ghost use Rattle.world_model.specs.World.{Step, show, fresh};
ghost use Rattle.world_model.specs.SmallPages.{m, c};
ghost use Rattle.world_model.specs.UpdateScripts.{count};
ghost use Rattle.world_model.specs.Steps.{world_step, world_after};
ghost use Rattle.world_model.specs.Ties.{WentOn};
ghost use Rattle.world_laws.specs.Fresh.{AreFresh, HaveFreshInstances, AreUnlinkedStale, ShowsFresh};
ghost use Rattle.world_laws.specs.HiddenTurns.{hiding, hidden};

/// After every list of steps, each client that is caught up holds, by name and version, exactly a fresh
/// load of the served sources from its own roots, and nothing of it is missing.
pub fn caught_up_client_is_fresh()
    ensures { (language : Language) (roots : List Name) (shelves : List (List (Text × ℕ)))
        (past : List Step) →
        WentOn language roots shelves past → AreFresh (world_after language roots shelves past) }
{}

/// Where a client is caught up, a name is in a fresh load of its own roots at a version exactly where a
/// live instance of that name has that version.
pub fn live_instances_are_a_fresh_load()
    ensures { (language : Language) (roots : List Name) (shelves : List (List (Text × ℕ)))
        (past : List Step) →
        WentOn language roots shelves past → HaveFreshInstances (world_after language roots shelves past) }
{}

/// Where a client is caught up, each import of a name that the dependency, as it is served, doesn't
/// export is at an edge at which the client is stale: what the importer holds isn't the dependency's live
/// instance.
pub fn unlinked_imports_are_stale()
    ensures { (language : Language) (roots : List Name) (shelves : List (List (Text × ℕ)))
        (past : List Step) →
        WentOn language roots shelves past →
        AreUnlinkedStale language (world_after language roots shelves past) }
{}

/// So it is of a page whose counter hides the count that its main module imports and accepts: the client
/// takes the new counter and is caught up, it is stale at that one edge, and a fresh load of the page has
/// that one import that isn't exported.
pub fn hidden_count_is_stale()
    ensures client { let w = world_after hiding.language hiding.roots hiding.shelves hidden in
        (world_step hiding.language hiding.roots hiding.shelves w (show 1)).lines ≡
        Some (line.Client 1 Up ∷ line.Module c 3 ∷ line.Module m 1 ∷ line.Stale m c ∷ []) }
    ensures load { let w = world_after hiding.language hiding.roots hiding.shelves hidden in
        (world_step hiding.language hiding.roots hiding.shelves w fresh).lines ≡
        Some (line.Fresh ∷ line.Module c 3 ∷ line.Module m 1 ∷ line.Unlinked m c count ∷ []) }
{}

/// Wherever a client shows that it is up, the modules and versions that it writes are exactly those that
/// a fresh load of its own roots would write in that place, and the fresh load would write no missing
/// module.
pub fn up_is_shown_with_a_fresh_load()
    ensures { (language : Language) (roots : List Name) (shelves : List (List (Text × ℕ))) (past : List Step)
        (i j : ℕ) (lines : List OutLine) → let w = world_after language roots shelves past in
        WentOn language roots shelves past →
        (world_step language roots shelves w (show i)).lines ≡ Some (line.Client j Up ∷ lines) →
        ShowsFresh w.core.sources.served lines (client_at w.clients i) }
{}
