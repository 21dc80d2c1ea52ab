// The laws of turns, of the module language: its bindings are from its imports, so they need no premise.
ghost use Rattle.std.specs.Prelude.{◌≡◌, ℕ, true, false, List, [], ◌∷◌, is_some};
ghost use Rattle.core_model.specs.Names.{Name};
ghost use Rattle.core_model.specs.Sources.{Text};
ghost use Rattle.core_model.specs.Client.{Client, is_held};
ghost use Rattle.client_model.specs.Runtime.{Runtime};
ghost use Rattle.module_language.specs.ModuleLanguage.{module_language};
ghost use Rattle.world_model.specs.CaughtUp.{IsCaughtUp, debt, largest_debt};
ghost use Rattle.world_model.specs.World.{Step, turn};
ghost use Rattle.world_model.specs.Steps.{world_after};
ghost use Rattle.world_model.specs.Ties.{WentOn};
ghost use Rattle.world_laws.specs.Quiet.{IsServedWhole, EachClient, IsOpen, IsSettled, OwesLess, AreQuiet};
ghost use Rattle.world_laws.specs.Quiet.{IsUpAmongLooks};

/// A client that is held with no plan under way has a fresh load that isn't whole.
pub fn held_module_client_has_no_whole_load()
    ensures { (roots : List Name) → EachClient module_language roots (λ s c r. is_some c.page.plan ≡ false →
        is_held s c ≡ true → IsServedWhole module_language c.roots s → ⊥) }
{}

/// Where no job is outstanding and the fresh load of a client's roots is whole, a turn of that client, if
/// it is open and isn't caught up, lowers its debt, if the turn goes on and adds no unsent invalidation.
pub fn quiet_module_turn_lowers_the_debt()
    ensures { (roots : List Name) (shelves : List (List (Text × ℕ))) (past : List Step)
        (i : ℕ) (c : Client) (r : Runtime) → let w = world_after module_language roots shelves past in
        WentOn module_language roots shelves past → IsSettled module_language c.roots w.core.sources →
        IsOpen w i c r → (IsCaughtUp w.core.sources c r → ⊥) →
        AreQuiet module_language roots shelves i 1 past →
        OwesLess (world_after module_language roots shelves (turn i ∷ past)) i (debt w.core.sources c r) }
{}

/// So the client is caught up after at most as many such turns as its debt, and as the bound of that,
/// whatever shows, values, fates and fresh loads come between them.
pub fn module_client_catches_up()
    ensures debt { (roots : List Name) (shelves : List (List (Text × ℕ))) (past : List Step)
        (i : ℕ) (c : Client) (r : Runtime) → let w = world_after module_language roots shelves past in
        let owed = debt w.core.sources c r in
        WentOn module_language roots shelves past → IsSettled module_language c.roots w.core.sources →
        IsOpen w i c r → AreQuiet module_language roots shelves i owed past →
        IsUpAmongLooks module_language roots shelves i owed past }
    ensures bound { (roots : List Name) (shelves : List (List (Text × ℕ))) (past : List Step)
        (i : ℕ) (c : Client) (r : Runtime) → let w = world_after module_language roots shelves past in
        let most = largest_debt w.core.sources c r in
        WentOn module_language roots shelves past → IsSettled module_language c.roots w.core.sources →
        IsOpen w i c r → AreQuiet module_language roots shelves i most past →
        IsUpAmongLooks module_language roots shelves i most past }
{}
