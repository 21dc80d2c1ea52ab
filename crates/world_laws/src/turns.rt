// Turns of one client, and how they bring it to be caught up.
ghost use Rattle.std.specs.Prelude.{◌≡◌, ℕ, true, false, List, [], ◌∷◌, None, is_some};
ghost use Rattle.core_model.specs.Names.{Name, at};
ghost use Rattle.core_model.specs.Sources.{Text};
ghost use Rattle.core_model.specs.Client.{Client, is_held};
ghost use Rattle.client_model.specs.Language.{Language, BindsImports};
ghost use Rattle.client_model.specs.Runtime.{Runtime};
ghost use Rattle.world_model.specs.CaughtUp.{IsCaughtUp, debt, largest_debt};
ghost use Rattle.world_model.specs.World.{World, Step, turn};
ghost use Rattle.world_model.specs.Steps.{world_step, world_after};
ghost use Rattle.world_model.specs.Ties.{WentOn};
ghost use Rattle.world_model.specs.SmallLanguage.{Texts, small_language};
ghost use Rattle.world_model.specs.UpdateScripts.{counter};
ghost use Rattle.world_laws.specs.Quiet.{IsServedWhole, CauseIs, IsServedText};
ghost use Rattle.world_laws.specs.Quiet.{EachClient, IsOpen, IsSettled};
ghost use Rattle.world_laws.specs.Quiet.{OwesLess, AreQuiet, IsUpWithin, looks, IsUpAmongLooks, debts};
ghost use Rattle.world_laws.specs.SmallTexts.{all_bind_imports};
ghost use Rattle.world_laws.specs.CounterTurns.{loading, updating};

/// Where nothing was served or removed since the plan under way began, a cause to give it up that a
/// fetch found names a module that a fresh load of the client's roots reaches and that isn't served; and
/// each text that was fetched is the served one.
pub fn found_causes_are_missing_modules()
    ensures cause { (language : Language) (roots : List Name) → EachClient language roots (λ s c r.
        is_some c.page.plan ≡ true → c.plan_at ≡ s.served_no → CauseIs c.roots s.served r.cause) }
    ensures texts { (language : Language) (roots : List Name) → EachClient language roots (λ s c r.
        is_some c.page.plan ≡ true → c.plan_at ≡ s.served_no →
        (n : Name) → IsServedText (at r.texts n) (at s.served n)) }
{}

/// With no plan under way no cause to give one up stands, and with one under way no invalidation is
/// unsent.
pub fn causes_go_with_plans()
    ensures cause { (language : Language) (roots : List Name) →
        EachClient language roots (λ s c r. is_some c.page.plan ≡ false → r.cause ≡ None) }
    ensures unsent { (language : Language) (roots : List Name) →
        EachClient language roots (λ s c r. is_some c.page.plan ≡ true → r.unsent ≡ []) }
{}

/// A client that is held with no plan under way has a fresh load that isn't whole: it waits for
/// something to be served. This is of a language in which the bindings of each module's text are from
/// the module's imports.
pub fn held_client_has_no_whole_load()
    ensures { (language : Language) (roots : List Name) → BindsImports language →
        EachClient language roots (λ s c r.
        is_some c.page.plan ≡ false → is_held s c ≡ true → IsServedWhole language c.roots s → ⊥) }
{}

/// Where no job is outstanding and the fresh load of a client's roots is whole, a turn of that client, if
/// it is open and isn't caught up, lowers its debt, if the turn goes on and adds no unsent invalidation.
/// This is of a language in which the bindings of each module's text are from the module's imports.
pub fn quiet_turn_lowers_the_debt()
    ensures { (language : Language) (roots : List Name) (shelves : List (List (Text × ℕ))) (past : List Step)
        (i : ℕ) (c : Client) (r : Runtime) → let w = world_after language roots shelves past in
        WentOn language roots shelves past → BindsImports language →
        IsSettled language c.roots w.core.sources →
        IsOpen w i c r → (IsCaughtUp w.core.sources c r → ⊥) → AreQuiet language roots shelves i 1 past →
        OwesLess (world_after language roots shelves (turn i ∷ past)) i (debt w.core.sources c r) }
{}

/// So the client is caught up after at most as many such turns as its debt, with nothing else between
/// them; and hence after at most as many as the bound of its debt.
pub fn client_catches_up()
    ensures debt { (language : Language) (roots : List Name) (shelves : List (List (Text × ℕ)))
        (past : List Step)
        (i : ℕ) (c : Client) (r : Runtime) → let w = world_after language roots shelves past in
        let owed = debt w.core.sources c r in
        WentOn language roots shelves past → BindsImports language →
        IsSettled language c.roots w.core.sources →
        IsOpen w i c r → AreQuiet language roots shelves i owed past →
        IsUpWithin language roots shelves i owed past }
    ensures bound { (language : Language) (roots : List Name) (shelves : List (List (Text × ℕ)))
        (past : List Step)
        (i : ℕ) (c : Client) (r : Runtime) → let w = world_after language roots shelves past in
        let most = largest_debt w.core.sources c r in
        WentOn language roots shelves past → BindsImports language →
        IsSettled language c.roots w.core.sources →
        IsOpen w i c r → AreQuiet language roots shelves i most past →
        IsUpWithin language roots shelves i most past }
{}

/// Steps that only look, as shows, values, fates and fresh loads, leave the world as it was.
pub fn looks_change_nothing()
    ensures { (language : Language) (roots : List Name) (shelves : List (List (Text × ℕ)))
        (w : World) (s : Step) → looks s ≡ true → (world_step language roots shelves w s).world ≡ w }
{}

/// So a client catches up among them as without them: there is a number of turns, at most its debt, and so
/// at most the bound of that, after which it is caught up whatever looks come between.
pub fn client_catches_up_among_looks()
    ensures debt { (language : Language) (roots : List Name) (shelves : List (List (Text × ℕ)))
        (past : List Step)
        (i : ℕ) (c : Client) (r : Runtime) → let w = world_after language roots shelves past in
        let owed = debt w.core.sources c r in
        WentOn language roots shelves past → BindsImports language →
        IsSettled language c.roots w.core.sources →
        IsOpen w i c r → AreQuiet language roots shelves i owed past →
        IsUpAmongLooks language roots shelves i owed past }
    ensures bound { (language : Language) (roots : List Name) (shelves : List (List (Text × ℕ)))
        (past : List Step)
        (i : ℕ) (c : Client) (r : Runtime) → let w = world_after language roots shelves past in
        let most = largest_debt w.core.sources c r in
        WentOn language roots shelves past → BindsImports language →
        IsSettled language c.roots w.core.sources →
        IsOpen w i c r → AreQuiet language roots shelves i most past →
        IsUpAmongLooks language roots shelves i most past }
{}

/// In a small language, given by its texts, the bindings of each module's text are from its imports
/// where those of each module that a text stands for are.
pub fn small_languages_bind_imports()
    ensures { (texts : Texts) → all_bind_imports texts ≡ true → BindsImports (small_language texts) }
{}

/// The debts of a client that loads a counter's page of two modules, turn by turn, and of one that
/// updates its counter.
pub fn debts_of_a_counter_fall()
    ensures load { debts counter.language counter.roots counter.shelves 1 3 loading ≡ 5 ∷ 4 ∷ 3 ∷ 0 ∷ [] }
    ensures update { debts counter.language counter.roots counter.shelves 1 3 updating ≡ 6 ∷ 5 ∷ 4 ∷ 0 ∷ [] }
{}
