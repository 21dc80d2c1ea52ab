// Where the values of a page are those of a page that is loaded anew.
ghost use Rattle.std.specs.Prelude.{◌≡◌, ℕ, List, [], ◌∷◌, codes};
ghost use Rattle.hmr_types.specs.declared.value.Slot.TheVariants.{Unset};
ghost use Rattle.output_lines.specs.declared.words.InstanceStatus.TheVariants.{Done, Faulted, Unrun};
ghost use Rattle.core_model.specs.Names.{Name};
ghost use Rattle.core_model.specs.Sources.{Text};
ghost use Rattle.core_model.specs.Client.{Client};
ghost use Rattle.client_model.specs.Language.{Language};
ghost use Rattle.client_model.specs.Runtime.{Runtime};
ghost use Rattle.client_model.specs.Stale.{stale_of};
ghost use Rattle.world_model.specs.CaughtUp.{IsCaughtUp};
ghost use Rattle.world_model.specs.HandlerScripts.{faulting};
ghost use Rattle.world_model.specs.SmallPages.{m, c, x};
ghost use Rattle.world_model.specs.UpdateScripts.{counter, count};
ghost use Rattle.world_model.specs.World.{Step};
ghost use Rattle.world_model.specs.Steps.{world_after};
ghost use Rattle.world_model.specs.Ties.{WentOn};
ghost use Rattle.client_model.specs.Language.{BindsImports};
ghost use Rattle.world_laws.specs.Quiet.{IsOpen};
ghost use Rattle.journal_laws.specs.OfClients.{journal_at};
ghost use Rattle.journal_laws.specs.FreshValues.{IsAcyclic, AreWithoutBag, AreLiveWithoutBag};
ghost use Rattle.journal_laws.specs.FreshValues.{NothingAssigned, NothingAssignedLive, AreFreshValues};
ghost use Rattle.journal_laws.specs.WorkedValues.{valued_anew, valued_now, holding, loaded, faulted};

/// Where a client is caught up, no edge is stale, the imports have no cycle, no evaluation of a served text
/// hangs on its bag, and no run of a handler assigned, the variables of its modules are those of evaluating
/// the fresh load of its own roots, each module after those that it imports. This is of a language in which
/// the bindings of each module's text are from the module's imports.
pub fn values_are_those_of_a_fresh_load()
    ensures { (language : Language) (roots : List Name) (shelves : List (List (Text × ℕ))) (past : List Step)
        (i : ℕ) (c : Client) (r : Runtime) → WentOn language roots shelves past → BindsImports language →
        let w = world_after language roots shelves past in let served = w.core.sources.served in
        IsOpen w i c r → IsCaughtUp w.core.sources c r → stale_of r ≡ [] →
        IsAcyclic served r.roots → AreWithoutBag language served →
        NothingAssigned (journal_at language roots shelves past i) →
        AreFreshValues language served r.roots r }
{}

/// The same, where no evaluation of a live module's served text hangs on its bag, and no run of a live
/// instance's handlers assigned: what ended instances did, and what is served and not loaded, is free.
pub fn live_values_are_those_of_a_fresh_load()
    ensures { (language : Language) (roots : List Name) (shelves : List (List (Text × ℕ))) (past : List Step)
        (i : ℕ) (c : Client) (r : Runtime) → WentOn language roots shelves past → BindsImports language →
        let w = world_after language roots shelves past in let served = w.core.sources.served in
        IsOpen w i c r → IsCaughtUp w.core.sources c r → stale_of r ≡ [] →
        IsAcyclic served r.roots → AreLiveWithoutBag language served r →
        NothingAssignedLive r (journal_at language roots shelves past i) →
        AreFreshValues language served r.roots r }
{}

/// A counter's page that was loaded has the values of one that is loaded anew; and so has a page of a module
/// that throws, whose importer isn't run.
pub fn loaded_pages_hold_fresh_values()
    ensures counter { valued_anew counter loaded ≡
        (c, record { status = Done; values = holding count 1 }) ∷
        (m, record { status = Done; values = holding count 1 }) ∷ [] }
    ensures counter_client { valued_now counter loaded ≡
        (c, record { status = Done; values = holding count 1 }) ∷
        (m, record { status = Done; values = holding count 1 }) ∷ [] }
    ensures faulted { valued_anew faulting faulted ≡
        (x, record { status = Faulted; values = (codes "n", Unset) ∷ [] }) ∷
        (m, record { status = Unrun; values = [] }) ∷ [] }
    ensures faulted_client { valued_now faulting faulted ≡
        (x, record { status = Faulted; values = (codes "n", Unset) ∷ [] }) ∷
        (m, record { status = Unrun; values = [] }) ∷ [] }
{}
