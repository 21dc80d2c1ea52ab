// What else this product promises of each client, in one place, beside the headline: what becomes of the
// handlers of its instances, what their variables hold, where an import isn't exported, and what other
// clients change of it.
//
// Each part is a clause below, of every run: any list of steps of the world, in the module language.
ghost use Rattle.std.specs.Prelude.{◌≡◌, ℕ, [], Contains};
ghost use Rattle.core_model.specs.Names.{Name};
ghost use Rattle.core_model.specs.FreshLoad.{unlinked_of};
ghost use Rattle.core_model.specs.Client.{Client};
ghost use Rattle.client_model.specs.Language.{links_of};
ghost use Rattle.client_model.specs.Runtime.{Runtime};
ghost use Rattle.client_model.specs.Stale.{IsStale, stale_of};
ghost use Rattle.client_model.specs.Past.{journal_of};
ghost use Rattle.module_language.specs.ModuleLanguage.{module_language};
ghost use Rattle.world_model.specs.CaughtUp.{IsCaughtUp};
ghost use Rattle.world_model.specs.World.{Step};
ghost use Rattle.world_laws.specs.Runs.{Run, sources_of, served_of, life_in, HasClient};
ghost use Rattle.journal_laws.specs.Counts.{ArePrunedOnce, AreRegistered, AreTold, AreFated};
ghost use Rattle.journal_laws.specs.Counts.{AreRunsOfHandlers};
ghost use Rattle.journal_laws.specs.Ends.{AllEnd};
ghost use Rattle.journal_laws.specs.FreshValues.{IsAcyclic, NothingAssignedLive, AreFreshValues};
ghost use Rattle.journal_laws.specs.Isolated.{OthersAreSpared};
ghost use Rattle.journal_laws.specs.LeftOut.{IsSameAlone};
ghost use Rattle.journal_laws.specs.Lives.{InEveryRun, HeldPruneHandlersRun, DisposersRunFirst};
ghost use Rattle.journal_laws.specs.Texts.{UseLiveDataInHandlersAlone};
ghost use Rattle.journal_laws.specs.Values.{ValuesAreLeft, AreEvaluations, AreUnrun, AreEvaluatedOnce};
ghost use Rattle.journal_laws.specs.Values.{AreRuns};

/// What happens to the instances of each client that is open in a run, of every run, by the journal of all
/// that happened in the client.
///
/// `prune_handlers`: of each instance that registered a prune handler, one ran where it was pruned, and none
/// else. `held_prune_handlers`: it is the one that was held, which was dropped unrun where the instance was
/// replaced or reloaded; each that a later one displaced was dropped unrun. `disposers_first`: once it ran,
/// no disposer of the instance did.
///
/// `ends`: each handler ended by the fate of its instance, and a live instance holds all that none
/// displaced. `told`: a held handler was neither run nor dropped, a spent one was run once, and a dropped
/// one was dropped once and not run; but a callback on dependencies ran any number of times while it was
/// held. `registered`: the handlers of an instance are those that it registered. `runs`: each run is that of
/// one of them, at the place of its kind. `fates`: each instance ended once, by its fate, and a live one
/// didn't.
///
/// `values`: the variables of each instance are those that its evaluation made, with what the runs of its
/// own handlers assigned since. `evaluations`: each evaluation is that of its instance's text, over the bag
/// of its name and over what its links held at that time. `unrun`: an instance isn't run only where one that
/// it is linked to had failed, and then its variables are unset. `evaluated_once`: every other was evaluated
/// once. `assignments`: each run of a handler is that of its code over its instance's variables, its links
/// and the bag of its name, or that of its closure over the bag.
///
/// `fresh_values`: where a client is caught up, no edge is stale, the imports have no cycle, each served
/// text of a live module uses `data` in handlers alone, and no run of a live instance's handlers assigned,
/// the status and the variables of its live instances are those of evaluating the fresh load of its own
/// roots, each module after those that it imports.
pub fn what_happens_to_instances()
    ensures prune_handlers { InEveryRun ArePrunedOnce }
    ensures held_prune_handlers { InEveryRun HeldPruneHandlersRun }
    ensures disposers_first { InEveryRun DisposersRunFirst }
    ensures ends { InEveryRun AllEnd }
    ensures told { InEveryRun AreTold }
    ensures registered { InEveryRun AreRegistered }
    ensures runs { InEveryRun AreRunsOfHandlers }
    ensures fates { InEveryRun AreFated }
    ensures values { InEveryRun ValuesAreLeft }
    ensures evaluations { InEveryRun (AreEvaluations module_language) }
    ensures unrun { InEveryRun AreUnrun }
    ensures evaluated_once { InEveryRun AreEvaluatedOnce }
    ensures assignments { InEveryRun (AreRuns module_language) }
    ensures fresh_values { (run : Run) (i : ℕ) (c : Client) (r : Runtime) → let life = life_in run i in
        HasClient run i c r → IsCaughtUp (sources_of run) c r → stale_of r ≡ [] →
        IsAcyclic (served_of run) r.roots → UseLiveDataInHandlersAlone (served_of run) r →
        NothingAssignedLive r (journal_of module_language life.opening life.past) →
        AreFreshValues module_language (served_of run) r.roots r }
{}

/// Where a client is caught up, each import of a name that the dependency, as it is served, doesn't export
/// is at an edge at which the client is stale.
pub fn unlinked_imports_are_at_stale_edges()
    ensures { (run : Run) (i : ℕ) (c : Client) (r : Runtime) →
        HasClient run i c r → IsCaughtUp (sources_of run) c r → (n m x : Name) →
        Contains (unlinked_of (links_of module_language) (served_of run) r.roots) (n, m, x) → IsStale r n m }
{}

/// A step of one client changes nothing of another that is open: what the server keeps of it, the client
/// itself, all that came to it, and the sources are as they were. Such a step is a turn, a look, an event
/// that is fired or a closing; and so is a client that comes.
pub fn clients_are_isolated()
    ensures { (run : Run) (s : Step) → OthersAreSpared run s }
{}

/// Leaving all turns, looks and events of other clients out of a run changes nothing of a client: what the
/// server keeps of it, the client itself, all that came to it, and what it is answered next; nor of the
/// sources. Openings and closings stay, since the places of clients are shared.
pub fn others_can_be_left_out()
    ensures { (run : Run) (i : ℕ) (c : Client) (r : Runtime) → HasClient run i c r → IsSameAlone run i c r }
{}
