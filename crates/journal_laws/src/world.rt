// The laws on handlers, data and values, as they hold of each open client of the world after every list of
// steps.
ghost use Rattle.std.specs.Prelude.{List};
ghost use Rattle.core_model.specs.Names.{Name};
ghost use Rattle.client_model.specs.Language.{Language};
ghost use Rattle.journal_laws.specs.OfClients.{OfEachClient};
ghost use Rattle.journal_laws.specs.Counts.{AreDisposedOnce, ArePrunedOnce};
ghost use Rattle.journal_laws.specs.GivingUp.{BagsGoAtPrunes, AllBagsGoAtReloads};
ghost use Rattle.journal_laws.specs.Data.{EvaluationsStartRight, RunsStartRight, SuccessorsInherit};
ghost use Rattle.journal_laws.specs.Data.{DisposersHandOn, OthersInheritNothing};
ghost use Rattle.journal_laws.specs.Ends.{AllEnd};
ghost use Rattle.journal_laws.specs.Values.{ValuesAreLeft};

/// Of each instance that registered a disposer one ran where it was replaced or pruned, and none else; of
/// each that registered a prune handler one ran where it was pruned. Each handler ended by the fate of its
/// instance, so the disposer that ran is the one that was held.
pub fn held_disposers_ran_once()
    ensures disposers { (language : Language) (roots : List Name) →
        OfEachClient language roots AreDisposedOnce }
    ensures prune_handlers { (language : Language) (roots : List Name) →
        OfEachClient language roots ArePrunedOnce }
    ensures ends { (language : Language) (roots : List Name) → OfEachClient language roots AllEnd }
{}

/// Each evaluation of a module, and each run of a handler of it, started with the bag that the last one
/// before it left; with the empty one where there was none, or where the bag was given up since.
pub fn each_started_with_what_was_left()
    ensures evaluations { (language : Language) (roots : List Name) →
        OfEachClient language roots EvaluationsStartRight }
    ensures runs { (language : Language) (roots : List Name) → OfEachClient language roots RunsStartRight }
{}

/// Data was given up at prunes, and where a reload was applied; never else.
pub fn data_was_given_up_at_prunes_and_reloads()
    ensures one { (language : Language) (roots : List Name) → OfEachClient language roots BagsGoAtPrunes }
    ensures all { (language : Language) (roots : List Name) →
        OfEachClient language roots AllBagsGoAtReloads }
{}

/// An instance that replaced another started with what was left when that one ended, and so with what its
/// disposer left where it had one; any other started with nothing.
pub fn data_reached_successors_only()
    ensures successors { (language : Language) (roots : List Name) →
        OfEachClient language roots SuccessorsInherit }
    ensures disposers { (language : Language) (roots : List Name) →
        OfEachClient language roots DisposersHandOn }
    ensures others { (language : Language) (roots : List Name) →
        OfEachClient language roots OthersInheritNothing }
{}

/// The variables of each instance are those that its evaluation made, with what its own handlers assigned.
pub fn values_are_those_of_evaluations()
    ensures { (language : Language) (roots : List Name) → OfEachClient language roots ValuesAreLeft }
{}
