// What becomes of handlers: each ends as the fate of its instance says, and the journal tells of it.
ghost use Rattle.client_model.specs.Language.{Language};
ghost use Rattle.journal_laws.specs.Runs.{OfEachRun};
ghost use Rattle.journal_laws.specs.Ends.{AllEnd};
ghost use Rattle.journal_laws.specs.Counts.{AreTold, AreRegistered, AreFated, AreRunsOfHandlers};
ghost use Rattle.journal_laws.specs.Counts.{AreDisposedOnce, ArePrunedOnce};

/// Each handler ends by the fate of its instance. A disposer or a prune handler that a later one displaced
/// is dropped. Of the others a live instance holds all. At a replacement the disposer is spent, callbacks on
/// the module itself are spent or dropped, and the rest is dropped; at a prune the disposer and the prune
/// handler are spent, and the rest is dropped; a page reload drops them all.
pub fn handlers_end_by_fate()
    ensures { (language : Language) → OfEachRun language AllEnd }
{}

/// The journal tells of each handler once that it was registered, and of no other. One that is held was
/// neither run nor dropped, one that is spent was run once, and one that is dropped was dropped once and not
/// run; but a callback on dependencies is run any number of times while it is held.
pub fn handlers_are_told()
    ensures registered { (language : Language) → OfEachRun language AreRegistered }
    ensures ends { (language : Language) → OfEachRun language AreTold }
{}

/// Each run is that of a handler which the instance registered, at the place of the handler's kind.
pub fn runs_are_of_handlers()
    ensures { (language : Language) → OfEachRun language AreRunsOfHandlers }
{}

/// The journal tells of each instance once how it ended, and of a live one not at all.
pub fn fates_are_told()
    ensures { (language : Language) → OfEachRun language AreFated }
{}

/// Of each instance that registered a disposer, one was run where the instance was replaced or pruned, and
/// none where it is live or was reloaded; of an instance that registered none, none was run. So the one that
/// was run is the held one: each earlier one was displaced, and dropped unrun (`handlers_end_by_fate`,
/// `handlers_are_told`).
pub fn held_disposers_run_once()
    ensures { (language : Language) → OfEachRun language AreDisposedOnce }
{}

/// Of each instance that registered a prune handler, one was run where the instance was pruned, and never
/// else.
pub fn prune_handlers_run_at_a_prune()
    ensures { (language : Language) → OfEachRun language ArePrunedOnce }
{}
