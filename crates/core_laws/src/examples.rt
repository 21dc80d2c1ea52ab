// Small runs of the core, computed by the checker: what the laws speak of does happen.
ghost use Rattle.std.specs.Prelude.{◌≡◌, [], ◌∷◌, ◌++◌, Some, None, IfSome};
ghost use Rattle.hmr_types.specs.declared.words.ReloadCause.TheVariants.{Root};
ghost use Rattle.update_msgs.specs.declared.message.ServerMsg.TheVariants as msg;
ghost use Rattle.core_model.specs.declared.refusal.Refusal.TheVariants.{BadRoots};
ghost use Rattle.core_model.specs.Exchange.{message_for};
ghost use Rattle.core_model.specs.Names.{at};
ghost use Rattle.core_model.specs.FreshLoad.{fresh_table, missing_of};
ghost use Rattle.core_model.specs.Requests.{ask, fetch, aborted, invalidate, to_client, refused};
ghost use Rattle.core_model.specs.Core.{connect, request, client_at, replies};
ghost use Rattle.core_model.specs.Spread.{reason_of};
ghost use Rattle.core_model.specs.Examples.{plain, m, a, b};
ghost use Rattle.core_laws.specs.Fresh.{IsUpToDate};
ghost use Rattle.core_laws.specs.Settled.{AllAreGood, of_source, of_serving};
ghost use Rattle.core_laws.specs.Isolated.{without_others, replies_without_others};
ghost use Rattle.core_laws.specs.Batch.{AreCalm, names_changed};
ghost use Rattle.core_laws.specs.Examples.{roots, first_text, second_text, saved, served, loads, loads_a};
ghost use Rattle.core_laws.specs.Examples.{grown, updates, shrinking, two_pages_changed, breaking};
ghost use Rattle.core_laws.specs.Examples.{served_leaf, loads_meanwhile, told_of_a, page_of, after};
ghost use Rattle.core_laws.specs.Examples.{first_view, two_turns};

/// A page is loaded: it is the fresh load, and there is nothing to do.
pub fn page_is_loaded()
    ensures ready { IfSome (client_at (after (served ++ loads 1)).clients 1)
        (IsUpToDate (after (served ++ loads 1)).sources) }
    ensures page { page_of (after (served ++ loads 1)) 1 ≡ Some ((a, 2) ∷ (m, 1) ∷ []) }
    ensures fresh { fresh_table (after (served ++ loads 1)).sources.served roots ≡ (a, 2) ∷ (m, 1) ∷ [] }
    ensures missing { missing_of (after (served ++ loads 1)).sources.served roots ≡ [] }
    ensures idle { replies roots (after (served ++ loads 1)) (request 1 ask ∷ []) ≡ to_client msg.Idle ∷ [] }
{}

/// A module changes and brings a new one with it; the page is updated to the fresh load.
pub fn page_is_updated()
    ensures replies { replies roots (after (served ++ loads 1 ++ grown)) updates ≡
        to_client (msg.Update (a ∷ []) (told_of_a 3 ∷ []) 1 (a ∷ [])) ∷
        to_client (msg.Text a 3 second_text) ∷
        to_client (msg.Text b 4 first_text) ∷
        to_client msg.Done ∷ [] }
    ensures page { page_of (after (served ++ loads 1 ++ grown ++ updates)) 1 ≡
        Some ((a, 3) ∷ (b, 4) ∷ (m, 1) ∷ []) }
    ensures fresh { fresh_table (after (served ++ loads 1 ++ grown ++ updates)).sources.served roots ≡
        (a, 3) ∷ (b, 4) ∷ (m, 1) ∷ [] }
{}

/// A module that nothing imports any more is dropped, and pruned: only then is the page the fresh load.
pub fn module_is_pruned()
    ensures before { page_of (after shrinking) 1 ≡ Some ((a, 5) ∷ (b, 4) ∷ (m, 1) ∷ []) }
    ensures replies { replies roots (after shrinking) (request 1 ask ∷ request 1 ask ∷ []) ≡
        to_client (msg.Prune (b ∷ [])) ∷ to_client msg.Idle ∷ [] }
    ensures page { page_of (after (shrinking ++ request 1 ask ∷ [])) 1 ≡ Some ((a, 5) ∷ (m, 1) ∷ []) }
    ensures fresh { fresh_table (after shrinking).sources.served roots ≡ (a, 5) ∷ (m, 1) ∷ [] }
{}

/// A module that is saved after it was fetched, and before the load is applied, is updated afterwards.
pub fn change_during_a_load_is_told_after_it()
    ensures page { page_of (after (served ++ loads_meanwhile)) 1 ≡ Some ((a, 2) ∷ (m, 1) ∷ []) }
    ensures fresh { fresh_table (after (served ++ loads_meanwhile)).sources.served roots ≡
        (a, 3) ∷ (m, 1) ∷ [] }
    ensures replies { replies roots (after (served ++ loads_meanwhile)) (request 1 ask ∷ []) ≡
        to_client (msg.Update (a ∷ []) (told_of_a 3 ∷ []) 1 (a ∷ [])) ∷ [] }
{}

/// A client that gave its load up is held until something is served.
pub fn given_up_load_waits()
    ensures held { replies roots (after [])
        (connect [] ∷ request 1 (fetch m) ∷ request 1 aborted ∷ request 1 ask ∷ []) ≡
        to_client (msg.Connected 1 roots) ∷
        to_client (msg.Missing m) ∷
        to_client msg.Done ∷
        to_client msg.Idle ∷ [] }
    ensures free { replies roots
        (after (connect [] ∷ request 1 (fetch m) ∷ request 1 aborted ∷ saved m first_text (plain [] []) 1))
        (request 1 ask ∷ []) ≡
        to_client (msg.Connected 1 roots) ∷ [] }
{}

/// One client invalidates a module: it is reloaded, and the other has nothing to do. Without its
/// request the other's replies are the same.
pub fn invalidation_is_of_one_client()
    ensures replies { replies roots
        (after (served_leaf ++ loads 1 ++ loads 2 ++ request 2 (invalidate a 2) ∷ []))
        (request 1 ask ∷ request 2 ask ∷ []) ≡
        to_client msg.Idle ∷ to_client (msg.FullReload Root (a ∷ m ∷ []) 1 (a ∷ [])) ∷ [] }
    ensures left { without_others 1 (request 1 ask ∷ request 2 (invalidate a 2) ∷ request 1 ask ∷ []) ≡
        request 1 ask ∷ request 1 ask ∷ [] }
    ensures same { replies_without_others 1 roots (after (served_leaf ++ loads 1 ++ loads 2))
        (request 2 (invalidate a 2) ∷ request 1 ask ∷ request 2 ask ∷ []) ≡ to_client msg.Idle ∷ [] }
{}

/// Each source had a good result.
pub fn sources_are_good()
    ensures { AllAreGood (after served).sources }
{}

/// A source that was refused isn't served: the one before it is.
pub fn refused_source_is_not_served()
    ensures current { of_source (at (after breaking).sources.current a) ≡ Some (3, second_text) }
    ensures served { of_serving (at (after breaking).sources.served a) ≡ Some (2, first_text) }
{}

/// Two modules that their importer accepts change one after the other, and neither change wants a
/// reload: nor do both together.
pub fn two_changes_are_a_batch()
    ensures batch { AreCalm roots first_view two_turns }
    ensures changed { names_changed two_turns ≡ a ∷ b ∷ [] }
    ensures together { reason_of first_view roots (a ∷ b ∷ []) [] ≡ None }
{}

/// Two clients with roots of their own: the same change updates the page whose root accepts it, and
/// reloads the page of which it is the root. A client that speaks format 1 isn't told of the batch.
pub fn own_roots_decide()
    ensures page { page_of (after (served ++ loads 1 ++ loads_a 2)) 2 ≡ Some ((a, 2) ∷ []) }
    ensures replies { replies roots (after two_pages_changed) (request 1 ask ∷ request 2 ask ∷ []) ≡
        to_client (msg.Update (a ∷ []) (told_of_a 3 ∷ []) 1 (a ∷ [])) ∷
        to_client (msg.FullReload Root (a ∷ []) 1 (a ∷ [])) ∷ [] }
    ensures refused { replies roots (after []) (connect (m ∷ m ∷ []) ∷ []) ≡ refused BadRoots ∷ [] }
    ensures first_format { message_for 1 (to_client (msg.FullReload Root (a ∷ []) 1 (a ∷ []))) ≡
        Some (msg.FullReload Root (a ∷ []) 0 []) }
    ensures second_format { message_for 2 (to_client (msg.FullReload Root (a ∷ []) 1 (a ∷ []))) ≡
        Some (msg.FullReload Root (a ∷ []) 1 (a ∷ [])) }
{}
