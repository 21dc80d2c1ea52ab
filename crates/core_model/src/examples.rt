// Small pages and what the definitions give for them, computed by the checker.
ghost use Rattle.std.specs.Prelude.{◌≡◌, [], ◌∷◌, Some, None};
ghost use Rattle.hmr_types.specs.declared.words.ReloadCause.TheVariants.{Root, Declined};
ghost use Rattle.core_model.specs.Spread.{reason_of, cause_of, replaced_of, pairs_of};
ghost use Rattle.core_model.specs.View.{dropped_of};
ghost use Rattle.update_msgs.specs.declared.message.ServerMsg.TheVariants as msg;
ghost use Rattle.core_model.specs.declared.refusal.Refusal.TheVariants.{UnknownClient, OutOfTurn, Mismatch};
ghost use Rattle.core_model.specs.declared.refusal.Refusal.TheVariants.{Unfetched, Ignored};
ghost use Rattle.core_model.specs.Requests.{edited, settled, to_client, refused};
ghost use Rattle.core_model.specs.Sources.{job, removed, serve};
ghost use Rattle.core_model.specs.Transcript.{IsLegal, events_of};
ghost use Rattle.core_model.specs.Core.{new_core, replies};
ghost use Rattle.core_model.specs.Examples.{plain, saved_text, transforming, transcript, serving_one, lies};
ghost use Rattle.core_model.specs.Examples.{one_text, chain, diamond, cycle, decliner, leaf, half_accepting};
ghost use Rattle.core_model.specs.Examples.{rootless_cycle, two_ways, m, a, b, c, d, e, x};

/// Nothing on a chain accepts: a change at its end reloads, by the whole chain.
pub fn unaccepted_chain_reloads()
    ensures reason { reason_of chain (m ∷ []) (b ∷ []) [] ≡ Some (b ∷ a ∷ m ∷ []) }
    ensures cause { cause_of chain (b ∷ a ∷ m ∷ []) ≡ Root }
{}

/// One side of a diamond accepts: the change reloads by the other.
pub fn diamond_reloads_by_the_other_side()
    ensures { reason_of diamond (m ∷ []) (c ∷ []) [] ≡ Some (c ∷ b ∷ m ∷ []) }
{}

/// A change below a cycle replaces the whole cycle, up to what accepts it.
pub fn cycle_is_replaced()
    ensures reason { reason_of cycle (m ∷ []) (x ∷ []) [] ≡ None }
    ensures replaced { replaced_of cycle (x ∷ []) [] ≡ a ∷ b ∷ x ∷ [] }
    ensures pairs { pairs_of cycle (a ∷ b ∷ x ∷ []) [] ≡ (b, b) ∷ (m, a) ∷ [] }
{}

/// A change below a decliner reloads, though something above accepts; a change above it does not.
pub fn decliner_reloads_from_below()
    ensures reason { reason_of decliner (m ∷ []) (e ∷ []) [] ≡ Some (e ∷ d ∷ []) }
    ensures cause { cause_of decliner (e ∷ d ∷ []) ≡ Declined }
    ensures above { reason_of decliner (m ∷ []) (a ∷ []) [] ≡ None }
    ensures replaced { replaced_of decliner (a ∷ []) [] ≡ a ∷ [] }
    ensures pairs { pairs_of decliner (a ∷ []) [] ≡ (m, a) ∷ [] }
{}

/// A self-accepting leaf is replaced alone, and is its own boundary.
pub fn self_accepting_leaf_updates()
    ensures reason { reason_of leaf (m ∷ []) (a ∷ []) [] ≡ None }
    ensures replaced { replaced_of leaf (a ∷ []) [] ≡ a ∷ [] }
    ensures pairs { pairs_of leaf (a ∷ []) [] ≡ (a, a) ∷ [] }
{}

/// The same leaf, invalidated, isn't replaced: its importer is, as if it didn't accept itself.
pub fn invalidated_leaf_reloads()
    ensures reason { reason_of leaf (m ∷ []) [] (a ∷ []) ≡ Some (a ∷ m ∷ []) }
    ensures replaced { replaced_of leaf [] (a ∷ []) ≡ m ∷ [] }
{}

/// An importer that accepts one of its two dependencies does not accept the other.
pub fn accepting_one_is_not_accepting_all()
    ensures other { reason_of half_accepting (m ∷ []) (b ∷ []) [] ≡ Some (b ∷ m ∷ []) }
    ensures same { reason_of half_accepting (m ∷ []) (a ∷ []) [] ≡ None }
    ensures both { reason_of half_accepting (m ∷ []) (a ∷ b ∷ []) [] ≡ Some (b ∷ m ∷ []) }
{}

/// A cycle that no root reaches is dropped, though each of its modules is imported.
pub fn rootless_cycle_is_dropped()
    ensures { dropped_of rootless_cycle (m ∷ []) ≡ a ∷ b ∷ [] }
{}

/// Of two ways of the same length the one with the lesser names is the reason, whatever the order of
/// the imports.
pub fn reason_is_the_lesser_way()
    ensures { reason_of two_ways (m ∷ []) (a ∷ []) [] ≡ Some (a ∷ b ∷ m ∷ []) }
{}

/// A client that lies is refused by what it named, and harms nothing: the truth is then accepted.
pub fn lying_client_is_refused()
    ensures { replies (m ∷ []) serving_one lies ≡
        to_client (msg.Connected 1 (m ∷ [])) ∷
        refused OutOfTurn ∷
        refused (Unfetched m) ∷
        to_client (msg.Text m 1 one_text) ∷
        refused (Mismatch m 2 1) ∷
        to_client msg.Done ∷
        refused Ignored ∷
        refused UnknownClient ∷ [] }
{}

/// A transcript is legal: its events are well formed, its results are true, and it is small. These are the
/// replies, each the step's after what stands before it.
pub fn transcript_is_legal()
    ensures legal { IsLegal transforming (m ∷ []) transcript }
    ensures replies { replies (m ∷ []) new_core (events_of transcript) ≡
        edited (job 1) ∷
        settled (serve (plain [] [])) ∷
        to_client (msg.Connected 1 (m ∷ [])) ∷
        to_client (msg.Text m 1 saved_text) ∷
        to_client msg.Done ∷
        edited (removed 2) ∷ [] }
{}
