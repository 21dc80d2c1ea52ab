// The module language: the law on fresh values without premises on the language, and pages of module texts,
// computed from the texts.
ghost use Rattle.std.specs.Prelude.{◌≡◌, ℕ, List, [], ◌∷◌, codes, pos, Some};
ghost use Rattle.hmr_types.specs.declared.value.Value.TheVariants.{Num};
ghost use Rattle.module_language.specs.Examples.{m, x};
ghost use Rattle.journal_laws.specs.TextPages.{text_page, keeping_loaded, keeping_replaced, text_starts};
ghost use Rattle.journal_laws.specs.TextPages.{text_fates, text_stale, seeing_loaded, seeing_updated};
ghost use Rattle.journal_laws.specs.TextPages.{seeing_reloaded, leaf_updated, invalidated};
ghost use Rattle.journal_laws.specs.WorkedValues.{values_in, valued_anew, holding};
ghost use Rattle.output_lines.specs.declared.words.InstanceFate.TheVariants.{Live, Reloaded, Replaced};
ghost use Rattle.output_lines.specs.declared.words.InstanceStatus.TheVariants.{Done};
ghost use Rattle.core_model.specs.Names.{Name};
ghost use Rattle.core_model.specs.Sources.{Text};
ghost use Rattle.core_model.specs.Client.{Client};
ghost use Rattle.client_model.specs.Runtime.{Runtime};
ghost use Rattle.client_model.specs.Stale.{stale_of};
ghost use Rattle.module_language.specs.ModuleLanguage.{module_language};
ghost use Rattle.world_model.specs.CaughtUp.{IsCaughtUp};
ghost use Rattle.world_model.specs.World.{Step};
ghost use Rattle.world_model.specs.Steps.{world_after};
ghost use Rattle.world_model.specs.Ties.{WentOn};
ghost use Rattle.world_laws.specs.Quiet.{IsOpen};
ghost use Rattle.journal_laws.specs.FreshValues.{IsAcyclic, NothingAssigned, NothingAssignedLive};
ghost use Rattle.journal_laws.specs.FreshValues.{AreFreshValues};
ghost use Rattle.journal_laws.specs.OfClients.{journal_at};
ghost use Rattle.journal_laws.specs.Texts.{UseDataInHandlersAlone, UseLiveDataInHandlersAlone};

/// Where a client is caught up, no edge is stale, the imports have no cycle, each served text uses `data`
/// in handlers alone, and no run of a handler assigned, the variables of its modules are those of
/// evaluating the fresh load of its own roots.
pub fn values_of_texts_are_those_of_a_fresh_load()
    ensures { (roots : List Name) (shelves : List (List (Text × ℕ))) (past : List Step)
        (i : ℕ) (c : Client) (r : Runtime) → WentOn module_language roots shelves past →
        let w = world_after module_language roots shelves past in let served = w.core.sources.served in
        IsOpen w i c r → IsCaughtUp w.core.sources c r → stale_of r ≡ [] →
        IsAcyclic served r.roots → UseDataInHandlersAlone served →
        NothingAssigned (journal_at module_language roots shelves past i) →
        AreFreshValues module_language served r.roots r }
{}

/// The same, where each served text of a live module uses `data` in handlers alone, and no run of a live
/// instance's handlers assigned: what ended instances did, and what is served and not loaded, is free.
pub fn live_values_of_texts_are_those_of_a_fresh_load()
    ensures { (roots : List Name) (shelves : List (List (Text × ℕ))) (past : List Step)
        (i : ℕ) (c : Client) (r : Runtime) → WentOn module_language roots shelves past →
        let w = world_after module_language roots shelves past in let served = w.core.sources.served in
        IsOpen w i c r → IsCaughtUp w.core.sources c r → stale_of r ≡ [] →
        IsAcyclic served r.roots → UseLiveDataInHandlersAlone served r →
        NothingAssignedLive r (journal_at module_language roots shelves past i) →
        AreFreshValues module_language served r.roots r }
{}

/// A module's text keeps its number for the next instance, whose text reads it: the first starts with
/// nothing, the second with what the first one's disposer left.
pub fn kept_number_is_handed_on()
    ensures loaded { text_starts keeping_loaded ≡ (1, m, []) ∷ [] }
    ensures replaced { text_starts keeping_replaced ≡
        (1, m, []) ∷ (2, m, (codes "n", Num (pos 1)) ∷ []) ∷ [] }
{}

/// A text sees the constant of another, and its callback assigns the new one. It isn't made anew: its
/// import is of the old constant still, so that edge is stale.
pub fn seen_constant_is_updated()
    ensures loaded { values_in text_page seeing_loaded (1 ∷ 2 ∷ []) ≡
        holding (codes "n") 1 ∷ holding (codes "seen") 1 ∷ [] }
    ensures updated { values_in text_page seeing_updated (1 ∷ 2 ∷ 3 ∷ []) ≡
        holding (codes "n") 1 ∷ holding (codes "seen") 2 ∷ holding (codes "n") 2 ∷ [] }
    ensures fates { text_fates 1 seeing_updated ≡
        Some ((1, x, Replaced 3) ∷ (2, m, Live) ∷ (3, x, Live) ∷ []) }
    ensures stale { text_stale 1 seeing_updated ≡ Some ((m, x) ∷ []) }
{}

/// A callback of the text that saw the constant assigned, and then a reload ended that text's instance. No
/// edge is stale, and the live instances hold what those of a page that is loaded anew do, though a run of a
/// handler assigned.
pub fn ended_text_had_assigned()
    ensures ended { values_in text_page seeing_reloaded (2 ∷ []) ≡ holding (codes "seen") 2 ∷ [] }
    ensures live { values_in text_page seeing_reloaded (4 ∷ 5 ∷ []) ≡
        holding (codes "n") 2 ∷ holding (codes "seen") 2 ∷ [] }
    ensures anew { valued_anew text_page seeing_reloaded ≡
        (x, record { status = Done; values = holding (codes "n") 2 }) ∷
        (m, record { status = Done; values = holding (codes "seen") 2 }) ∷ [] }
    ensures fates { text_fates 1 seeing_reloaded ≡
        Some ((1, x, Replaced 3) ∷ (2, m, Reloaded) ∷ (3, x, Reloaded) ∷ (4, x, Live) ∷ (5, m, Live) ∷ []) }
    ensures stale { text_stale 1 seeing_reloaded ≡ Some [] }
{}

/// A leaf that accepts itself is replaced below its importer, which sees the old constant still: the edge
/// from the importer to the leaf is stale.
pub fn self_accepting_leaf_leaves_a_stale_edge()
    ensures values { values_in text_page leaf_updated (1 ∷ 2 ∷ 3 ∷ []) ≡
        holding (codes "n") 1 ∷ holding (codes "seen") 1 ∷ holding (codes "n") 2 ∷ [] }
    ensures fates { text_fates 1 leaf_updated ≡
        Some ((1, x, Replaced 3) ∷ (2, m, Live) ∷ (3, x, Live) ∷ []) }
    ensures stale { text_stale 1 leaf_updated ≡ Some ((m, x) ∷ []) }
{}

/// A callback of the old constant invalidates the new one: its importer, which accepts itself, is made
/// anew over the new constant. The page of a second client, which made no turn since, stays as it is.
pub fn invalidation_concerns_its_client_alone()
    ensures first { text_fates 1 invalidated ≡
        Some ((1, x, Replaced 3) ∷ (2, m, Replaced 4) ∷ (3, x, Live) ∷ (4, m, Live) ∷ []) }
    ensures second { text_fates 2 invalidated ≡ Some ((1, x, Live) ∷ (2, m, Live) ∷ []) }
{}
