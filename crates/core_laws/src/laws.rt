// Laws of the core, for every list of events.
ghost use Rattle.std.specs.Prelude.{◌≡◌, ◌↔◌, ℕ, ◌==◌, true, false, List, [], ◌∷◌, Option, Some, None};
ghost use Rattle.std.specs.Prelude.{is_some, IfSome, All};
ghost use Rattle.hmr_types.specs.declared.analysis.Analysis.{Analysis};
ghost use Rattle.hmr_types.specs.declared.analysis.Outcome.{Outcome};
ghost use Rattle.hmr_types.specs.declared.words.ReloadCause.{ReloadCause};
ghost use Rattle.update_msgs.specs.declared.message.ServerMsg.TheVariants as msg;
ghost use Rattle.hmr_types.specs.Table.{is_table};
ghost use Rattle.core_model.specs.Sent.{IsReloadSent};
ghost use Rattle.core_model.specs.Names.{Name, at};
ghost use Rattle.core_model.specs.Sources.{Sources, Text, Change, edit, same, serve, late, result_answer};
ghost use Rattle.core_model.specs.Sources.{sources_after};
ghost use Rattle.core_model.specs.Sources as sources;
ghost use Rattle.core_model.specs.Spread.{IsReloadWanted, reason_of, cause_of};
ghost use Rattle.core_model.specs.View.{View, differs, declines};
ghost use Rattle.core_model.specs.Page.{Plan};
ghost use Rattle.core_model.specs.Client.{Client, triggered, next_batch};
ghost use Rattle.core_model.specs.Requests.{Request, ask, applied_as, heard, edited, settled, to_client};
ghost use Rattle.core_model.specs.Core.{Core, Event, change, connect, request, disconnect, client_at};
ghost use Rattle.core_model.specs.Core.{told_of, changes_of, step, core_after, replay, replies};
ghost use Rattle.core_model.specs.Formed.{IsFormed};
ghost use Rattle.core_model.specs.Transcript.{IsTrueEvent};
ghost use Rattle.core_laws.specs.Given.{analysis_given, entry_of};
ghost use Rattle.core_laws.specs.Truth.{IsTrueChange, IsOfText, IsTrueEntry};
ghost use Rattle.core_laws.specs.Written.{written, IsWritten, IsServedWritten};
ghost use Rattle.core_laws.specs.Facts.{SourcesFacts, ClientFacts, IsClosed, IsServed, SamePage};
ghost use Rattle.core_laws.specs.Kept.{CoreFacts, TextFacts, given_by, written_after};
ghost use Rattle.core_laws.specs.Fresh.{IsUpToDate, IsFreshLoad};
ghost use Rattle.core_laws.specs.Reloading.{IsFullReload, IsReloadDue};
ghost use Rattle.core_laws.specs.Refusing.{is_refusal};
ghost use Rattle.core_laws.specs.Answering.{IsIdle, IsApplied, IsAppliedAs};
ghost use Rattle.core_laws.specs.Ranges.{CoreFits, IsWritableReply};
ghost use Rattle.core_laws.specs.Settled.{AllAreGood, of_source, of_serving};
ghost use Rattle.core_laws.specs.Batch.{Turn, AreCalm, names_changed};
ghost use Rattle.core_laws.specs.Isolated.{AreNumbered, concerns, without_others, replies_without_others};

/// Each event keeps the facts, from any core that has them, and so does every list of events. Of the
/// sources: each is of a counted edit, and is served where its result was good. Of each connected client:
/// a loaded page holds every root and every import of its modules, and one that isn't loaded is empty;
/// each module has the analysis that its version was served with; a forced module accepts itself; a load
/// is of a page that isn't loaded, a reload or an update of a loaded one of which nothing is dropped; an
/// update replaces all that a change passes on to; and where nothing was served or removed since a plan
/// began, all that it fetched is what is served, and all that it keeps.
pub fn facts_are_kept()
    ensures step { (roots : List Name) (by : Name → ℕ → Option Analysis) (core : Core) (event : Event) →
        CoreFacts by core → CoreFacts (given_by core by event) (step roots core event).0 }
    ensures sources { (past : List Change) → SourcesFacts (analysis_given past) (sources_after past) }
    ensures clients { (roots : List Name) (past : List Event) (i : ℕ) →
        IfSome (client_at (core_after roots past).clients i)
        (ClientFacts (analysis_given (changes_of past)) (core_after roots past).sources) }
{}

/// A version of a module is served once at most, and the analysis that it was served with stays known.
pub fn version_is_served_once()
    ensures once { (past : List Change) (n : Name) (t : Text) (o : Outcome) (v : ℕ) (a : Analysis) →
        result_answer (sources_after past) n t o v ≡ serve a → analysis_given past n v ≡ None }
    ensures stays { (past : List Change) (ch : Change) (n : Name) (v : ℕ) (a : Analysis) →
        analysis_given past n v ≡ Some a → analysis_given (ch ∷ past) n v ≡ Some a }
{}

/// The current source of a name, and what is served of it, each has the text of the edit of that name
/// that was counted as its version; and the text of a version stays known.
pub fn a_version_is_one_text()
    ensures step { (by : Name → ℕ → Option Text) (s : Sources) (ch : Change) →
        TextFacts by s → TextFacts (written_after s by ch) (sources.changed_by s ch) }
    ensures current { (past : List Change) (n : Name) →
        IsWritten (written past n) (at (sources_after past).current n) }
    ensures served { (past : List Change) (n : Name) →
        IsServedWritten (written past n) (at (sources_after past).served n) }
    ensures stays { (past : List Change) (ch : Change) (n : Name) (v : ℕ) (t : Text) →
        written past n v ≡ Some t → written (ch ∷ past) n v ≡ Some t }
{}

/// A module of a page whose version is the served one is what is served, and so is a module that was
/// fetched for the plan under way.
pub fn version_decides_the_module()
    ensures view { (roots : List Name) (past : List Event) (i : ℕ) (n : Name) →
        let core : Core = core_after roots past in
        IfSome (client_at core.clients i)
        (λ c. differs (at c.page.view n) (at core.sources.served n) ≡ false →
        IsServed (at c.page.view n) (at core.sources.served n)) }
    ensures staged { (roots : List Name) (past : List Event) (i : ℕ) (n : Name) →
        let core : Core = core_after roots past in
        IfSome (client_at core.clients i) (λ c. IfSome c.page.plan
        (λ p. differs (at p.staged n) (at core.sources.served n) ≡ false →
        IsServed (at p.staged n) (at core.sources.served n))) }
{}

/// While a plan is under way the page's modules and its forced names stay: a request after which a
/// plan is still under way leaves them, and so does each edit and each result.
pub fn page_stays_during_a_plan()
    ensures request { (i : ℕ) (s : Sources) (c : Client) (r : Request) (p q : Plan) →
        c.page.plan ≡ Some p → (heard i s c r).0.page.plan ≡ Some q → SamePage c (heard i s c r).0 }
    ensures change { (s : Sources) (ch : Change) (c : Client) → (told_of s ch c).page ≡ c.page }
{}

/// A loaded page with nothing changed and nothing dropped is exactly a fresh load of what is served:
/// the same modules in the same order, at the same versions; and the fresh load misses nothing.
pub fn caught_up_is_fresh()
    ensures { (roots : List Name) (past : List Event) (i : ℕ) →
        let core : Core = core_after roots past in
        IfSome (client_at core.clients i)
        (λ c. IsUpToDate core.sources c → IsFreshLoad core.sources c) }
{}

/// An Ask of a connected client is answered by a full reload exactly where no plan is under way, no
/// notice waits, the page is loaded, nothing is dropped, the client isn't held, and an unaccepted path
/// ends badly: at a module that declines, or at a root that doesn't accept itself or is forced. What is
/// told is the least such path, which of the two its end is, the number of the batch, and what
/// triggered it.
pub fn full_reload_is_answered_exactly()
    ensures exactly { (roots : List Name) (core : Core) (i : ℕ) (c : Client) →
        client_at core.clients i ≡ Some c →
        IsFullReload (step roots core (request i ask)).1 ↔ IsReloadDue core.sources c }
    ensures told { (roots : List Name) (core : Core) (i : ℕ) (c : Client) (cause : ReloadCause)
        (path : List Name) (batch : ℕ) (names : List Name) → client_at core.clients i ≡ Some c →
        ((step roots core (request i ask)).1 ≡ to_client (msg.FullReload cause path batch names)) ↔
        ((cause ≡ cause_of c.page.view path) × (batch ≡ next_batch c.batches) ×
        (names ≡ triggered core.sources c) × IsReloadSent core.sources c path) }
{}

/// Each connected client has one record, under a number that was given.
pub fn clients_are_numbered()
    ensures step { (roots : List Name) (core : Core) (event : Event) →
        AreNumbered core → AreNumbered (step roots core event).0 }
    ensures always { (roots : List Name) (past : List Event) → AreNumbered (core_after roots past) }
{}

/// A request of one client leaves the record of every other client as it was; and so does a client
/// that goes, and one that comes.
pub fn clients_leave_one_another()
    ensures request { (roots : List Name) (core : Core) (i j : ℕ) (r : Request) → (i == j) ≡ false →
        client_at (step roots core (request i r)).0.clients j ≡ client_at core.clients j }
    ensures disconnect { (roots : List Name) (core : Core) (i j : ℕ) → (i == j) ≡ false →
        client_at (step roots core (disconnect i)).0.clients j ≡ client_at core.clients j }
    ensures connect { (roots : List Name) (past : List Event) (names : List Name) (j : ℕ) →
        is_some (client_at (core_after roots past).clients j) ≡ true →
        client_at (core_after roots (connect names ∷ past)).clients j ≡
        client_at (core_after roots past).clients j }
{}

/// Leaving out all requests of other clients changes nothing in a client's record, nothing in the
/// sources, and no reply: neither to the client, nor to an edit, a result, or a client that comes or
/// goes. `record`, `sources` and `reply` say it of what came before, the newest event first;
/// `replayed` and `replies` of events in their order.
pub fn requests_of_others_change_nothing()
    ensures record { (roots : List Name) (d : ℕ) (past : List Event) →
        client_at (core_after roots (without_others d past)).clients d ≡
        client_at (core_after roots past).clients d }
    ensures sources { (roots : List Name) (d : ℕ) (past : List Event) →
        (core_after roots (without_others d past)).sources ≡ (core_after roots past).sources }
    ensures reply { (roots : List Name) (d : ℕ) (past : List Event) (event : Event) →
        concerns d event ≡ true → (step roots (core_after roots (without_others d past)) event).1 ≡
        (step roots (core_after roots past) event).1 }
    ensures replayed { (roots : List Name) (d : ℕ) (events : List Event) →
        client_at (replay roots (without_others d events)).clients d ≡
        client_at (replay roots events).clients d }
    ensures replies { (roots : List Name) (d : ℕ) (past events : List Event) →
        replies roots (core_after roots past) (without_others d events) ≡
        replies_without_others d roots (core_after roots past) events }
{}

/// Where no job is outstanding and no current source was refused, what is served of each name is its
/// current source: the same version and the same text, and nothing where there is none.
pub fn good_sources_are_served()
    ensures { (roots : List Name) (past : List Event) → AllAreGood (core_after roots past).sources →
        (n : Name) → of_serving (at (core_after roots past).sources.served n) ≡
        of_source (at (core_after roots past).sources.current n) }
{}

/// Changes that are applied one by one, none of which wants a reload, want none when they come all at
/// once, whatever their updates fetch: where the view holds each root and each import, no module of it
/// declines, and nothing is forced.
pub fn batch_wants_no_reload()
    ensures wanted { (roots : List Name) (view : View) (turns : List Turn) →
        IsClosed roots view → ((n : Name) → declines view n ≡ false) → AreCalm roots view turns →
        IsReloadWanted view roots (names_changed turns) [] → ⊥ }
    ensures computed { (roots : List Name) (view : View) (turns : List Turn) →
        IsClosed roots view → ((n : Name) → declines view n ≡ false) → AreCalm roots view turns →
        reason_of view roots (names_changed turns) [] ≡ None }
{}

/// A refused event changes nothing in the core, whatever was refused: an edit, a client that comes, a
/// request, or a client that goes. Nor does an edit that brings the text that is there, or a late result.
pub fn refused_event_changes_nothing()
    ensures refused { (roots : List Name) (core : Core) (event : Event) →
        is_refusal (step roots core event).1 ≡ true → (step roots core event).0 ≡ core }
    ensures same { (roots : List Name) (core : Core) (n : Name) (t : Option Text) →
        (step roots core (change (edit n t))).1 ≡ edited same →
        (step roots core (change (edit n t))).0 ≡ core }
    ensures late { (roots : List Name) (core : Core) (n : Name) (t : Text) (o : Outcome) (v : ℕ) →
        (step roots core (change (sources.result n t o v))).1 ≡ settled late →
        (step roots core (change (sources.result n t o v))).0 ≡ core }
{}

/// After every list of events an Ask of a connected client is answered Idle exactly where no plan is
/// under way and no notice waits, and the client is held with nothing to prune, or its page is up to date
/// and none of its modules was invalidated.
pub fn idle_is_answered_exactly()
    ensures { (roots : List Name) (past : List Event) (i : ℕ) (c : Client) →
        client_at (core_after roots past).clients i ≡ Some c →
        ((step roots (core_after roots past) (request i ask)).1 ≡ to_client msg.Idle) ↔
        IsIdle (core_after roots past).sources c }
{}

/// An Applied of a connected client is answered Done exactly where a plan is under way, nothing is left to
/// fetch for it, and what is told has at each name the version of the view that the plan makes, 0 where it
/// has none. A table, after events that are well formed, is then that view's.
pub fn done_is_answered_exactly()
    ensures versions { (roots : List Name) (core : Core) (i : ℕ) (c : Client) (table : List (Name × ℕ)) →
        client_at core.clients i ≡ Some c →
        ((step roots core (request i (applied_as table))).1 ≡ to_client msg.Done) ↔ IsApplied c table }
    ensures table { (roots : List Name) (past : List Event) (i : ℕ) (c : Client) (table : List (Name × ℕ)) →
        All IsFormed past → is_table table ≡ true → client_at (core_after roots past).clients i ≡ Some c →
        ((step roots (core_after roots past) (request i (applied_as table))).1 ≡ to_client msg.Done) ↔
        IsAppliedAs c table }
{}

/// An event that is well formed keeps each number of the core in its range, from any core that has them
/// there: versions lie in 1 to 2^53 - 1, client numbers in 1 to 4,294,967,295, batches up to 2^53 - 1, and
/// texts have at most 131,072 bytes. The reply, where it is a message, can then be written in each format:
/// so it is after every list of such events.
pub fn messages_can_be_written()
    ensures kept { (roots : List Name) (core : Core) (event : Event) →
        CoreFits core → IsFormed event → CoreFits (step roots core event).0 }
    ensures reply { (roots : List Name) (core : Core) (event : Event) →
        CoreFits core → IsFormed event → IsWritableReply (step roots core event).1 }
    ensures always { (roots : List Name) (past : List Event) →
        All IsFormed past → CoreFits (core_after roots past) }
    ensures written { (roots : List Name) (past : List Event) (event : Event) →
        All IsFormed (event ∷ past) → IsWritableReply (step roots (core_after roots past) event).1 }
{}

/// Where each result is what transforming its text gives, the analysis that a version was served with is
/// that of the text of the counted edit of that version; and so is that of each module that is served,
/// that stands on a page, or that was fetched for the plan under way.
pub fn true_results_are_of_the_texts()
    ensures given { (transformed : Name → Text → Outcome) (past : List Change) →
        All (IsTrueChange transformed) past → (n : Name) (v : ℕ) (a : Analysis) →
        analysis_given past n v ≡ Some a → IsOfText transformed (written past) n v a }
    ensures served { (transformed : Name → Text → Outcome) (roots : List Name) (past : List Event) →
        All (IsTrueEvent transformed) past → (n : Name) →
        IfSome (entry_of (at (core_after roots past).sources.served n))
        (IsTrueEntry transformed (written (changes_of past)) n) }
    ensures view { (transformed : Name → Text → Outcome) (roots : List Name) (past : List Event) →
        All (IsTrueEvent transformed) past → (i : ℕ) (n : Name) →
        IfSome (client_at (core_after roots past).clients i)
        (λ c. IfSome (at c.page.view n) (IsTrueEntry transformed (written (changes_of past)) n)) }
    ensures staged { (transformed : Name → Text → Outcome) (roots : List Name) (past : List Event) →
        All (IsTrueEvent transformed) past → (i : ℕ) (n : Name) →
        IfSome (client_at (core_after roots past).clients i) (λ c. IfSome c.page.plan
        (λ p. IfSome (at p.staged n) (IsTrueEntry transformed (written (changes_of past)) n))) }
{}
