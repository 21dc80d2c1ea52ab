// Laws of the definitions: what is computed is what the relations say.
ghost use Rattle.std.specs.Prelude.{◌≡◌, ◌↔◌, ℕ, Bool, true, List, [], ◌∷◌, ◌++◌, None, IfSome, IfNone};
ghost use Rattle.std.specs.Prelude.{Contains, if◌then◌else◌};
ghost use Rattle.core_model.specs.Names.{Name, has, at, names_of, rising};
ghost use Rattle.core_model.specs.Paths.{Reaches};
ghost use Rattle.core_model.specs.Rounds.{IsOver, reached_of};
ghost use Rattle.core_model.specs.View.{View, imports, IsDropped, dropped_of, table_of};
ghost use Rattle.core_model.specs.Spread.{IsReason, reason_of, IsReloadWanted, IsReplaced, replaced_of};
ghost use Rattle.core_model.specs.Spread.{AreIn, IsPair, pairs_of};
ghost use Rattle.core_model.specs.Page.{Plan, new_plan, plan_imports, met_of, unfetched_of, new_entry};
ghost use Rattle.core_model.specs.Page.{new_view};
ghost use Rattle.hmr_types.specs.Table.{rises};
ghost use Rattle.core_model.specs.FreshLoad as fresh;
ghost use Rattle.core_model.specs.FreshLoad.{Served, reached_by, version_in, fresh_table, missing_of};
ghost use Rattle.core_model.specs.FreshLoad.{unlinked_of};
ghost use Rattle.core_model.specs.Sources.{Sources, Text, Change, sources_after};
ghost use Rattle.core_model.specs.Client.{Client};
ghost use Rattle.core_model.specs.Asking.{ask_row, reload};
ghost use Rattle.core_model.specs.Sent.{IsReloadSent};
ghost use Rattle.core_model.specs.Core.{Event, step, core_after, replay, changes_of};
ghost use Rattle.hmr_types.specs.declared.words.PlanKind.TheVariants.{Update};
ghost use Rattle.core_model.specs.LookBack.{counted_edits, last_edit, last_good, source_edit};
ghost use Rattle.core_model.specs.Ordered.{IsBelow, IsPairBelow, IsTripleBelow, Rises};
ghost use Rattle.core_model.specs.Members.{IsLoaded, IsMissing, IsUnlinked, IsUnfetched};
ghost use Rattle.core_model.specs.LeastPath.{IsLeastPath, least_path_of};

/// As many rounds as there are names give exactly what some list of names reaches by edges.
pub fn rounds_reach()
    ensures { (edge : Name → Name → Bool) (names starts : List Name) → IsOver edge names → (m : Name) →
        (has (reached_of edge names starts) m ≡ true) ↔ Reaches edge starts m }
{}

/// There is at most one least path.
pub fn one_least_path()
    ensures { (edge : Name → Name → Bool) (starts : List Name) (bad : Name → Bool) (p q : List Name) →
        IsLeastPath edge starts bad p → IsLeastPath edge starts bad q → p ≡ q }
{}

/// The computed path is the least with a bad end, and where none is computed no path has a bad end.
pub fn least_path_is_computed()
    ensures some { (edge : Name → Name → Bool) (names starts : List Name) (bad : Name → Bool) →
        IsOver edge names → IfSome (least_path_of edge names starts bad) (IsLeastPath edge starts bad) }
    ensures none { (edge : Name → Name → Bool) (names starts : List Name) (bad : Name → Bool) →
        IsOver edge names → IfNone (least_path_of edge names starts bad) ((m : Name) →
        Reaches edge starts m → bad m ≡ true → ⊥) }
{}

/// The computed dropped names are the modules of the view that no list of imports from a root reaches.
pub fn dropped_is_computed()
    ensures { (view : View) (roots : List Name) (n : Name) →
        Contains (dropped_of view roots) n ↔ IsDropped view roots n }
{}

/// A module that is no root, and that only dropped modules import, is dropped.
pub fn dropped_is_closed()
    ensures { (view : View) (roots : List Name) (n : Name) → Contains (names_of view) n →
        (Contains roots n → ⊥) → ((m : Name) → imports view m n ≡ true → IsDropped view roots m) →
        IsDropped view roots n }
{}

/// The computed reason is the least unaccepted path that ends badly, and where none is computed no
/// reload is wanted.
pub fn reason_is_computed()
    ensures some { (view : View) (roots changed forced : List Name) →
        IfSome (reason_of view roots changed forced) (IsReason view roots changed forced) }
    ensures none { (view : View) (roots changed forced : List Name) →
        IfNone (reason_of view roots changed forced) (IsReloadWanted view roots changed forced → ⊥) }
{}

/// The computed names are those that are changed, or that a change is passed to.
pub fn replaced_is_computed()
    ensures { (view : View) (changed forced : List Name) (m : Name) →
        Contains (replaced_of view changed forced) m ↔ IsReplaced view changed forced m }
{}

/// The computed pairs are the pairs: a replaced module that accepts itself, and a module that stays and
/// accepts one that is replaced or forced.
pub fn pairs_are_computed()
    ensures { (view : View) (changed forced : List Name) → AreIn changed view → AreIn forced view →
        (m n : Name) → Contains (pairs_of view (replaced_of view changed forced) forced) (m, n) ↔
        IsPair view changed forced m n }
{}

/// The computed names are those that a plan's walk meets.
pub fn met_is_computed()
    ensures { (roots : List Name) (p : Plan) (view : View) (m : Name) →
        (has (met_of roots p view) m ≡ true) ↔ Reaches (plan_imports p view) roots m }
{}

/// What the view that a plan makes has at a name: the plan's entry where the walk meets it, and else
/// what becomes of it unmet.
pub fn new_view_is_by_name()
    ensures { (roots : List Name) (p : Plan) (view : View) (n : Name) →
        at (new_view roots p view) n ≡ new_entry (has (met_of roots p view) n) p view n }
{}

/// An update that replaces nothing, and for which nothing was fetched, leaves the view as it was.
pub fn empty_update_changes_nothing()
    ensures { (roots : List Name) (view : View) (n : Name) →
        at (new_view roots (new_plan Update []) view) n ≡ at view n }
{}

/// A fresh load has exactly what imports of served sources reach from the roots, each at its served
/// version.
pub fn fresh_load_is_what_is_reached()
    ensures reached { (served : Served) (roots : List Name) (m : Name) →
        (has (reached_by served roots) m ≡ true) ↔ Reaches (fresh.imports served) roots m }
    ensures members { (served : Served) (roots : List Name) (n : Name) (v : ℕ) →
        Contains (fresh_table served roots) (n, v) ↔ IsLoaded served roots n v }
    ensures table { (served : Served) (roots : List Name) (n : Name) → at (fresh_table served roots) n ≡
        (if has (reached_by served roots) n then version_in (at served n) else None) }
{}

/// The replay of a list with one event more is the step of the replay.
pub fn replay_of_one_more_is_a_step()
    ensures { (roots : List Name) (events : List Event) (event : Event) →
        replay roots (events ++ event ∷ []) ≡ (step roots (replay roots events) event).0 }
{}

/// The core's sources look back at the edits and results alone.
pub fn sources_are_of_the_changes()
    ensures { (roots : List Name) (past : List Event) →
        (core_after roots past).sources ≡ sources_after (changes_of past) }
{}

/// An Ask is answered by a full reload exactly where no plan is under way, no notice waits, the page is
/// loaded, nothing is dropped, the client isn't held, and an unaccepted path ends badly; the path that
/// is told is the least such path.
pub fn reload_is_sent_exactly()
    ensures { (s : Sources) (c : Client) (path : List Name) →
        (ask_row s c ≡ reload path) ↔ IsReloadSent s c path }
{}

/// The view that a plan makes rises by name, and so does its table; so do the dropped and the replaced
/// names.
pub fn lists_of_names_rise()
    ensures view { (roots : List Name) (p : Plan) (view : View) →
        rising (names_of (new_view roots p view)) ≡ true }
    ensures table { (roots : List Name) (p : Plan) (view : View) →
        rises (table_of (new_view roots p view)) ≡ true }
    ensures dropped { (view : View) (roots : List Name) → rising (dropped_of view roots) ≡ true }
    ensures replaced { (view : View) (changed forced : List Name) →
        rising (replaced_of view changed forced) ≡ true }
    ensures fresh { (served : Served) (roots : List Name) →
        rising (names_of (fresh_table served roots)) ≡ true }
{}

/// The computed missing names are those that imports reach and that aren't served, rising by bytes.
pub fn missing_is_computed()
    ensures members { (served : Served) (roots : List Name) (n : Name) →
        Contains (missing_of served roots) n ↔ IsMissing served roots n }
    ensures order { (served : Served) (roots : List Name) → Rises IsBelow (missing_of served roots) }
{}

/// The computed unlinked imports are those of reached modules from served ones that don't export them,
/// rising by importer, then by dependency, then by what is imported.
pub fn unlinked_is_computed()
    ensures members { (links : Name → Text → List (Name × Name)) (served : Served) (roots : List Name)
        (n m x : Name) → Contains (unlinked_of links served roots) (n, m, x) ↔
        IsUnlinked links served roots n m x }
    ensures order { (links : Name → Text → List (Name × Name)) (served : Served) (roots : List Name) →
        Rises IsTripleBelow (unlinked_of links served roots) }
{}

/// The computed names that a plan has to fetch are those that its walk meets and that have no entry,
/// rising by bytes.
pub fn unfetched_is_computed()
    ensures members { (roots : List Name) (p : Plan) (view : View) (n : Name) →
        Contains (unfetched_of roots p view) n ↔ IsUnfetched roots p view n }
    ensures order { (roots : List Name) (p : Plan) (view : View) →
        Rises IsBelow (unfetched_of roots p view) }
{}

/// The computed pairs rise by boundary, and then by the module that it is told of.
pub fn pairs_rise()
    ensures { (view : View) (replaced forced : List Name) →
        Rises IsPairBelow (pairs_of view replaced forced) }
{}

/// The sources have what a look back at the edits and results gives: how many edits were counted; of each
/// name the last counted edit, as its current source; and the last good result with no removal after it,
/// as what is served.
pub fn sources_look_back()
    ensures counted { (past : List Change) → (sources_after past).counted ≡ counted_edits past }
    ensures current { (past : List Change) (n : Name) →
        source_edit (at (sources_after past).current n) ≡ last_edit past n }
    ensures served { (past : List Change) (n : Name) → at (sources_after past).served n ≡ last_good past n }
{}
