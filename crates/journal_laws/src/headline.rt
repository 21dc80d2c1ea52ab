// What this product promises, in one place. The headline:
//
//     Over every interleaving of edits, transform results, fetches and client events, a caught-up client
//     holds, by name and version, exactly a fresh load of the served sources, of its own roots; its stale
//     bindings are exactly the edges at which applied updates stopped; each replaced or pruned instance ran
//     its held disposer once, its data reaching only its successor; a full reload is sent exactly where an
//     unaccepted path reaches a root or a module that declines.
//
// Each part is a clause below, of every run: any list of steps of the world, in the module language.
ghost use Rattle.std.specs.Prelude.{◌≡◌, ◌↔◌, ℕ, [], Contains};
ghost use Rattle.core_model.specs.Names.{Name};
ghost use Rattle.core_model.specs.FreshLoad.{fresh_table, missing_of};
ghost use Rattle.core_model.specs.Roots.{roots_or};
ghost use Rattle.core_model.specs.Client.{Client};
ghost use Rattle.core_laws.specs.Reloading.{IsFullReload};
ghost use Rattle.client_model.specs.Runtime.{Runtime};
ghost use Rattle.client_model.specs.Stale.{IsStale};
ghost use Rattle.client_model.specs.Past.{journal_of};
ghost use Rattle.module_language.specs.ModuleLanguage.{module_language};
ghost use Rattle.world_model.specs.CaughtUp.{IsCaughtUp, largest_debt};
ghost use Rattle.world_laws.specs.Instances.{IsLiveAs};
ghost use Rattle.world_laws.specs.Stops.{IsStopped};
ghost use Rattle.world_laws.specs.Quiet.{IsSettled, AreQuiet, IsUpAmongLooks};
ghost use Rattle.journal_laws.specs.Counts.{AreDisposedOnce};
ghost use Rattle.journal_laws.specs.Data.{SuccessorsInherit, DisposersHandOn, OthersInheritNothing};
ghost use Rattle.world_laws.specs.Runs.{Run, sources_of, served_of, life_in, HasClient, next_reply};
ghost use Rattle.world_laws.specs.Runs.{IsReloadTurn};

/// The headline, part by part, of every run and of each client that is open in it. `r` is the client, and
/// `c` is what the server keeps of it. A run goes on as long as no client would make more instances than
/// it may.
///
/// `fresh_load`: a caught-up client holds exactly a fresh load of the served sources, of its own roots. A
/// name is in that load at a version exactly where a live instance of the name has that version.
///
/// `nothing_missing`: and that load reaches no module that isn't served.
///
/// `own_roots`: the client's own roots are those that it named when it came; where it named none, they are
/// the server's.
///
/// `stale_bindings`: the client is stale exactly at the edges at which applied updates stopped: each such
/// update made a new instance of the dependency in place of a live one, and left the importer's as it was.
///
/// `held_disposers`: of each instance that registered a disposer, one ran where it was replaced or pruned,
/// the one that was held; none ran of an instance that is live or was reloaded.
///
/// `data_to_the_successor`: an instance that took another's place started with the data that was left when
/// that one ended, and so (`data_of_disposers`) with what its disposer left. `data_to_no_other`: any other
/// instance started with none.
///
/// `full_reload`: the server answers the client's next request by a full reload exactly where the client
/// asks what there is to do, its page is loaded, it isn't held, it is to be told no fault and to prune
/// nothing first, and an unaccepted path from what is changed or invalidated reaches a root that doesn't
/// accept itself or is invalidated, or a module that declines.
///
/// `catches_up`: and a client does catch up. Where every result came and the fresh load of its roots is
/// whole, some number of its turns, at most the bound of its debt, leaves it caught up, with any shows,
/// values, fates and fresh loads between them; unless a turn invalidates further modules or makes more
/// instances than a client may have.
pub fn headline()
    ensures fresh_load { (run : Run) (i : ℕ) (c : Client) (r : Runtime) →
        HasClient run i c r → IsCaughtUp (sources_of run) c r →
        (n : Name) (v : ℕ) →
        Contains (fresh_table (served_of run) r.roots) (n, v) ↔ IsLiveAs r.instances n v }
    ensures nothing_missing { (run : Run) (i : ℕ) (c : Client) (r : Runtime) →
        HasClient run i c r → IsCaughtUp (sources_of run) c r → missing_of (served_of run) r.roots ≡ [] }
    ensures own_roots { (run : Run) (i : ℕ) (c : Client) (r : Runtime) →
        HasClient run i c r → r.roots ≡ roots_or (life_in run i).opening.roots run.roots }
    ensures stale_bindings { (run : Run) (i : ℕ) (c : Client) (r : Runtime) → let life = life_in run i in
        HasClient run i c r →
        (b x : Name) → IsStale r b x ↔ IsStopped module_language life.opening life.past b x }
    ensures held_disposers { (run : Run) (i : ℕ) (c : Client) (r : Runtime) → let life = life_in run i in
        HasClient run i c r → AreDisposedOnce r (journal_of module_language life.opening life.past) }
    ensures data_to_the_successor { (run : Run) (i : ℕ) (c : Client) (r : Runtime) →
        let life = life_in run i in
        HasClient run i c r → SuccessorsInherit r (journal_of module_language life.opening life.past) }
    ensures data_of_disposers { (run : Run) (i : ℕ) (c : Client) (r : Runtime) → let life = life_in run i in
        HasClient run i c r → DisposersHandOn r (journal_of module_language life.opening life.past) }
    ensures data_to_no_other { (run : Run) (i : ℕ) (c : Client) (r : Runtime) → let life = life_in run i in
        HasClient run i c r → OthersInheritNothing r (journal_of module_language life.opening life.past) }
    ensures full_reload { (run : Run) (i : ℕ) (c : Client) (r : Runtime) →
        HasClient run i c r → IsFullReload (next_reply run i r) ↔ IsReloadTurn run c r }
    ensures catches_up { (run : Run) (i : ℕ) (c : Client) (r : Runtime) →
        let most = largest_debt (sources_of run) c r in
        HasClient run i c r → IsSettled module_language c.roots (sources_of run) →
        AreQuiet module_language run.roots run.shelves i most run.steps →
        IsUpAmongLooks module_language run.roots run.shelves i most run.steps }
{}
