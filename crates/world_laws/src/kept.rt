// What each step of the world keeps, from any world that has it, and what each thing that comes to a client
// keeps, from any client that has it.
ghost use Rattle.std.specs.Prelude.{◌≡◌, ℕ, true, List, is_some};
ghost use Rattle.core_model.specs.Names.{Name};
ghost use Rattle.core_model.specs.Sources.{Text};
ghost use Rattle.client_model.specs.Language.{Language};
ghost use Rattle.client_model.specs.Runtime.{Runtime, Opening, new_runtime};
ghost use Rattle.client_model.specs.Past.{Incoming, met};
ghost use Rattle.world_model.specs.World.{World, Step, new_world};
ghost use Rattle.world_model.specs.Steps.{world_step};
ghost use Rattle.world_laws.specs.Kept.{WorldFacts};
ghost use Rattle.world_laws.specs.KeptClient.{ClientFacts, HaveFacts};

/// The world before any step has its facts, and each step that goes on keeps them, from any world that has
/// them: those of the core's sources and records, what ties each open client to its record, that what is
/// served is what transforming its text gives, and what holds of each plan under way and of the cause to
/// give it up.
pub fn world_facts_are_kept()
    ensures first { (language : Language) → WorldFacts language new_world }
    ensures step { (language : Language) (roots : List Name) (shelves : List (List (Text × ℕ)))
        (w : World) (s : Step) →
        WorldFacts language w → is_some (world_step language roots shelves w s).lines ≡ true →
        WorldFacts language (world_step language roots shelves w s).world }
{}

/// A client that took nothing has its facts, and each message and each event that is fired at its page
/// keeps them, from any client that has them: each instance has as its number the place at which it was
/// made; each link is of an import, to an instance of the import's name that exports what the text
/// imports; a name has one live instance where the page has a module of it, of the module's version and
/// exports, and else none; and what was fetched for the plan under way has its text. So each step of the
/// world keeps the facts of its open clients, from any world whose clients have them.
pub fn client_facts_are_kept()
    ensures first { (language : Language) (opening : Opening) → ClientFacts language (new_runtime opening) }
    ensures step { (language : Language) (r : Runtime) (came : Incoming) →
        ClientFacts language r → ClientFacts language (met language came r).0 }
    ensures world { (language : Language) (roots : List Name) (shelves : List (List (Text × ℕ)))
        (w : World) (s : Step) →
        HaveFacts language w → HaveFacts language (world_step language roots shelves w s).world }
{}
