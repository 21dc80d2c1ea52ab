// Stale edges and the updates that stopped there, in the world.
ghost use Rattle.std.specs.Prelude.{ℕ, List};
ghost use Rattle.core_model.specs.Names.{Name};
ghost use Rattle.core_model.specs.Sources.{Text};
ghost use Rattle.core_model.specs.Core.{client_at};
ghost use Rattle.client_model.specs.Language.{Language};
ghost use Rattle.world_model.specs.World.{Step};
ghost use Rattle.world_model.specs.Steps.{world_after};
ghost use Rattle.world_model.specs.Ties.{WentOn};
ghost use Rattle.world_laws.specs.Taken.{life_of};
ghost use Rattle.world_laws.specs.Stops.{IsMadeBy, AreStops, AreListedStops, AreStopsAccepted};

/// After every list of steps each open client is what came to it since it was opened makes of a new one,
/// the messages of its server and the events that were fired at its page; so what holds of a client
/// whatever comes to it holds of it.
pub fn clients_follow_their_past()
    ensures { (language : Language) (roots : List Name) (shelves : List (List (Text × ℕ)))
        (past : List Step) (i : ℕ) →
        let life = life_of language roots shelves past i in WentOn language roots shelves past →
        IsMadeBy language life.opening life.past
        (client_at (world_after language roots shelves past).clients i) }
{}

/// After every list of steps each open client is stale exactly at the edges at which applied updates
/// stopped since the importer's instance was made: each such update made a new instance of the dependency
/// in place of a live one, and left the importer's as it was. Those are the edges that it lists as stale.
pub fn stale_edges_are_stops()
    ensures listed { (language : Language) (roots : List Name) (shelves : List (List (Text × ℕ)))
        (past : List Step) (i : ℕ) →
        let life = life_of language roots shelves past i in WentOn language roots shelves past →
        AreListedStops language life.opening life.past
        (client_at (world_after language roots shelves past).clients i) }
    ensures exactly { (language : Language) (roots : List Name) (shelves : List (List (Text × ℕ)))
        (past : List Step) (i : ℕ) →
        let life = life_of language roots shelves past i in WentOn language roots shelves past →
        AreStops language life.opening life.past
        (client_at (world_after language roots shelves past).clients i) }
{}

/// At each edge at which an update stopped whose walk met the importer, the importer accepted the
/// dependency, or the dependency accepted itself and wasn't forced. An importer that the walk didn't
/// meet is dropped: no root reaches it once the update is applied.
pub fn stops_are_accepted()
    ensures { (language : Language) (roots : List Name) (shelves : List (List (Text × ℕ)))
        (past : List Step) (i : ℕ) →
        let life = life_of language roots shelves past i in WentOn language roots shelves past →
        AreStopsAccepted language life.opening life.past
        (client_at (world_after language roots shelves past).clients i) }
{}
