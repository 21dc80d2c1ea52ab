// Laws of the world: the two sides fit together.
ghost use Rattle.std.specs.Prelude.{ℕ, List};
ghost use Rattle.core_model.specs.Names.{Name};
ghost use Rattle.core_model.specs.Sources.{Text};
ghost use Rattle.client_model.specs.Language.{Language};
ghost use Rattle.world_model.specs.World.{Step};
ghost use Rattle.world_model.specs.Steps.{world_after};
ghost use Rattle.world_model.specs.Ties.{AreTied, AreServedRight, Understands, WentOn};

/// After every list of steps, each open client has of its page exactly what the core's record of it has.
pub fn clients_are_tied_to_their_records()
    ensures tied { (language : Language) (roots : List Name)
        (shelves : List (List (Text × ℕ))) (past : List Step) → WentOn language roots shelves past →
        AreTied (world_after language roots shelves past) }
    ensures served { (language : Language) (roots : List Name)
        (shelves : List (List (Text × ℕ))) (past : List Step) → WentOn language roots shelves past →
        AreServedRight language (world_after language roots shelves past).core.sources.served }
{}

/// In every turn the core's answer is one to the request that stands: nothing is out of turn, no fetch
/// is forgotten, and no table differs.
pub fn every_answer_is_understood()
    ensures { (language : Language) (roots : List Name)
        (shelves : List (List (Text × ℕ))) (past : List Step) → WentOn language roots shelves past →
        Understands language roots (world_after language roots shelves past) }
{}
