// What holds of every run of a client holds in the world.
ghost use Rattle.std.specs.Prelude.{List};
ghost use Rattle.core_model.specs.Names.{Name};
ghost use Rattle.client_model.specs.Language.{Language};
ghost use Rattle.journal_laws.specs.OfClients.{IsOfRun, OfEachClient};

/// Each open client of the world, and the journal of all that happened in it, are those of a run of a
/// client, after every list of steps. So what holds of a client and of its journal whatever came to it
/// holds of each open client of the world.
pub fn runs_are_of_the_world()
    ensures { (language : Language) (roots : List Name) → OfEachClient language roots (IsOfRun language) }
{}
