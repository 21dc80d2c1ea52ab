// The live instances of each open client and the texts that it fetched, and the versions that they are of.
ghost use Rattle.std.specs.Prelude.{◌≡◌, ℕ, List, Some};
ghost use Rattle.update_msgs.specs.Writable.{IsSayable};
ghost use Rattle.core_model.specs.Names.{Name, at};
ghost use Rattle.core_model.specs.Sources.{Text, sources_after};
ghost use Rattle.core_model.specs.Core.{client_at};
ghost use Rattle.core_laws.specs.Written.{written, IsServedWritten};
ghost use Rattle.client_model.specs.Language.{Language};
ghost use Rattle.client_model.specs.Runtime.{Runtime};
ghost use Rattle.client_model.specs.Requesting.{request};
ghost use Rattle.world_model.specs.World.{Step};
ghost use Rattle.world_model.specs.Steps.{world_after};
ghost use Rattle.world_model.specs.Ties.{WentOn};
ghost use Rattle.world_laws.specs.Changes.{changes_in};
ghost use Rattle.world_laws.specs.Unsent.{AreUnsentVersions};
ghost use Rattle.world_laws.specs.Versions.{AreFetched, AreOfPage, AreServedSame};

/// The sources of the world are those that its edits and results make; so what is served of a name has
/// the text of the edit that was counted as its version.
pub fn sources_follow_their_changes()
    ensures sources { (language : Language) (roots : List Name) (shelves : List (List (Text × ℕ)))
        (past : List Step) → (world_after language roots shelves past).core.sources ≡
        sources_after (changes_in language roots shelves past) }
    ensures served { (language : Language) (roots : List Name) (shelves : List (List (Text × ℕ)))
        (past : List Step) (n : Name) → let w = world_after language roots shelves past in
        IsServedWritten (written (changes_in language roots shelves past) n) (at w.core.sources.served n) }
{}

/// After every list of steps, each live instance of each open client is of its page's module of its
/// name: it has that module's version and exports, its text is that of the edit that was counted as its
/// version, and transforming the text gives that module's analysis. So where the name is served at this
/// version, the served text is the instance's, and the served analysis is the page's.
pub fn instances_are_of_their_versions()
    ensures page { (language : Language) (roots : List Name) (shelves : List (List (Text × ℕ)))
        (past : List Step) (i : ℕ) → let w = world_after language roots shelves past in
        AreOfPage language (written (changes_in language roots shelves past)) (client_at w.clients i) }
    ensures served { (language : Language) (roots : List Name) (shelves : List (List (Text × ℕ)))
        (past : List Step)
        (i : ℕ) → let w = world_after language roots shelves past in WentOn language roots shelves past →
        AreServedSame w.core.sources.served (client_at w.clients i) }
{}

/// After every list of steps, each module that an open client fetched for its plan has its text, which is
/// that of the edit that was counted as its version; and transforming the text gives the module's analysis.
pub fn fetched_texts_are_of_their_versions()
    ensures { (language : Language) (roots : List Name) (shelves : List (List (Text × ℕ))) (past : List Step)
        (i : ℕ) → let w = world_after language roots shelves past in
        AreFetched language (written (changes_in language roots shelves past)) (client_at w.clients i) }
{}

/// After every list of steps, each invalidation that an open client hasn't sent has a version as a counted
/// edit has one, from 1 to 2^53 - 1, and never 0, that of no module; so the request of each open client can
/// be written.
pub fn requests_can_be_written()
    ensures unsent { (language : Language) (roots : List Name) (shelves : List (List (Text × ℕ)))
        (past : List Step) (i : ℕ) (r : Runtime) →
        client_at (world_after language roots shelves past).clients i ≡ Some r → AreUnsentVersions r }
    ensures requests { (language : Language) (roots : List Name) (shelves : List (List (Text × ℕ)))
        (past : List Step) (i : ℕ) (r : Runtime) → WentOn language roots shelves past →
        client_at (world_after language roots shelves past).clients i ≡ Some r →
        IsSayable (request language r) }
{}
