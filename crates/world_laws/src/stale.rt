// At which edges a client is stale, and how they are listed.
ghost use Rattle.std.specs.Prelude.{◌≡◌, ◌↔◌, true, Contains, IsSome};
ghost use Rattle.core_model.specs.Names.{Name};
ghost use Rattle.core_model.specs.View.{is_in};
ghost use Rattle.client_model.specs.Language.{Language};
ghost use Rattle.client_model.specs.Runtime.{Runtime, Opening};
ghost use Rattle.client_model.specs.Instance.{live_at};
ghost use Rattle.client_model.specs.Past.{Past, runtime_after};
ghost use Rattle.client_model.specs.Stale.{IsStale, stale_of};
ghost use Rattle.world_laws.specs.Edges.{edges_rise};
ghost use Rattle.world_laws.specs.Instances.{HoldsOlder};

/// The list of stale edges rises, by importer and then by dependency. It has exactly the edges that are
/// stale, wherever each module of the page has a live instance; and so whatever came to it.
pub fn stale_edges_are_listed()
    ensures rising { (r : Runtime) → edges_rise (stale_of r) ≡ true }
    ensures live { (r : Runtime) →
        ((n : Name) → is_in r.page.view n ≡ true → IsSome (live_at r.instances n)) →
        (b x : Name) → Contains (stale_of r) (b, x) ↔ IsStale r b x }
    ensures exactly { (language : Language) (opening : Opening) (past : Past) (b x : Name) →
        let r = runtime_after language opening past in Contains (stale_of r) (b, x) ↔ IsStale r b x }
{}

/// A client is stale at an edge exactly where a live instance of the importer holds, for the dependency,
/// a number that isn't the one of the dependency's live instance; whatever came to the client.
pub fn stale_edges_are_of_instances()
    ensures { (language : Language) (opening : Opening) (past : Past) (b x : Name) →
        let r = runtime_after language opening past in IsStale r b x ↔ HoldsOlder r b x }
{}
