// Laws of the definitions of a client.
ghost use Rattle.std.specs.Prelude.{◌≡◌, ◌↔◌, ℕ, true, List, []};
ghost use Rattle.core_model.specs.Names.{Name, has};
ghost use Rattle.core_model.specs.Paths.{Reaches};
ghost use Rattle.core_model.specs.View.{View};
ghost use Rattle.core_model.specs.Page.{Plan, plan_imports, met_of};
ghost use Rattle.client_model.specs.Language.{Language};
ghost use Rattle.client_model.specs.Instance.{Instance};
ghost use Rattle.client_model.specs.Journal.{bag_left};
ghost use Rattle.client_model.specs.Runtime.{Runtime, Opening, bag_of};
ghost use Rattle.client_model.specs.Applying.{prune_instance};
ghost use Rattle.client_model.specs.Past.{Past, runtime_after, journal_of};
ghost use Rattle.client_model.specs.Order.{fetch_order, evaluation_order};

/// A client's walk meets exactly the modules that the core's walk of the plan meets.
pub fn walk_meets_what_is_reached()
    ensures reached { (roots : List Name) (p : Plan) (view : View) (m : Name) →
        (has (fetch_order roots p view) m ≡ true) ↔ Reaches (plan_imports p view) roots m }
    ensures core { (roots : List Name) (p : Plan) (view : View) (m : Name) →
        has (fetch_order roots p view) m ≡ has (met_of roots p view) m }
{}

/// The order of evaluation has the modules of the order of fetching.
pub fn orders_have_the_same_modules()
    ensures { (roots : List Name) (p : Plan) (view : View) (m : Name) →
        has (fetch_order roots p view) m ≡ has (evaluation_order roots p view) m }
{}

/// The bag that a client keeps for a name is the one that all that happened left: what the last
/// evaluation or handler of the name left, and empty once it was given up.
pub fn bags_are_what_was_left()
    ensures { (language : Language) (opening : Opening) (past : Past) (n : Name) →
        bag_of (runtime_after language opening past) n ≡ bag_left (journal_of language opening past) n }
{}

/// The bag of a module is empty after its prune.
pub fn pruned_module_has_an_empty_bag()
    ensures { (language : Language) (i : Instance) (r : Runtime) →
        bag_of (prune_instance language i r).0 i.name ≡ [] }
{}
