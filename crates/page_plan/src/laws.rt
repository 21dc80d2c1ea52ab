// Laws of plans: what a plan gives doesn't depend on the order of what is replaced and of what was fetched.
ghost use Rattle.std.specs.Prelude.{◌≡◌, ◌↔◌, ℕ, List, [], None, true};
ghost use Rattle.std.specs.Cmp.Lexicographic.{slice_cmp};
ghost use Rattle.std.specs.List.Sorted.{IsStrictlySortedBy};
ghost use Rattle.std.specs.Ordering.{nat_cmp};
ghost use Rattle.core_model.specs.Names.{Name, names_of, with_row};
ghost use Rattle.core_model.specs.Page.{Plan, entry_at, new_view, unfetched_of};
ghost use Rattle.core_model.specs.Paths.{Reaches};
ghost use Rattle.core_model.specs.Requests.{applied_row, done};
ghost use Rattle.core_model.specs.View.{Entry, View, dropped_of, imports, table_of};
ghost use Rattle.client_model.specs.Order.{walked};
ghost use Rattle.page_plan.specs.Plans.{IsSamePlan};
ghost use Rattle.page_plan.specs.Renewals.{IsClosed, IsGrowth, is_growing, renewed_view};
ghost use Rattle.page_plan.specs.Walking.{IsAt, KeptWalk};

/// The same plan has the same entries and the same view, meets the same row at an Applied, and is walked
/// in the same order.
pub fn same_plans()
    ensures entries { (p q : Plan) (view : View) → IsSamePlan p q → (n : Name)
        → entry_at p view n ≡ entry_at q view n }
    ensures view { (roots : List Name) (p q : Plan) (view : View) → IsSamePlan p q
        → new_view roots p view ≡ new_view roots q view }
    ensures row { (roots : List Name) (p q : Plan) (view : View) (told : List (Name × ℕ)) → IsSamePlan p q
        → applied_row roots p view told ≡ applied_row roots q view told }
    ensures walk { (roots : List Name) (p q : Plan) (view : View) → IsSamePlan p q
        → walked roots p view ≡ walked roots q view }
    ensures moment { (roots : List Name) (p q : Plan) (view : View) (kept : KeptWalk) → IsSamePlan p q
        → IsAt roots p view kept → IsAt roots q view kept }
{}

/// Once the module is fetched that the plan lacked, a moment of its walk is the same moment of the new
/// plan's walk: the walk goes on from there.
pub fn walks_go_on()
    ensures { (roots : List Name)
        (p : Plan) (view : View) (n : Name) (e : Entry) (kept : KeptWalk) → entry_at p view n ≡ None
        → IsAt roots p view kept → IsAt roots (record p { staged = with_row n e p.staged }) view kept }
{}

/// Where each module that an update replaces was fetched, imports what it imported before, and imports
/// besides only what is reached, what is reached stays as it was: on a page from which nothing is missing
/// nothing is left to be fetched, and nothing is missing or dropped that wasn't. Where nothing is dropped
/// and the modules rise by name, the view is the page's with what was fetched in place, and an Applied that
/// tells its table is answered by done. Where nothing is dropped an update that the test by the lists of
/// imports finds is such a one.
pub fn growths_keep_what_is_there()
    ensures tested { (roots : List Name) (p : Plan) (view : View) → is_growing p view ≡ true
        → dropped_of view roots ≡ [] → IsGrowth roots p view }
    ensures reached { (roots : List Name) (p : Plan) (view : View) → IsGrowth roots p view → (n : Name)
        → Reaches (imports (renewed_view p view)) roots n ↔ Reaches (imports view) roots n }
    ensures fetched { (roots : List Name) (p : Plan) (view : View) → IsGrowth roots p view
        → IsClosed roots view → unfetched_of roots p view ≡ [] }
    ensures closed { (roots : List Name) (p : Plan) (view : View) → IsGrowth roots p view
        → IsClosed roots view → IsClosed roots (renewed_view p view) }
    ensures dropped { (roots : List Name) (p : Plan) (view : View) → IsGrowth roots p view
        → dropped_of (renewed_view p view) roots ≡ dropped_of view roots }
    ensures view { (roots : List Name) (p : Plan) (view : View) → IsGrowth roots p view
        → IsClosed roots view → IsStrictlySortedBy (slice_cmp nat_cmp) (names_of view)
        → dropped_of view roots ≡ [] → new_view roots p view ≡ renewed_view p view }
    ensures row { (roots : List Name) (p : Plan) (view : View) (told : List (Name × ℕ))
        → IsGrowth roots p view → IsClosed roots view
        → IsStrictlySortedBy (slice_cmp nat_cmp) (names_of view) → dropped_of view roots ≡ []
        → told ≡ table_of (renewed_view p view) → applied_row roots p view told ≡ done }
{}

/// From a page whose plan was applied nothing is missing that its imports lead to.
pub fn applied_pages_are_closed()
    ensures { (roots : List Name) (p : Plan) (view : View) → unfetched_of roots p view ≡ []
        → IsClosed roots (new_view roots p view) }
{}
