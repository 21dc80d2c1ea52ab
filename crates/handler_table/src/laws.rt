// What is known of each closure stays known as closures leave a shelf and handlers leave a table. A
// caller that holds a shelf or a table carries it along by these laws.
ghost use Rattle.std.specs.Prelude.{◌≡◌, ◌++◌, ◌∷◌, [], ℕ, List, IfSome, None, Some, drop, slice_get};
ghost use Rattle.std.specs.List.{All};
ghost use Rattle.handler_table.specs.Handler.{KeepsItsWord};
ghost use Rattle.handler_table.specs.Handlers.{Holdings, KeepTheirWord};
ghost use Rattle.handler_table.specs.Held.{Closure, IsHost};
ghost use Rattle.handler_table.specs.Shelf.{first_of, without_first};
ghost use Rattle.handler_table.specs.declared.dep.Dep.{Dep};
ghost use Rattle.handler_table.specs.declared.handler.Handler.{Handler};

use retained_data::{Bag, Ran};
use std::alloc::AllocError;

/// What is known of each closure of a shelf is known of the first of a label and of those that are left.
pub fn shelves_keep_their_word<F: FnOnce(Bag) -> Result<Ran, AllocError> + Drop>()
    ensures first { (label : List ℕ) (hs : List (Closure F)) → All (IsHost F.post) hs
        → IfSome (first_of label hs) (IsHost F.post) }
    ensures left { (label : List ℕ) (hs : List (Closure F)) → All (IsHost F.post) hs
        → All (IsHost F.post) (without_first label hs) }
{}

/// What is known of each handler of a table stays known with one more of which it is known, and with one
/// fewer; and it is known of the earliest callback.
pub fn tables_keep_their_word<F: FnOnce(Bag) -> Result<Ran, AllocError> + Drop>()
    ensures none { KeepTheirWord F.post (record { dispose = None; prune = None; own = []; deps = [] }) }
    ensures dispose { (t : Holdings F) (h : Handler F) → KeepTheirWord F.post t → KeepsItsWord F.post h
        → KeepTheirWord F.post (record t { dispose = Some h }) }
    ensures prune { (t : Holdings F) (h : Handler F) → KeepTheirWord F.post t → KeepsItsWord F.post h
        → KeepTheirWord F.post (record t { prune = Some h }) }
    ensures own { (t : Holdings F) (h : Handler F) → KeepTheirWord F.post t → KeepsItsWord F.post h
        → KeepTheirWord F.post (record t { own = t.own ++ h ∷ [] }) }
    ensures no_dispose { (t : Holdings F) → KeepTheirWord F.post t
        → KeepTheirWord F.post (record t { dispose = None }) }
    ensures no_prune { (t : Holdings F) → KeepTheirWord F.post t
        → KeepTheirWord F.post (record t { prune = None }) }
    ensures earliest { (t : Holdings F) → KeepTheirWord F.post t
        → IfSome (slice_get t.own 0) (KeepsItsWord F.post) }
    ensures later { (t : Holdings F) → KeepTheirWord F.post t
        → KeepTheirWord F.post (record t { own = drop 1 t.own }) }
    ensures deps { (t : Holdings F) (ds : List Dep) → KeepTheirWord F.post t
        → KeepTheirWord F.post (record t { deps = ds }) }
{}
