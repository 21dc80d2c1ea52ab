// The closures of the embedding program: shelves for clients to come.
ghost use Rattle.std.specs.Prelude.{◌≡◌, ◌++◌, ◌∷◌, [], ℕ, IfOk, OnOk, codes, map, replicate};
ghost use Rattle.handler_table.specs.Held.{IsHost};
ghost use Rattle.handler_table.specs.Shelf.{marks_of, numbered};
ghost use Rattle.world_parts.specs.Shelves.{AreHosts};

use handler_table::Shelf;
use hmr_types::Text;
use retained_data::{Bag, Ran};
use std::alloc::{AllocError, Global};
use world_parts::discard;

/// How many clients may be open at once.
const CLIENTS: u32 = 32;

/// How many closures each gets.
const CLOSURES: u32 = 64;

/// Shelves for 32 clients, each of the closures of the label `H` that `make` makes of the numbers 1 to 64.
pub fn host_shelves<F: FnOnce(Bag) -> Result<Ran, AllocError> + Drop, M: Fn(u32) -> F + Drop>(
    alloc: Global,
    make: M,
) -> Result<Vec<Shelf<F>>, AllocError>
    requires makes { M.IsAlwaysCallable make }
    requires callable { (f : F) → F.IsAlwaysCallable f }
    requires hosts { (n : ℕ) (f : F) → M.post make n f
        → IsHost F.post (record { label = codes "H"; number = n; call = f }) }
    ensures hosts { IfOk result (λ shelves. AreHosts F.post shelves.items) }
    ensures marks { IfOk result
        (λ shelves. map marks_of shelves.items ≡ replicate 32 (numbered (codes "H") 1 64)) }
{
    let mut shelves = Vec::new(alloc);
    for _ in 0..CLIENTS {
        if put_shelf(alloc, &make, &mut shelves).is_err() {
            discard(shelves);
            return Err(AllocError);
        }
    }
    Ok(shelves)
}

/// Adds a shelf behind the others. Where memory runs out, they are as before.
fn put_shelf<F: FnOnce(Bag) -> Result<Ran, AllocError> + Drop, M: Fn(u32) -> F>(
    alloc: Global,
    make: &M,
    shelves: &mut Vec<Shelf<F>>,
) -> Result<(), AllocError>
    requires makes { M.IsAlwaysCallable make.now }
    requires callable { (f : F) → F.IsAlwaysCallable f }
    requires hosts { (n : ℕ) (f : F) → M.post make.now n f
        → IsHost F.post (record { label = codes "H"; number = n; call = f }) }
    ensures hosts { AreHosts F.post shelves.old.items → AreHosts F.post shelves.new.items }
    ensures marks { OnOk result
        (map marks_of shelves.new.items ≡ map marks_of shelves.old.items ++ numbered (codes "H") 1 64 ∷ []) }
{
    let label = Text::from_string(String::from_str(alloc, "H")?);
    let mut shelf = Shelf::new(Vec::new(alloc));
    if shelf
        .fill(&label, 1, CLOSURES + 1, |number| make(number))
        .is_err()
    {
        shelf.end();
        return Err(AllocError);
    }
    match shelves.push(shelf) {
        Ok(()) => Ok(()),
        Err(full) => {
            full.value.end();
            Err(AllocError)
        }
    }
}
