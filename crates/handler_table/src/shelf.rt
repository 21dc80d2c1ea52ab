// A shelf of closures. Those of one label are handed out in the order in which they stand.
ghost use Rattle.std.specs.Prelude.{◌≡◌, ◌++◌, ◌∷◌, ◌-◌, [], ℕ, IfErr, OnOk, OnErr};
ghost use Rattle.std.specs.List.{All};
ghost use Rattle.handler_table.specs.Held.{IsHost};
ghost use Rattle.handler_table.specs.Shelf.{Extends, first_of, marks_of, numbered, without_first};

use crate::held::Held;
use hmr_types::Text;
use retained_data::{Bag, Ran};
use std::alloc::AllocError;
use std::marker::Model;

/// Closures of the embedding program, which contracts see as the list of them, in order.
pub struct Shelf<F> {
    items: Vec<Held<F>>,
}

impl<F> Model for Shelf<F> {
    ghost use Rattle.std.specs.Prelude.{List};
    ghost use Rattle.handler_table.specs.Held.{Closure};

    ghost Value = { List (Closure F) };

    ghost view = { λ s. s.items.items };
}

impl<F> Shelf<F> {
    /// The shelf of these closures.
    pub fn new(items: Vec<Held<F>>) -> Self
        ensures { result ≡ items.items }
    {
        Shelf { items }
    }

    /// Adds a closure behind the others. Where memory runs out it is handed back, and the shelf is as
    /// before.
    pub fn put(&mut self, held: Held<F>) -> Result<(), Held<F>>
        ensures ok { OnOk result (self.new ≡ self.old ++ held ∷ []) }
        ensures err { OnErr result (self.new ≡ self.old) }
        ensures back { IfErr result (λ h. h ≡ held) }
    {
        match self.items.push(held) {
            Ok(()) => Ok(()),
            Err(full) => Err(full.value),
        }
    }

    /// Hands out the first closure of a label: None exactly where none of it is left. It takes time in
    /// proportion to the shelf.
    pub fn next(&mut self, label: &Text) -> Option<Held<F>>
        ensures first { result ≡ first_of label.now self.old }
        ensures left { self.new ≡ without_first label.now self.old }
    {
        take_first(&mut self.items, label)
    }
}

impl<F: FnOnce(Bag) -> Result<Ran, AllocError> + Drop> Shelf<F> {
    /// Adds closures of this label behind the others, which `make` makes of their numbers, from `first`
    /// on and before `end`. It fails only where memory runs out; the shelf then has some of them, and the
    /// closure that it was about is gone. The closures of before stay where they are.
    pub fn fill<M: Fn(u32) -> F + Drop>(
        &mut self,
        label: &Text,
        first: u32,
        end: u32,
        make: M,
    ) -> Result<(), AllocError>
        requires makes { M.IsAlwaysCallable make }
        requires callable { (f : F) → F.IsAlwaysCallable f }
        requires hosts { (n : ℕ) (f : F) → M.post make n f
            → IsHost F.post (record { label = label.now; number = n; call = f }) }
        ensures stays { Extends self.old self.new }
        ensures numbers { OnOk result
            (marks_of self.new ≡ marks_of self.old ++ numbered label.now first (end - first)) }
        ensures hosts { All (IsHost F.post) self.old → All (IsHost F.post) self.new }
    {
        for number in first..end {
            let label = label.clone()?;
            if let Err(held) = self.put(Held::new(label, number, make(number))) {
                held.discard();
                return Err(AllocError);
            }
        }
        Ok(())
    }
}

impl<F: Drop> Shelf<F> {
    /// Gives the shelf up and discards the closures that are left.
    pub fn end(self) {
        let Shelf { items } = self;
        let mut items = items;
        while let Some(held) = items.pop() {
            held.discard();
        }
        items.destroy_empty();
    }
}

fn take_first<F>(items: &mut Vec<Held<F>>, label: &Text) -> Option<Held<F>>
    ensures first { result ≡ first_of label.now items.old.items }
    ensures left { items.new.items ≡ without_first label.now items.old.items }
{
    for place in 0..items.len() {
        if items[place].has_label(label) {
            return Some(items.remove(place));
        }
    }
    None
}
