// Closures of the embedding program. What is known of a closure can't be kept beside it, so it is asked
// where the closure comes in, and again where it is called.
ghost use Rattle.std.specs.Prelude.{◌≡◌, IfOk};
ghost use Rattle.module_semantics.specs.Bodies.{host_ran};
ghost use Rattle.retained_data.specs.Runs.{ran_seen};
ghost use Rattle.handler_table.specs.Held.{IsHost};
ghost use Rattle.handler_table.specs.Shelf.{has_label};

use hmr_types::Text;
use retained_data::{Bag, Ran};
use std::alloc::AllocError;
use std::marker::Model;

/// A closure of the embedding program, with its label and its number. It is used up by a call or by
/// `discard`.
pub struct Held<F> {
    label: Text,
    number: u32,
    call: F,
}

impl<F> Model for Held<F> {
    ghost use Rattle.handler_table.specs.Held.{Closure};

    ghost Value = { Closure F };

    ghost view = { λ h. record { label = h.label; number = h.number; call = h.call } };
}

impl<F: FnOnce(Bag) -> Result<Ran, AllocError> + Drop> Held<F> {
    /// Takes a closure that may be called on every bag. Where it answers, that is the stated run: the one
    /// line `host LABEL NUMBER`, and the number kept under the key `host` of the bag; where that key is
    /// new and the bag is full, the bag unchanged and the fault of a full bag.
    pub fn new(label: Text, number: u32, call: F) -> Self
        requires callable { F.IsAlwaysCallable call }
        requires host { IsHost F.post (record { label = label; number = number; call = call }) }
        ensures held { result ≡ record { label = label; number = number; call = call } }
        ensures host { IsHost F.post result }
    {
        Held {
            label,
            number,
            call,
        }
    }

    /// Calls the closure on a bag. It fails only where memory runs out; closure and bag are then gone.
    pub fn spend(self, bag: Bag) -> Result<Ran, AllocError>
        requires callable { F.IsAlwaysCallable self.call }
        requires host { IsHost F.post self }
        ensures { IfOk result (λ ran. ran_seen ran ≡ host_ran self.label self.number bag) }
    {
        let Held {
            label: _,
            number: _,
            call,
        } = self;
        call(bag)
    }
}

impl<F> Held<F> {
    /// Its label.
    pub fn label(&self) -> &Text
        ensures { result.now ≡ self.now.label }
    {
        &self.label
    }

    /// Its number.
    pub fn number(&self) -> u32
        ensures { result ≡ self.now.number }
    {
        self.number
    }

    /// Whether it has this label.
    pub fn has_label(&self, label: &Text) -> bool
        ensures { result ≡ has_label label.now self.now }
    {
        self.label == *label
    }
}

impl<F: Drop> Held<F> {
    /// Lets the closure go without a call.
    pub fn discard(self) {
        let Held {
            label: _,
            number: _,
            call: _,
        } = self;
    }
}
