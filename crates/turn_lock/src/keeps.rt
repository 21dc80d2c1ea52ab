// What a value has to be for a lock with a history: each call says whether it is recorded.
ghost use Rattle.std.specs.Prelude.{◌≡◌, ◌++◌, ◌∷◌, [], List, ℕ, Bool, true};
ghost use Rattle.turn_lock.specs.Histories.{grown};

/// A value that keeps a history of the entries that it recorded.
pub trait Keeps: Drop {
    /// What a caller asks of the value.
    type Entry;

    /// What the value answers.
    type Reply;

    // The entries that were recorded, oldest first, each with the number of the pass that made it.
    ghost history: { Self → List (ℕ × Self.Entry) };
    // Whether the pass of this number may make the entry.
    ghost may: { ℕ → Self.Entry → Bool };
    // The second value is one that calls make of the first.
    ghost follows: { Self → Self → Type 0 };
    // What is replied to an entry of a pass, and whether it is recorded, in the state that the history makes
    // of the opening value.
    ghost answers: { Self → List (ℕ × Self.Entry) → ℕ → Self.Entry → Self.Reply → Bool → Type 0 };

    /// The reply to an entry of the pass `by`, and whether it was recorded: the history grew by it exactly
    /// where it was.
    fn apply(&mut self, by: u64, entry: Self::Entry) -> (Self::Reply, bool)
        requires { may by entry ≡ true }
        ensures history { history self.new ≡ grown (history self.old) by entry result.1 }
        ensures follows { (opening : Self) → follows opening self.old → follows opening self.new }
        ensures answer { (opening : Self) → follows opening self.old
            → answers opening (history self.old) by entry result.0 result.1 };
}
