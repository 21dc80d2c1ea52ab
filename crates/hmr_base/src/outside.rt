// What is read from and written to. Contracts see two things of each: the bytes, where the object
// tells them, and a count of faults, which rises with each call that fails and stays with every other. The
// forms in memory tell besides which of their calls are to fail, and how much one call moves.
ghost use Rattle.std.specs.Prelude.{◌≡◌, ◌<◌, ◌≤◌, List, ℕ, length, IfOk, OnErr, Option, false, is_err};
ghost use Rattle.std.specs.Io.{ReadsAtMost};
ghost use Rattle.std.specs.Io.KnownBytes.{ReadConsumes, WriteAppends};
ghost use Rattle.hmr_base.specs.Causes.{HasCause};
ghost use Rattle.hmr_base.specs.Pieces.{CountsUp, GivesPiece, TakesPiece, is_full_for};
ghost use Rattle.hmr_base.specs.Plans.{AsPlanned, Plan};

/// A call of the outside failed. The object's count of faults rose in that call.
#[derive(Clone, Copy, Debug, PartialEq, Eq)]
pub struct Failed;

/// Where bytes come from.
pub trait Source {
    /// The bytes that are left, where the source tells them.
    ghost left: { Self → Option (List ℕ) };

    /// How often a call has failed.
    ghost faults: { Self → ℕ };

    /// Which calls are to fail, where the source tells it.
    ghost plan: { Self → Option Plan };

    /// How many bytes one call gives at most, where the source tells it.
    ghost most: { Self → Option ℕ };

    /// Reads some bytes into the front of `into`, and answers how many. 0 where `into` isn't empty
    /// is the end of the input.
    ///
    /// `Failed` comes only where the count of faults rose in this call; no byte is then taken.
    fn read(&mut self, into: &mut [u8]) -> Result<usize, Failed>
        ensures bound { ReadsAtMost result into.new }
        ensures bytes { ReadConsumes (left self.old) (left self.new) result into.new }
        ensures amount { IfOk result (λ n. GivesPiece (most self.old) (left self.old) (length into.new) n) }
        ensures same_most { most self.new ≡ most self.old }
        ensures planned { AsPlanned (plan self.old) (plan self.new) (is_err result) false }
        ensures cause { HasCause (faults self.old) (faults self.new) result };
}

/// Where bytes go.
pub trait Sink {
    /// The bytes that were written so far, where the sink tells them.
    ghost written: { Self → Option (List ℕ) };

    /// How often a call has failed.
    ghost faults: { Self → ℕ };

    /// Which calls are to fail, where the sink tells it.
    ghost plan: { Self → Option Plan };

    /// How many bytes one call takes at most, where the sink tells it.
    ghost most: { Self → Option ℕ };

    /// How many bytes were taken, up to the largest `u64`, where the sink counts them.
    ghost taken: { Self → Option ℕ };

    /// How many bytes the sink takes in all, where it has such a limit.
    ghost room: { Self → Option ℕ };

    /// Takes a prefix of the piece, and answers its length: at least 1 where the piece isn't empty.
    ///
    /// `Failed` comes only where the count of faults rose in this call; nothing is then written.
    fn write(&mut self, piece: &[u8]) -> Result<usize, Failed>
        ensures bound { IfOk result (λ n. n ≤ length piece.now) }
        ensures some { IfOk result (λ n. 0 < length piece.now → 0 < n) }
        ensures bytes { WriteAppends (written self.old) (written self.new) result piece.now }
        ensures amount { IfOk result (λ n. TakesPiece (most self.old) (length piece.now) n) }
        ensures counted { IfOk result (λ n. CountsUp (taken self.old) (taken self.new) n) }
        ensures uncounted { OnErr result (taken self.new ≡ taken self.old) }
        ensures same_most { most self.new ≡ most self.old }
        ensures same_room { room self.new ≡ room self.old }
        ensures planned { AsPlanned (plan self.old) (plan self.new) (is_err result)
            (is_full_for (room self.old) (taken self.old) (most self.old) (length piece.now)) }
        ensures cause { HasCause (faults self.old) (faults self.new) result };
}
