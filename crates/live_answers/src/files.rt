// Files by their paths.
ghost use Rattle.std.specs.Prelude.{ℕ, List, IfOk};
ghost use Rattle.live_answers.specs.Given.{Given, given_of};

use crate::found::Found;
use std::alloc::{AllocError, Global};

/// The most bytes of a file that is sent.
pub const FILE_BYTES: usize = 67_108_864;

/// Files by their paths.
pub trait Files {
    // What may be found at a path, where that is told; else whatever.
    ghost gives: { Self → List ℕ → Given → Type 0 };

    /// What is at a path: a slash, and parts with a slash between each two, of which none is empty or begins
    /// with a dot. The bytes are in no escape. It takes the memory of the file.
    fn find(&self, alloc: Global, path: &[u8]) -> Result<Found, AllocError>
        ensures { IfOk result (λ found. gives self.now path.now (given_of found)) };
}
