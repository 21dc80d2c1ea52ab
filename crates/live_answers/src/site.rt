// A site: what is given at its paths, and what becomes of what is posted there.
ghost use Rattle.std.specs.Prelude.{ℕ, Bool, List, IfOk};
ghost use Rattle.live_answers.specs.Given.{Given, given_of};
ghost use Rattle.live_answers.specs.Taken.{Taken, taken_of};

use crate::found::Found;
use std::alloc::{AllocError, Global};

/// What became of bytes that were posted at a path.
#[derive(Debug, Drop)]
pub enum Posted {
    /// They were taken.
    Done,
    /// They were taken, and this is answered: a text of JSON.
    Text(Vec<u8>),
    /// They are none that is taken there, for the reason that this sentence says.
    Bad(&'static str),
    /// Nothing is taken at the path.
    Missing,
    /// They were taken, and who waits at the server's bell is to look again.
    Ring,
}

/// What is at the paths of a site. A path is a slash, and parts with a slash between each two, of which none
/// is empty or begins with a dot; its bytes are in no escape. All threads of a server share a site by
/// reference.
pub trait Paths {
    // What may be found at a path with a query, by one who wants a page or not, where that is told; else
    // whatever.
    ghost gives: { Self → List ℕ → List ℕ → Bool → Given → Type 0 };
    // What may become of bytes that are posted at a path, where that is told; else whatever.
    ghost takes: { Self → List ℕ → List ℕ → Taken → Type 0 };

    /// What is at a path with a query, of no bytes where there is none; its escapes aren't read. Whether a
    /// page is wanted says that the request names `text/html` as what it accepts, as one by the address line
    /// of a browser. It takes the memory of what is found.
    fn get(
        &self,
        alloc: Global,
        path: &[u8],
        query: &[u8],
        wants_page: bool,
    ) -> Result<Found, AllocError>
        ensures { IfOk result (λ found. gives self.now path.now query.now wants_page (given_of found)) };

    /// Takes the bytes that are posted at a path. Where memory runs out, nothing is known of whether they
    /// were taken.
    fn post(&self, alloc: Global, path: &[u8], body: &[u8]) -> Result<Posted, AllocError>
        ensures { IfOk result (λ posted. takes self.now path.now body.now (taken_of posted)) };
}
