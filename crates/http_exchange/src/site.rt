// What is served, by name, and the answer to one head.
ghost use Rattle.std.specs.Prelude.{◌≡◌, List, Option, ℕ, IfOk, IfSome, option_map};
ghost use Rattle.http_heads.specs.Asks.{Ask, Asks, said};
ghost use Rattle.http_exchange.specs.Replies.{answer_of, answer_to, found};

use crate::reply::{Reply, Status};
use http_heads::{Asked, judge};
use std::alloc::{AllocError, Global};

/// What is served under which name.
pub trait Site {
    // The text that is served under a name.
    ghost bodies: { Self → List ℕ → Option (List ℕ) };

    /// The text that is served under these bytes as a name, or None where none is.
    fn body(&self, alloc: Global, name: &[u8]) -> Result<Option<Vec<u8>>, AllocError>
        ensures { IfOk result (λ body. option_map (λ b. b.items) body ≡ bodies self.now name.now) };
}

/// The answer to a head: the bytes as a whole, with the empty line at their end. It takes the memory of the
/// answer's body.
pub fn reply_to<T: Site>(alloc: Global, site: &T, head: &[u8]) -> Result<Reply, AllocError>
    ensures { IfOk result
        (λ reply. (ask : Ask) × Asks head.now ask × (answer_of reply ≡ answer_to (T.bodies site.now) ask)) }
{
    answer(alloc, site, judge(head))
}

fn answer<T: Site>(alloc: Global, site: &T, asked: Asked) -> Result<Reply, AllocError>
    ensures { IfOk result (λ reply. answer_of reply ≡ answer_to (T.bodies site.now) (said asked.entry)) }
{
    match asked {
        Asked::BadRequest { bare } => Reply::refusal(alloc, Status::BadRequest, bare, true),
        Asked::OtherMethod { closes } => {
            Reply::refusal(alloc, Status::MethodNotAllowed, false, closes)
        }
        Asked::LongTarget { bare, closes } => {
            Reply::refusal(alloc, Status::UriTooLong, bare, closes)
        }
        Asked::Module { name, bare, closes } => {
            let body = site.body(alloc, name)?;
            found(alloc, body, bare, closes)
        }
    }
}

/// The answer with this body, or that there is none.
fn found(
    alloc: Global,
    body: Option<Vec<u8>>,
    bare: bool,
    closes: bool,
) -> Result<Reply, AllocError>
    ensures { IfOk result
        (λ reply. answer_of reply ≡ found (option_map (λ b. b.items) body) bare closes) }
{
    match body {
        None => Reply::refusal(alloc, Status::NotFound, bare, closes),
        Some(body) => Ok(Reply {
            status: Status::Ok,
            body,
            bare,
            closes,
        }),
    }
}
