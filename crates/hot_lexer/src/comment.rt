// Comments: from `//` to the end of the line, which only an LF ends, or from `/*` to the next `*/`.
ghost use Rattle.std.specs.Prelude.{◌≡◌, ◌+◌, ◌^◌, ◌<◌, ◌≤◌, IfOk, length, None};
ghost use Rattle.module_semantics.specs.Lexing.{comment_from, comment_at};
ghost use Rattle.hot_lexer.specs.Stop.{Reads};

use crate::bytes::stands;
use crate::run::line_run;
use crate::stop::{Stop, fault};
use byte_lanes::{Class, first_of};
use module_semantics::LexKind;

/// The length of a comment; `rest` follows its `/*`.
#[tactic(auto, unfolding(module_semantics::specs::Lexing::comment_from))]
fn read_block(at: usize, rest: &[u8]) -> Result<usize, Stop>
    requires { at < 2 ^ 32 }
    ensures exact { Reads (λ n. n) result (comment_from at 2 rest.now) }
    ensures within { IfOk result (λ n. n ≤ 2 + length rest.now) }
{
    let mut start = 0;
    while let Some(before) = first_of(&rest[start..], Class::Star) {
        start += before + 1;
        if stands(b'/', rest, start) {
            return Ok(start + 3);
        }
    }
    Err(fault(LexKind::OpenComment, at))
}

/// The length of a comment; `rest` follows its first `/`.
#[tactic(auto, unfolding(module_semantics::specs::Lexing::comment_at))]
pub(crate) fn read_comment(at: usize, rest: &[u8]) -> Result<usize, Stop>
    requires { at < 2 ^ 32 }
    ensures exact { Reads (λ n. (None, n)) result (comment_at at rest.now) }
    ensures within { IfOk result (λ n. n ≤ 1 + length rest.now) }
{
    match rest {
        [b'/', line @ ..] => Ok(line_run(line) + 2),
        [b'*', block @ ..] => read_block(at, block),
        _ => Err(fault(LexKind::BadByte, at)),
    }
}
