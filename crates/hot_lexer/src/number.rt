// Whole numbers: `0`, or a digit from `1` to `9` and further digits. A zero is a number of its own, and
// what may not follow a number directly is the caller's to test.
ghost use Rattle.std.specs.Prelude.{◌≡◌, ◌+◌, ◌^◌, ◌<◌, ◌≤◌, ◌-◌, true, IfOk, length, Some};
ghost use Rattle.module_semantics.specs.Bytes.{is_digit};
ghost use Rattle.module_semantics.specs.Lexing.{number_from, number_at};
ghost use Rattle.module_semantics.specs.Token.{number};
ghost use Rattle.hot_lexer.specs.Stop.{Reads};

use crate::bytes;
use crate::stop::{Stop, fault};
use hmr_types::limits::LARGEST_NUMBER;
use module_semantics::LexKind;

/// The value and the length of a number whose first digit has the value `first`.
#[tactic(auto, unfolding(module_semantics::specs::Lexing::number_from))]
fn read_digits(at: usize, first: u64, rest: &[u8]) -> Result<(u64, usize), Stop>
    requires digit { first ≤ 9 }
    requires place { at < 2 ^ 32 }
    ensures exact { Reads (λ x. x) result (number_from at first 1 rest.now) }
    ensures within { IfOk result (λ x. x.1 ≤ 1 + length rest.now) }
{
    let mut value = first;
    for i in 0..rest.len() {
        let b = rest[i];
        if !bytes::is_digit(b) {
            return Ok((value, i + 1));
        }
        let longer = 10 * value + (b - b'0') as u64;
        if longer > LARGEST_NUMBER {
            return Err(fault(LexKind::NumberTooLarge, at));
        }
        value = longer;
    }
    Ok((value, rest.len() + 1))
}

/// The number that begins with the digit `first`: its value and its length.
#[tactic(auto, unfolding(module_semantics::specs::Lexing::number_at))]
pub(crate) fn read_number(at: usize, first: u8, rest: &[u8]) -> Result<(u64, usize), Stop>
    requires low { 48 ≤ first }
    requires high { first ≤ 57 }
    requires place { at < 2 ^ 32 }
    ensures exact { Reads (λ x. (Some (number x.0), x.1)) result (number_at at first rest.now) }
    ensures within { IfOk result (λ x. x.1 ≤ 1 + length rest.now) }
{
    if first == b'0' {
        return Ok((0, 1));
    }
    read_digits(at, (first - b'0') as u64, rest)
}
