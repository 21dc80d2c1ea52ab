// StringLiterals: where one ends. An escaped line terminator goes on with the literal, one that isn't escaped
// breaks it; U+2028 and U+2029 are characters like any other in it.
ghost use Rattle.std.specs.Prelude.{◌≡◌, ◌≤◌, ◌<◌, ◌+◌, ◌^◌, IfErr, IfOk, Some, length, slice_index, true};
ghost use Rattle.es_scan.specs.StringLiteral.{is_quote, literal_at, turn};

use crate::fault::{Fault, FaultKind};

/// How far the reading of a string literal is.
#[derive(Clone, Copy, PartialEq)]
pub(crate) enum Inside {
    /// Where any byte may come.
    Plain,
    /// Behind a backslash.
    Escaped,
    /// Behind a backslash and a CR, to which an LF belongs.
    Returned,
}

/// What a byte of a string literal does.
#[derive(Clone, Copy, PartialEq)]
pub(crate) enum Move {
    /// It ends the literal.
    Ends,
    /// It is part of it.
    Goes(Inside),
    /// It may not stand there.
    Breaks,
}

/// What a byte does in a literal of this quote.
#[inline(always)]
fn turn(quote: u8, inside: Inside, byte: u8) -> Move
    ensures same { result ≡ turn quote inside byte }
{
    match inside {
        Inside::Escaped if byte == b'\r' => Move::Goes(Inside::Returned),
        Inside::Escaped => Move::Goes(Inside::Plain),
        _ if byte == quote => Move::Ends,
        _ if byte == b'\\' => Move::Goes(Inside::Escaped),
        Inside::Plain if byte == b'\n' => Move::Breaks,
        _ if byte == b'\r' => Move::Breaks,
        _ => Move::Goes(Inside::Plain),
    }
}

/// Where the string literal ends whose opening quote stands at a place.
#[tactic(auto, using(crate::proofs::StringLiterals::begun, crate::proofs::StringLiterals::turned_on, crate::proofs::StringLiterals::ended))]
pub(crate) fn string_end(text: &[u8], at: usize) -> Result<usize, Fault>
    requires within { at < length text.now }
    requires quote { is_quote (slice_index text.now at) ≡ true }
    requires short { length text.now < 2 ^ 32 }
    ensures literal { IfOk result (λ end. literal_at text.now at ≡ Some end) }
    ensures end { IfOk result (λ end. (at + 1 < end) × (end ≤ length text.now)) }
    ensures fault { IfErr result (λ fault. fault.at ≡ at) }
{
    let quote = text[at];
    let mut inside = Inside::Plain;
    for i in at + 1..text.len() {
        match turn(quote, inside, text[i]) {
            Move::Ends => return Ok(i + 1),
            Move::Goes(next) => inside = next,
            Move::Breaks => return Err(Fault::new(FaultKind::OpenString, at)),
        }
    }
    Err(Fault::new(FaultKind::OpenString, at))
}
