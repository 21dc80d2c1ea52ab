// Strings and the addresses of `url(..)` without quotes: where one ends. A backslash takes what is behind it:
// up to six hexadecimal digits and one blank, a line end of a string, or one other byte. A string and an
// address also end with the text.
ghost use Rattle.std.specs.Prelude.{◌≡◌, ◌≤◌, ◌<◌, ◌^◌, IfErr, IfOk, Some, length};
ghost use Rattle.css_scan.specs.Addresses.{
  address_end,
  breaks,
  digits_turn,
  ends,
  escaped_turn,
  plain_turn,
  returned_turn,
  turn,
};

use crate::bytes::{is_blank, is_hexadecimal, is_line_end};
use crate::outline::Quoting;

/// How far the reading of an address is.
#[derive(Clone, Copy, PartialEq)]
pub(crate) enum Inside {
    /// Where any byte may come.
    Plain,
    /// Behind a backslash.
    Escaped,
    /// Behind a backslash and so many hexadecimal digits.
    Digits(u8),
    /// Behind a CR that an escape took, to which an LF belongs.
    Returned,
}

/// What a byte of an address does.
#[derive(Clone, Copy, PartialEq)]
pub(crate) enum Move {
    /// It ends the address.
    Ends,
    /// It is part of it.
    Goes(Inside),
    /// It may not stand there.
    Breaks,
}

/// An address was broken by the byte at a place.
#[derive(Clone, Copy)]
pub(crate) struct Broken {
    pub at: usize,
}

/// Whether a byte that isn't escaped ends the address.
#[inline(always)]
fn ends(quoting: Quoting, byte: u8) -> bool
    ensures same { result ≡ ends quoting byte }
{
    match quoting {
        Quoting::Double => byte == b'"',
        Quoting::Single => byte == b'\'',
        Quoting::Bare => byte == b')' || is_blank(byte),
    }
}

/// Whether a byte that isn't escaped may not stand in the address.
#[inline(always)]
fn breaks(quoting: Quoting, byte: u8) -> bool
    ensures same { result ≡ breaks quoting byte }
{
    match quoting {
        Quoting::Double => is_line_end(byte),
        Quoting::Single => is_line_end(byte),
        Quoting::Bare => byte == b'"' || byte == b'\'' || byte == b'(' || byte <= 31 || byte == 127,
    }
}

/// What a byte does that isn't escaped.
#[inline(always)]
fn plain_turn(quoting: Quoting, byte: u8) -> Move
    ensures same { result ≡ plain_turn quoting byte }
{
    if ends(quoting, byte) {
        Move::Ends
    } else if byte == b'\\' {
        Move::Goes(Inside::Escaped)
    } else if breaks(quoting, byte) {
        Move::Breaks
    } else {
        Move::Goes(Inside::Plain)
    }
}

/// What a byte behind a backslash does.
#[inline(always)]
fn escaped_turn(quoting: Quoting, byte: u8) -> Move
    ensures same { result ≡ escaped_turn quoting byte }
{
    match quoting {
        Quoting::Bare if is_line_end(byte) => Move::Breaks,
        Quoting::Double | Quoting::Single if byte == b'\r' => Move::Goes(Inside::Returned),
        _ if is_hexadecimal(byte) => Move::Goes(Inside::Digits(1)),
        _ => Move::Goes(Inside::Plain),
    }
}

/// What a byte behind so many digits of an escape does.
#[inline(always)]
fn digits_turn(quoting: Quoting, count: u8, byte: u8) -> Move
    ensures same { result ≡ digits_turn quoting count byte }
{
    if is_hexadecimal(byte) && count <= 5 {
        Move::Goes(Inside::Digits(count + 1))
    } else if byte == b'\r' {
        Move::Goes(Inside::Returned)
    } else if is_blank(byte) {
        Move::Goes(Inside::Plain)
    } else {
        plain_turn(quoting, byte)
    }
}

/// What a byte behind a CR of an escape does.
#[inline(always)]
fn returned_turn(quoting: Quoting, byte: u8) -> Move
    ensures same { result ≡ returned_turn quoting byte }
{
    if byte == b'\n' {
        Move::Goes(Inside::Plain)
    } else {
        plain_turn(quoting, byte)
    }
}

/// What a byte of the address does.
#[inline(always)]
fn turn(quoting: Quoting, inside: Inside, byte: u8) -> Move
    ensures same { result ≡ turn quoting inside byte }
{
    match inside {
        Inside::Plain => plain_turn(quoting, byte),
        Inside::Escaped => escaped_turn(quoting, byte),
        Inside::Digits(count) => digits_turn(quoting, count, byte),
        Inside::Returned => returned_turn(quoting, byte),
    }
}

/// Where the address ends whose first byte stands at a place; it may have none.
#[tactic(auto, using(crate::proofs::Addresses::begun, crate::proofs::Addresses::turned_on, crate::proofs::Addresses::ended, crate::proofs::Addresses::run_out))]
pub(crate) fn address_end(text: &[u8], from: usize, quoting: Quoting) -> Result<usize, Broken>
    requires within { from ≤ length text.now }
    requires short { length text.now < 2 ^ 32 }
    ensures address { IfOk result (λ end. address_end text.now from quoting ≡ Some end) }
    ensures end { IfOk result (λ end. (from ≤ end) × (end ≤ length text.now)) }
    ensures broken { IfErr result (λ broken. (from ≤ broken.at) × (broken.at < length text.now)) }
{
    let mut inside = Inside::Plain;
    for at in from..text.len() {
        match turn(quoting, inside, text[at]) {
            Move::Ends => return Ok(at),
            Move::Goes(next) => inside = next,
            Move::Breaks => return Err(Broken { at }),
        }
    }
    Ok(text.len())
}
