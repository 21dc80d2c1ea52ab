// Component values of rules: what a token is, and the brackets that are open.
ghost use Rattle.std.specs.Prelude.{◌≡◌, ◌≤◌, ◌<◌, ◌^◌, IfOk, IfSome, IsSome, length, true};
ghost use Rattle.css_scan.specs.Styles.{begins};

use crate::address::address_end;
use crate::bytes::{byte_at, is_name_byte};
use crate::escapes::{escape_end, is_escape};
use crate::outline::Quoting;
use crate::skipping::{begins_comment, blanks_end, comment_end};
use crate::words::{is_word, word_end};
use std::alloc::AllocError;

/// The quoting of a string that begins with this byte.
pub(crate) fn quoting_of(byte: u8) -> Option<Quoting>
    ensures quote { IfSome result (λ quoting. begins quoting byte ≡ true) }
    ensures some { IsSome result → 0 < byte }
{
    match byte {
        b'"' => Some(Quoting::Double),
        b'\'' => Some(Quoting::Single),
        _ => None,
    }
}

/// Where the string ends that begins at a place behind its quote: behind its other quote, with the text, or
/// before the line end that breaks it.
fn string_end(text: &[u8], from: usize, quoting: Quoting) -> usize
    requires within { from ≤ length text.now }
    requires short { length text.now < 2 ^ 32 }
    ensures from { from ≤ result }
    ensures to { result ≤ length text.now }
{
    match address_end(text, from, quoting) {
        Ok(end) if end < text.len() => end + 1,
        Ok(end) => end,
        Err(broken) => broken.at,
    }
}

/// Where the `url(..)` without quotes ends whose address begins at a place: behind its parenthesis, or with
/// the text.
pub(crate) fn url_end(text: &[u8], from: usize) -> usize
    requires within { from ≤ length text.now }
    ensures from { from ≤ result }
    ensures to { result ≤ length text.now }
{
    let mut at = from;
    while at < text.len() {
        if text[at] == b')' {
            return at + 1;
        }
        at = if is_escape(text, at) {
            escape_end(text, at)
        } else {
            at + 1
        };
    }
    at
}

/// Passes the token or comment at a place: where it ends. `open` has the closing brackets of those that are
/// open, the innermost last.
pub(crate) fn pass_token(text: &[u8], at: usize, open: &mut Vec<u8>) -> Result<usize, AllocError>
    requires within { at < length text.now }
    requires short { length text.now < 2 ^ 32 }
    ensures end { IfOk result (λ end. (at < end) × (end ≤ length text.now)) }
{
    let byte = text[at];
    if let Some(quoting) = quoting_of(byte) {
        return Ok(string_end(text, at + 1, quoting));
    }
    match byte {
        b'/' if begins_comment(text, at) => return Ok(comment_end(text, at)),
        b'<' if text[at..].starts_with(b"<!--") => return Ok(at + 4),
        b'#' | b'@' => return Ok(word_end(text, at + 1)),
        b'(' => open.push(b')')?,
        b'[' => open.push(b']')?,
        b'{' => open.push(b'}')?,
        b')' | b']' | b'}' => close(open, byte),
        _ if is_name_byte(byte) || is_escape(text, at) => return pass_word(text, at, open),
        _ => {}
    }
    Ok(at + 1)
}

/// Closes the innermost bracket, where it is one that this byte closes.
fn close(open: &mut Vec<u8>, byte: u8) {
    if open.last() == Some(&byte) {
        open.pop();
    }
}

/// Passes the name at a place, with its parenthesis where it is `url`: where it ends.
fn pass_word(text: &[u8], at: usize, open: &mut Vec<u8>) -> Result<usize, AllocError>
    requires within { at < length text.now }
    requires short { length text.now < 2 ^ 32 }
    ensures end { IfOk result (λ end. (at < end) × (end ≤ length text.now)) }
{
    let end = word_end(text, at).max(at + 1);
    if byte_at(text, end) != b'(' || !is_word(text, at, end, b"url") {
        return Ok(end);
    }
    let from = blanks_end(text, end + 1);
    if quoting_of(byte_at(text, from)).is_some() {
        open.push(b')')?;
        return Ok(from);
    }
    Ok(url_end(text, from))
}
