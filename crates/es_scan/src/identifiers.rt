// IdentifierNames, as they stand in a text.
ghost use Rattle.std.specs.Prelude.{◌≤◌, ◌<◌, ◌+◌, length};

use crate::blanks::wide_blank;
use crate::bytes::{byte_at, is_identifier_byte};

/// Where the IdentifierName ends that begins at a place; the place itself where none does. Digits count, also
/// as the first byte, so the end of a number's letters is found by it too.
#[inline(always)]
pub(crate) fn identifier_end(text: &[u8], at: usize) -> usize
    requires within { at ≤ length text.now }
    ensures from { at ≤ result }
    ensures to { result ≤ length text.now }
{
    for end in at..text.len() {
        let byte = text[end];
        if !is_identifier_byte(byte) {
            return if byte < 128 && byte != b'\\' {
                end
            } else {
                wide_end(text, end)
            };
        }
    }
    text.len()
}

/// The same for a name with characters beyond ASCII or escapes, from some byte of it on.
#[inline(never)]
fn wide_end(text: &[u8], at: usize) -> usize
    requires within { at ≤ length text.now }
    ensures from { at ≤ result }
    ensures to { result ≤ length text.now }
{
    let mut end = at;
    while end < text.len() {
        let byte = text[end];
        if is_identifier_byte(byte) {
            end += 1;
        } else if byte == b'\\' {
            end = escape_end(text, end);
        } else if byte >= 128 && wide_blank(text, end) == 0 {
            end += 1;
        } else {
            return end;
        }
    }
    end
}

/// Where a UnicodeEscapeSequence in a name ends. Only its form with braces has bytes that no name has.
fn escape_end(text: &[u8], at: usize) -> usize
    requires within { at < length text.now }
    ensures from { at < result }
    ensures to { result ≤ length text.now }
{
    if byte_at(text, at + 1) != b'u' || byte_at(text, at + 2) != b'{' {
        return at + 1;
    }
    for end in at + 3..text.len() {
        if text[end] == b'}' {
            return end + 1;
        }
        if !is_identifier_byte(text[end]) {
            return end;
        }
    }
    text.len()
}
