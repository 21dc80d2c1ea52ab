// Names, and the words that they are: in any letter case, and with escapes for their characters.
ghost use Rattle.std.specs.Prelude.{◌≤◌, ◌<◌, ◌+◌, length};

use crate::bytes::{begins_name, byte_at, is_hexadecimal, is_name_byte};
use crate::escapes::{escape_end, is_escape};

/// Whether a name begins at a place.
pub(crate) fn begins_word(text: &[u8], at: usize) -> bool
    requires within { at ≤ length text.now }
{
    let first = byte_at(text, at);
    if first == b'-' {
        return byte_at(text, at + 1) == b'-' || begins_letters(text, at + 1);
    }
    begins_letters(text, at)
}

/// Whether a letter, `_`, a character beyond ASCII or an escape stands at a place.
fn begins_letters(text: &[u8], at: usize) -> bool {
    at < text.len() && (begins_name(text[at]) || is_escape(text, at))
}

/// Where the run of bytes and escapes of names ends that begins at a place.
pub(crate) fn word_end(text: &[u8], at: usize) -> usize
    requires within { at ≤ length text.now }
    ensures from { at ≤ result }
    ensures to { result ≤ length text.now }
{
    let mut end = at;
    while end < text.len() {
        if is_name_byte(text[end]) {
            end += 1;
        } else if is_escape(text, end) {
            end = escape_end(text, end);
        } else {
            return end;
        }
    }
    end
}

/// A character of a name, by its number where that is of ASCII, and where it ends.
#[derive(Clone, Copy)]
struct Character {
    code: u32,
    end: usize,
}

/// The character at a place of a name.
fn character_at(text: &[u8], at: usize) -> Character
    requires within { at < length text.now }
    ensures from { at < result.end }
    ensures to { result.end ≤ length text.now }
{
    if text[at] != b'\\' {
        return Character {
            code: u32::from(text[at]),
            end: at + 1,
        };
    }
    let end = escape_end(text, at);
    if !is_hexadecimal(byte_at(text, at + 1)) {
        return Character {
            code: u32::from(byte_at(text, at + 1)),
            end,
        };
    }
    let mut code: u32 = 0;
    for place in at + 1..end {
        let byte = text[place];
        if is_hexadecimal(byte) {
            code = code.wrapping_mul(16).wrapping_add(digit_value(byte));
        }
    }
    Character { code, end }
}

/// The value of a hexadecimal digit.
fn digit_value(byte: u8) -> u32 {
    match byte {
        b'0'..=b'9' => u32::from(byte - b'0'),
        b'a'..=b'f' => u32::from(byte - b'a') + 10,
        b'A'..=b'F' => u32::from(byte - b'A') + 10,
        _ => 0,
    }
}

/// Whether the name from a place to another is this word of lower-case letters and `-`, in any letter case.
pub(crate) fn is_word(text: &[u8], from: usize, to: usize, word: &[u8]) -> bool
    requires within { to ≤ length text.now }
{
    let mut at = from;
    for letter in word {
        if at >= to {
            return false;
        }
        let next = character_at(text, at);
        if lower_case(next.code) != u32::from(*letter) {
            return false;
        }
        at = next.end;
    }
    at == to
}

/// The lower-case letter of a letter of ASCII; any other character as it is.
fn lower_case(code: u32) -> u32 {
    if 65 <= code && code <= 90 {
        code + 32
    } else {
        code
    }
}
