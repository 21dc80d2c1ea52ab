// Escapes outside of strings: a backslash and what it takes.
ghost use Rattle.std.specs.Prelude.{◌≤◌, ◌<◌, ◌+◌, length};

use crate::bytes::{byte_at, is_blank, is_hexadecimal, is_line_end};

/// Whether a backslash at a place, where one stands there, takes what is behind it: it does but before a line
/// end.
pub(crate) fn is_escape(text: &[u8], at: usize) -> bool
    requires within { at < length text.now }
{
    text[at] == b'\\' && !is_line_end(byte_at(text, at + 1))
}

/// Where the escape ends whose backslash stands at a place: behind up to six hexadecimal digits and one
/// blank, or behind one other byte.
pub(crate) fn escape_end(text: &[u8], at: usize) -> usize
    requires within { at < length text.now }
    ensures from { at < result }
    ensures to { result ≤ length text.now }
{
    let digits = digits_end(text, at + 1);
    if digits == at + 1 {
        return digits.max(text.len().min(at + 2));
    }
    digits + blank_length(text, digits)
}

/// Where a run of at most six hexadecimal digits ends.
fn digits_end(text: &[u8], at: usize) -> usize
    requires within { at ≤ length text.now }
    ensures from { at ≤ result }
    ensures to { result ≤ length text.now }
{
    let most = if text.len() - at < 6 {
        text.len()
    } else {
        at + 6
    };
    for end in at..most {
        if !is_hexadecimal(text[end]) {
            return end;
        }
    }
    most
}

/// How many bytes the one blank at a place has, CR LF being one; 0 where none stands there.
fn blank_length(text: &[u8], at: usize) -> usize
    requires within { at ≤ length text.now }
    ensures to { at + result ≤ length text.now }
{
    if byte_at(text, at) == b'\r' && byte_at(text, at + 1) == b'\n' {
        return 2;
    }
    if at < text.len() && is_blank(text[at]) {
        1
    } else {
        0
    }
}
