// What stands between tokens: WhiteSpace, LineTerminators and Comments of ECMA-262, called blanks here.
ghost use Rattle.std.specs.Prelude.{◌≡◌, ◌≤◌, ◌<◌, ◌+◌, ◌^◌, IfErr, IfOk, length};

use crate::bytes::byte_at;
use crate::fault::{Fault, FaultKind};

/// How many bytes the white space or line terminator beyond ASCII at a place has; 0 where none stands there.
pub(crate) fn wide_blank(text: &[u8], at: usize) -> usize
    requires within { at < length text.now }
    ensures to { at + result ≤ length text.now }
{
    match &text[at..] {
        [0xC2, 0xA0, ..] => 2,
        [0xE1, 0x9A, 0x80, ..] => 3,
        [0xE2, 0x80, 0x80..=0x8A, ..] => 3,
        [0xE2, 0x80, 0xA8, ..] => 3,
        [0xE2, 0x80, 0xA9, ..] => 3,
        [0xE2, 0x80, 0xAF, ..] => 3,
        [0xE2, 0x81, 0x9F, ..] => 3,
        [0xE3, 0x80, 0x80, ..] => 3,
        [0xEF, 0xBB, 0xBF, ..] => 3,
        _ => 0,
    }
}

/// Whether a line terminator begins at a place: LF, CR, U+2028 or U+2029.
#[inline(always)]
pub(crate) fn is_line_terminator(text: &[u8], at: usize) -> bool
    requires within { at < length text.now }
{
    match text[at] {
        b'\n' | b'\r' => true,
        0xE2 => matches!(&text[at..], [_, 0x80, 0xA8, ..] | [_, 0x80, 0xA9, ..]),
        _ => false,
    }
}

/// Where the line of a place ends, before its line terminator.
pub(crate) fn line_end(text: &[u8], at: usize) -> usize
    requires within { at ≤ length text.now }
    ensures from { at ≤ result }
    ensures to { result ≤ length text.now }
{
    for end in at..text.len() {
        if is_line_terminator(text, end) {
            return end;
        }
    }
    text.len()
}

/// Where the MultiLineComment ends whose `/*` stands at a place.
pub(crate) fn comment_end(text: &[u8], at: usize) -> Result<usize, Fault>
    requires within { at + 2 ≤ length text.now }
    requires short { length text.now < 2 ^ 32 }
    ensures end { IfOk result (λ end. (at + 2 ≤ end) × (end ≤ length text.now)) }
    ensures fault { IfErr result (λ fault. fault.at ≡ at) }
{
    for star in at + 2..text.len() {
        if text[star] == b'*' && byte_at(text, star + 1) == b'/' {
            return Ok(star + 2);
        }
    }
    Err(Fault::new(FaultKind::OpenComment, at))
}

/// Whether a line terminator is among these bytes.
pub(crate) fn breaks_line(bytes: &[u8]) -> bool {
    for at in 0..bytes.len() {
        if is_line_terminator(bytes, at) {
            return true;
        }
    }
    false
}

/// Where the blanks end that begin at a place.
pub(crate) fn skip_blanks(text: &[u8], at: usize) -> Result<usize, Fault>
    requires within { at ≤ length text.now }
    requires short { length text.now < 2 ^ 32 }
    ensures end { IfOk result (λ end. (at ≤ end) × (end ≤ length text.now)) }
    ensures fault { IfErr result (λ fault. (at ≤ fault.at) × (fault.at ≤ length text.now)) }
{
    let mut end = at;
    while end < text.len() {
        let next = blank_end(text, end)?;
        if next == end {
            return Ok(end);
        }
        end = next;
    }
    Ok(end)
}

/// Where the one blank at a place ends; the place itself where none stands there.
fn blank_end(text: &[u8], at: usize) -> Result<usize, Fault>
    requires within { at < length text.now }
    requires short { length text.now < 2 ^ 32 }
    ensures end { IfOk result (λ end. (at ≤ end) × (end ≤ length text.now)) }
    ensures fault { IfErr result (λ fault. fault.at ≡ at) }
{
    match text[at] {
        b' ' | b'\t' | b'\n' | b'\r' | 0x0B | 0x0C => Ok(at + 1),
        b'/' if byte_at(text, at + 1) == b'/' => Ok(line_end(text, at)),
        b'/' if byte_at(text, at + 1) == b'*' => comment_end(text, at),
        128..=255 => Ok(at + wide_blank(text, at)),
        _ => Ok(at),
    }
}
