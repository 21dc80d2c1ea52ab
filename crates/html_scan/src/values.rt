// Values of attributes as browsers read them: character references stand for characters.
ghost use Rattle.std.specs.Prelude.{◌≡◌, ◌≤◌, ◌<◌, IfOk, IfSome, false, length, slice_range};

use crate::bytes::byte_at;
use crate::outline::Attribute;
use std::alloc::{AllocError, Global};

/// The value of an attribute of a text, with its character references decoded: `&amp;`, `&lt;`, `&gt;`,
/// `&quot;` and `&apos;`, and numeric ones, decimal and hexadecimal, with or without their semicolon. Other
/// named references stay as they are, and so do a NUL and a CR, which browsers change. An attribute that isn't
/// of this text may give nothing.
///
/// It takes time and memory linear in the value. It fails only where there is no memory.
pub fn attribute_value(
    alloc: Global,
    text: &[u8],
    attribute: Attribute,
) -> Result<Vec<u8>, AllocError>
    ensures plain { attribute.has_references ≡ false → attribute.value.start ≤ attribute.value.end → attribute.value.end ≤ length text.now → IfOk result (λ v. v.items ≡ slice_range text.now attribute.value.start attribute.value.end) }
{
    let start = attribute.value.start as usize;
    let end = attribute.value.end as usize;
    if end < start || text.len() < end {
        return Ok(Vec::new(alloc));
    }
    let written = &text[start..end];
    if attribute.has_references {
        decoded(alloc, written)
    } else {
        Vec::from_slice(alloc, written)
    }
}

/// What is written, with its character references decoded.
fn decoded(alloc: Global, written: &[u8]) -> Result<Vec<u8>, AllocError> {
    let mut value = Vec::new(alloc);
    let mut at = 0;
    while at < written.len() {
        match reference_at(written, at) {
            Some(reference) => {
                push_character(&mut value, reference.character)?;
                at = reference.end;
            }
            None => {
                value.push(written[at])?;
                at += 1;
            }
        }
    }
    Ok(value)
}

/// Puts the bytes of a character.
fn push_character(value: &mut Vec<u8>, character: char) -> Result<(), AllocError> {
    let mut bytes = [0; 4];
    value.extend_from_slice(character.encode_utf8(&mut bytes).as_bytes())
}

/// A character reference: the character that it stands for, and where it ends.
#[derive(Clone, Copy)]
struct Reference {
    character: char,
    end: usize,
}

/// The character reference at a place, where one that is decoded stands there.
fn reference_at(written: &[u8], at: usize) -> Option<Reference>
    requires within { at < length written.now }
    ensures end { IfSome result (λ r. (at < r.end) × (r.end ≤ length written.now)) }
{
    if written[at] != b'&' {
        return None;
    }
    if byte_at(written, at + 1) == b'#' {
        return numeric_reference(written, at + 2);
    }
    named_reference(written, at + 1)
}

/// The named reference whose name begins at a place.
fn named_reference(written: &[u8], from: usize) -> Option<Reference>
    requires within { from ≤ length written.now }
    ensures end { IfSome result (λ r. (from < r.end) × (r.end ≤ length written.now)) }
{
    let (character, length) = match &written[from..] {
        [b'a', b'm', b'p', b';', ..] => ('&', 4),
        [b'l', b't', b';', ..] => ('<', 3),
        [b'g', b't', b';', ..] => ('>', 3),
        [b'q', b'u', b'o', b't', b';', ..] => ('"', 5),
        [b'a', b'p', b'o', b's', b';', ..] => ('\'', 5),
        _ => return None,
    };
    Some(Reference {
        character,
        end: from + length,
    })
}

/// The numeric reference of which a place behind its `&#` is given.
fn numeric_reference(written: &[u8], from: usize) -> Option<Reference>
    requires within { from ≤ length written.now }
    ensures end { IfSome result (λ r. (from < r.end) × (r.end ≤ length written.now)) }
{
    let mark = byte_at(written, from);
    let is_hexadecimal = mark == b'x' || mark == b'X';
    let first = if is_hexadecimal { from + 1 } else { from };
    let radix = if is_hexadecimal { 16 } else { 10 };
    let end = digits_end(written, first, radix);
    if end == first {
        return None;
    }
    let has_semicolon = byte_at(written, end) == b';';
    Some(Reference {
        character: character_of(number(&written[first..end], radix)),
        end: if has_semicolon { end + 1 } else { end },
    })
}

/// Where a run of digits of this radix ends.
fn digits_end(written: &[u8], from: usize, radix: u32) -> usize
    requires within { from ≤ length written.now }
    ensures from { from ≤ result }
    ensures to { result ≤ length written.now }
{
    for end in from..written.len() {
        if digit_value(written[end], radix).is_none() {
            return end;
        }
    }
    written.len()
}

/// The number that digits of this radix write; the largest `u32` where it is larger.
fn number(digits: &[u8], radix: u32) -> u32 {
    let mut number: u32 = 0;
    for byte in digits {
        if let Some(digit) = digit_value(*byte, radix) {
            number = number.saturating_mul(radix).saturating_add(digit);
        }
    }
    number
}

/// The value of a digit of this radix, 10 or 16.
fn digit_value(byte: u8, radix: u32) -> Option<u32> {
    match byte {
        b'0'..=b'9' => Some(u32::from(byte - b'0')),
        b'a'..=b'f' if radix == 16 => Some(u32::from(byte - b'a') + 10),
        b'A'..=b'F' if radix == 16 => Some(u32::from(byte - b'A') + 10),
        _ => None,
    }
}

/// What the numbers 128 to 159 stand for: the characters of windows-1252.
static WINDOWS: [u32; 32] = [
    0x20AC, 0x81, 0x201A, 0x0192, 0x201E, 0x2026, 0x2020, 0x2021, 0x02C6, 0x2030, 0x0160, 0x2039,
    0x0152, 0x8D, 0x017D, 0x8F, 0x90, 0x2018, 0x2019, 0x201C, 0x201D, 0x2022, 0x2013, 0x2014,
    0x02DC, 0x2122, 0x0161, 0x203A, 0x0153, 0x9D, 0x017E, 0x0178,
];

/// The character that a numeric reference stands for.
fn character_of(code: u32) -> char {
    let code = match code {
        0 => return '\u{FFFD}',
        128..=159 => WINDOWS[code as usize - 128],
        _ => code,
    };
    match char::from_u32(code) {
        Some(character) => character,
        None => '\u{FFFD}',
    }
}
