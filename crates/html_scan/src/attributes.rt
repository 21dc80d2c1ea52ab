// Attributes of tags: where one begins and ends, and the first of a name.
ghost use Rattle.std.specs.Prelude.{◌≡◌, ◌≢◌, ℕ, ◌≤◌, ◌<◌, ◌+◌, ◌-◌, ◌^◌, IfSome, length, slice_index, true};
ghost use Rattle.html_scan.specs.Pages.{IsAddress, IsOpened, IsTag, IsValue, begins};

use crate::bytes::{byte_at, ends_value, is_space};
use crate::outline::{Attribute, Quoting, Span};
use crate::tokens::Tag;

/// An attribute as it is written.
#[derive(Clone, Copy)]
pub(crate) struct WrittenAttribute {
    /// Where its name ends.
    pub name_end: usize,
    /// Its value, perhaps empty. None where it has no `=`, or nothing behind it.
    pub value: Option<Attribute>,
    /// Where the tag goes on.
    pub end: usize,
}

/// Where a run of white space ends.
fn spaces_end(text: &[u8], at: usize) -> usize
    requires within { at ≤ length text.now }
    ensures from { at ≤ result }
    ensures to { result ≤ length text.now }
    ensures opened { IsOpened text.now at → IsOpened text.now result }
{
    for end in at..text.len() {
        if !is_space(text[end]) {
            return end;
        }
    }
    text.len()
}

/// Where the next attribute or the `>` of a tag stands, behind white space and slashes.
pub(crate) fn attribute_start(text: &[u8], at: usize) -> usize
    requires within { at ≤ length text.now }
    ensures from { at ≤ result }
    ensures to { result ≤ length text.now }
{
    for start in at..text.len() {
        if !is_space(text[start]) && text[start] != b'/' {
            return start;
        }
    }
    text.len()
}

/// Where the name of an attribute ends, of which a place behind its first byte is given.
fn name_end(text: &[u8], at: usize) -> usize
    requires within { at ≤ length text.now }
    ensures from { at ≤ result }
    ensures to { result ≤ length text.now }
{
    for end in at..text.len() {
        let byte = text[end];
        if is_space(byte) || byte == b'/' || byte == b'>' || byte == b'=' {
            return end;
        }
    }
    text.len()
}

/// The value that begins at a place; none where it has no end.
fn value_at(text: &[u8], from: usize, quoting: Quoting) -> Option<Attribute>
    requires within { from ≤ length text.now }
    requires opened { begins quoting (slice_index text.now (from - 1)) ≡ true }
    requires short { length text.now < 2 ^ 32 }
    ensures value { IfSome result (λ a. IsValue text.now a) }
    ensures start { IfSome result (λ a. a.value.start ≡ from) }
    ensures quoting { IfSome result (λ a. a.quoting ≡ quoting) }
{
    let mut has_references = false;
    for at in from..text.len() {
        let byte = text[at];
        if ends_value(quoting, byte) {
            return Some(Attribute {
                value: Span {
                    start: from as u32,
                    end: at as u32,
                },
                quoting,
                has_references,
            });
        }
        has_references = has_references || byte == b'&';
    }
    None
}

/// The attribute at a place; none where its value has no end.
pub(crate) fn attribute_at(text: &[u8], at: usize) -> Option<WrittenAttribute>
    requires within { at < length text.now }
    requires short { length text.now < 2 ^ 32 }
    ensures name { IfSome result (λ w. (at < w.name_end) × (w.name_end ≤ w.end)) }
    ensures end { IfSome result (λ w. w.end ≤ length text.now) }
    ensures value { IfSome result (λ w. IfSome w.value (λ a. IsValue text.now a)) }
    ensures after { IfSome result (λ w. IfSome w.value (λ a. (at < a.value.start) × (a.value.end ≤ w.end))) }
{
    let name_end = name_end(text, at + 1);
    let equals = spaces_end(text, name_end);
    if byte_at(text, equals) != b'=' {
        return Some(WrittenAttribute {
            name_end,
            value: None,
            end: name_end,
        });
    }
    let from = spaces_end(text, equals + 1);
    match byte_at(text, from) {
        b'"' => quoted(text, name_end, from, Quoting::Double),
        b'\'' => quoted(text, name_end, from, Quoting::Single),
        b'>' => Some(WrittenAttribute {
            name_end,
            value: None,
            end: from,
        }),
        _ => bare(text, name_end, from),
    }
}

/// The attribute whose value's quote stands at a place.
fn quoted(text: &[u8], name_end: usize, at: usize, quoting: Quoting) -> Option<WrittenAttribute>
    requires name { name_end < at }
    requires within { at < length text.now }
    requires opened { begins quoting (slice_index text.now at) ≡ true }
    requires short { length text.now < 2 ^ 32 }
    ensures name { IfSome result (λ w. (w.name_end ≡ name_end) × (at < w.end)) }
    ensures end { IfSome result (λ w. w.end ≤ length text.now) }
    ensures value { IfSome result (λ w. IfSome w.value (λ a. IsValue text.now a)) }
    ensures after { IfSome result (λ w. IfSome w.value (λ a. (at < a.value.start) × (a.value.end ≤ w.end))) }
{
    let value = value_at(text, at + 1, quoting)?;
    Some(WrittenAttribute {
        name_end,
        value: Some(value),
        end: value.value.end as usize + 1,
    })
}

/// The attribute whose value stands at a place, without quotes.
fn bare(text: &[u8], name_end: usize, at: usize) -> Option<WrittenAttribute>
    requires name { name_end < at }
    requires within { at ≤ length text.now }
    requires opened { IsOpened text.now at }
    requires short { length text.now < 2 ^ 32 }
    ensures name { IfSome result (λ w. (w.name_end ≡ name_end) × (at ≤ w.end)) }
    ensures end { IfSome result (λ w. w.end ≤ length text.now) }
    ensures value { IfSome result (λ w. IfSome w.value (λ a. IsValue text.now a)) }
    ensures after { IfSome result (λ w. IfSome w.value (λ a. (name_end < a.value.start) × (a.value.end ≤ w.end))) }
{
    let value = value_at(text, at, Quoting::Bare)?;
    Some(WrittenAttribute {
        name_end,
        value: Some(value),
        end: value.value.end as usize,
    })
}

/// The first attribute of a tag by this name in lower case.
pub(crate) fn find_attribute(text: &[u8], tag: Tag, name: &[u8]) -> Option<WrittenAttribute>
    requires tag { IsTag text.now tag.span }
    requires name { (tag.span.start < tag.name.end) × (tag.name.end < tag.span.end) }
    requires short { length text.now < 2 ^ 32 }
    ensures value { IfSome result (λ w. IfSome w.value (λ a. IsValue text.now a)) }
    ensures within { IfSome result (λ w. IfSome w.value (λ a. (tag.span.start < a.value.start) × (a.value.end < tag.span.end))) }
{
    let end = tag.span.end as usize;
    let mut at = tag.name.end as usize;
    while at < end {
        let start = attribute_start(text, at);
        if start >= end {
            return None;
        }
        let attribute = attribute_at(text, start)?;
        if attribute.end >= end {
            return None;
        }
        if text[start..attribute.name_end].eq_ignore_ascii_case(name) {
            return Some(attribute);
        }
        at = attribute.end;
    }
    None
}

/// The value of the first attribute of a tag by this name, where it isn't empty.
pub(crate) fn find_value(text: &[u8], tag: Tag, name: &[u8]) -> Option<Attribute>
    requires tag { IsTag text.now tag.span }
    requires name { (tag.span.start < tag.name.end) × (tag.name.end < tag.span.end) }
    requires short { length text.now < 2 ^ 32 }
    ensures address { IfSome result (λ a. IsAddress text.now tag.span a) }
{
    let value = find_attribute(text, tag, name)?.value?;
    if value.value.start == value.value.end {
        return None;
    }
    Some(value)
}
