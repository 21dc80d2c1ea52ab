// Elements whose content is text up to their end tag, and scripts, whose content may have comments that hide
// end tags.
ghost use Rattle.std.specs.Prelude.{◌≡◌, ◌≤◌, ◌<◌, ◌+◌, IfSome, length, slice_index, true};

use crate::bytes::{byte_at, ends_tag_name};

/// Whether a name and what ends it stand at a place, in any letter case.
fn is_name_at(text: &[u8], at: usize, name: &[u8]) -> bool
    ensures within { result ≡ true → at + length name.now < length text.now }
{
    if at >= text.len() || text.len() - at <= name.len() {
        return false;
    }
    let end = at + name.len();
    ends_tag_name(text[end]) && text[at..end].eq_ignore_ascii_case(name)
}

/// Whether an end tag by this name begins at a place.
fn is_end_tag(text: &[u8], at: usize, name: &[u8]) -> bool
    requires within { at < length text.now }
    ensures opened { result ≡ true → slice_index text.now at ≡ 60 }
    ensures closed { result ≡ true → slice_index text.now (at + 1) ≡ 47 }
    ensures within { result ≡ true → at + 2 + length name.now < length text.now }
{
    text[at] == b'<' && byte_at(text, at + 1) == b'/' && is_name_at(text, at + 2, name)
}

/// Where the content ends of an element by this name that begins at a place: before its end tag, or with the
/// text.
pub(crate) fn raw_text_end(text: &[u8], from: usize, name: &[u8]) -> usize
    requires within { from ≤ length text.now }
    ensures from { from ≤ result }
    ensures to { result ≤ length text.now }
{
    for at in from..text.len() {
        if is_end_tag(text, at, name) {
            return at;
        }
    }
    text.len()
}

/// How many dashes stand before a place.
#[derive(Clone, Copy, PartialEq)]
enum Dashes {
    None,
    One,
    More,
}

/// Whether a script is in a comment.
#[derive(Clone, Copy, PartialEq)]
enum Escape {
    /// In none.
    None,
    /// Behind a `<!--`, where an end tag still ends the script.
    Comment(Dashes),
    /// Behind a `<!--` and a `<script`, where an end tag ends no more than that.
    InnerScript(Dashes),
}

impl Dashes {
    /// How many they are behind a byte.
    fn behind(self, byte: u8) -> Dashes {
        match (self, byte) {
            (Dashes::None, b'-') => Dashes::One,
            (_, b'-') => Dashes::More,
            _ => Dashes::None,
        }
    }
}

impl Escape {
    /// Whether an end tag ends the script here.
    fn may_end(self) -> bool {
        !matches!(self, Escape::InnerScript(_))
    }

    /// Whether the script is in a comment behind the byte at a place; the script begins at `from`.
    fn behind(self, text: &[u8], from: usize, at: usize) -> Escape
        requires within { at < length text.now }
        requires from { from ≤ at }
    {
        let byte = text[at];
        match self {
            Escape::None
                if byte == b'-' && at >= from + 3 && text[at - 3..at].starts_with(b"<!-") => {
                Escape::Comment(Dashes::More)
            }
            Escape::None => Escape::None,
            Escape::Comment(Dashes::More) if byte == b'>' => Escape::None,
            Escape::InnerScript(Dashes::More) if byte == b'>' => Escape::None,
            Escape::Comment(_) if byte == b'<' && is_name_at(text, at + 1, b"script") => {
                Escape::InnerScript(Dashes::None)
            }
            Escape::InnerScript(_) if is_end_tag(text, at, b"script") => {
                Escape::Comment(Dashes::None)
            }
            Escape::Comment(dashes) => Escape::Comment(dashes.behind(byte)),
            Escape::InnerScript(dashes) => Escape::InnerScript(dashes.behind(byte)),
        }
    }
}

/// Where the content of a script ends that begins at a place: before its end tag; none where it has none.
pub(crate) fn script_end(text: &[u8], from: usize) -> Option<usize>
    requires within { from ≤ length text.now }
    ensures from { IfSome result (λ end. from ≤ end) }
    ensures opened { IfSome result (λ end. slice_index text.now end ≡ 60) }
    ensures closed { IfSome result (λ end. slice_index text.now (end + 1) ≡ 47) }
    ensures within { IfSome result (λ end. end + 8 < length text.now) }
{
    let mut escape = Escape::None;
    for at in from..text.len() {
        if escape.may_end() && is_end_tag(text, at, b"script") {
            return Some(at);
        }
        escape = escape.behind(text, from, at);
    }
    None
}
