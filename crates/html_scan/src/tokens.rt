// Tokens of a page: tags, comments, doctypes and text.
ghost use Rattle.std.specs.Prelude.{◌≡◌, ◌≤◌, ◌<◌, ◌+◌, ◌-◌, ◌^◌, IfSome, length, slice_index};
ghost use Rattle.html_scan.specs.Tags.{IsTagAt, IsTokenAt};

use crate::attributes::{attribute_at, attribute_start};
use crate::bytes::{byte_at, ends_tag_name, is_letter};
use crate::comments::{bogus_comment_end, character_data_end, comment_end};
use crate::outline::Span;

/// A start tag or an end tag.
#[derive(Clone, Copy)]
pub(crate) struct Tag {
    /// From its `<` to behind its `>`.
    pub span: Span,
    /// Its name.
    pub name: Span,
    /// Whether a slash stands before its `>`.
    pub is_self_closing: bool,
}

/// A token of a page.
#[derive(Clone, Copy)]
pub(crate) enum Token {
    Start(Tag),
    End(Tag),
    /// A doctype that is closed, and where it ends.
    Doctype(usize),
    /// Text, a comment, or a tag that isn't closed, and where it ends.
    Other(usize),
}

/// The token at a place. In foreign content, `svg` and `math`, there are CDATA sections.
pub(crate) fn token_at(text: &[u8], at: usize, is_foreign: bool) -> Token
    requires within { at < length text.now }
    requires short { length text.now < 2 ^ 32 }
    ensures token { IsTokenAt text.now at result }
{
    if text[at] != b'<' {
        return Token::Other(text_end(text, at + 1));
    }
    match byte_at(text, at + 1) {
        b'!' => declaration(text, at, is_foreign),
        b'?' => Token::Other(bogus_comment_end(text, at + 1)),
        b'/' => end_tag(text, at),
        letter if is_letter(letter) => start_tag(text, at),
        _ => Token::Other(at + 1),
    }
}

/// Where a run of text ends: before the next `<`.
fn text_end(text: &[u8], at: usize) -> usize
    requires within { at ≤ length text.now }
    ensures from { at ≤ result }
    ensures to { result ≤ length text.now }
{
    for end in at..text.len() {
        if text[end] == b'<' {
            return end;
        }
    }
    text.len()
}

/// The token that begins with the `<!` at a place.
fn declaration(text: &[u8], at: usize, is_foreign: bool) -> Token
    requires within { at + 2 ≤ length text.now }
    requires short { length text.now < 2 ^ 32 }
    ensures token { IsTokenAt text.now at result }
{
    let rest = &text[at + 2..];
    if rest.starts_with(b"--") {
        return Token::Other(comment_end(text, at + 4));
    }
    if is_foreign && rest.starts_with(b"[CDATA[") {
        return Token::Other(character_data_end(text, at + 9));
    }
    let end = bogus_comment_end(text, at + 2);
    if begins_doctype(rest) && byte_at(text, end - 1) == b'>' {
        return Token::Doctype(end);
    }
    Token::Other(end)
}

/// Whether bytes behind a `<!` are those of a doctype.
fn begins_doctype(rest: &[u8]) -> bool {
    rest.len() >= 7 && rest[..7].eq_ignore_ascii_case(b"doctype")
}

/// The token that begins with the `<` before a letter.
fn start_tag(text: &[u8], at: usize) -> Token
    requires start { slice_index text.now at ≡ 60 }
    requires within { at + 2 ≤ length text.now }
    requires short { length text.now < 2 ^ 32 }
    ensures token { IsTokenAt text.now at result }
{
    match tag_at(text, at, at + 1) {
        Some(tag) => Token::Start(tag),
        None => Token::Other(text.len()),
    }
}

/// The token that begins with the `</` at a place.
fn end_tag(text: &[u8], at: usize) -> Token
    requires start { slice_index text.now at ≡ 60 }
    requires within { at + 2 ≤ length text.now }
    requires short { length text.now < 2 ^ 32 }
    ensures token { IsTokenAt text.now at result }
{
    if !is_letter(byte_at(text, at + 2)) {
        return Token::Other(bogus_comment_end(text, at + 2));
    }
    match tag_at(text, at, at + 2) {
        Some(tag) => Token::End(tag),
        None => Token::Other(text.len()),
    }
}

/// The tag whose `<` stands at a place and whose name begins at another; none where it isn't closed.
fn tag_at(text: &[u8], at: usize, name: usize) -> Option<Tag>
    requires start { slice_index text.now at ≡ 60 }
    requires name { at < name }
    requires within { name < length text.now }
    requires short { length text.now < 2 ^ 32 }
    ensures tag { IfSome result (λ t. IsTagAt text.now at t) }
{
    let name_end = tag_name_end(text, name + 1);
    let end = tag_end(text, name_end)?;
    Some(Tag {
        span: Span {
            start: at as u32,
            end: end.at as u32,
        },
        name: Span {
            start: name as u32,
            end: name_end as u32,
        },
        is_self_closing: end.is_self_closing,
    })
}

/// Where the name of a tag ends, of which a place behind its first byte is given.
fn tag_name_end(text: &[u8], at: usize) -> usize
    requires within { at ≤ length text.now }
    ensures from { at ≤ result }
    ensures to { result ≤ length text.now }
{
    for end in at..text.len() {
        if ends_tag_name(text[end]) {
            return end;
        }
    }
    text.len()
}

/// Where a tag ends.
#[derive(Clone, Copy)]
pub(crate) struct TagEnd {
    /// The place behind its `>`.
    pub at: usize,
    /// Whether a slash stands before it.
    pub is_self_closing: bool,
}

/// Where the tag ends whose name ends at a place; none where it isn't closed.
pub(crate) fn tag_end(text: &[u8], name_end: usize) -> Option<TagEnd>
    requires within { name_end ≤ length text.now }
    requires short { length text.now < 2 ^ 32 }
    ensures end { IfSome result (λ e. (name_end < e.at) × (e.at ≤ length text.now)) }
    ensures closed { IfSome result (λ e. slice_index text.now (e.at - 1) ≡ 62) }
{
    let mut at = name_end;
    while at < text.len() {
        let start = attribute_start(text, at);
        if start == text.len() {
            return None;
        }
        if text[start] == b'>' {
            return Some(TagEnd {
                at: start + 1,
                is_self_closing: start > at && text[start - 1] == b'/',
            });
        }
        at = attribute_at(text, start)?.end;
    }
    None
}
