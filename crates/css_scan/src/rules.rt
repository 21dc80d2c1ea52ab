// Rules: which of them ends the imports, where one ends, and the address of an import.
ghost use Rattle.std.specs.Prelude.{◌≡◌, ◌≤◌, ◌<◌, ◌+◌, ◌-◌, ◌^◌, IfOk, IfSome, Some, length, slice_index, true};
ghost use Rattle.css_scan.specs.Addresses.{address_end};
ghost use Rattle.css_scan.specs.Styles.{IsOpened, begins};

use crate::address::address_end;
use crate::bytes::byte_at;
use crate::components::{pass_token, quoting_of};
use crate::outline::{Quoting, Span};
use crate::skipping::{blanks_end, skip};
use crate::words::{is_word, word_end};
use std::alloc::{AllocError, Global};

/// What an at-rule is, for the imports.
#[derive(Clone, Copy, PartialEq)]
pub(crate) enum AtRule {
    /// `@import`
    Import,
    /// `@layer`, which is a statement or a block.
    Layer,
    /// `@namespace`, a statement.
    Namespace,
    /// A rule with a block.
    Block,
    /// `@charset`, and a rule that isn't known: browsers pass over it.
    Other,
}

/// The rules with a block.
static BLOCKS: [&[u8]; 16] = [
    b"media",
    b"supports",
    b"font-face",
    b"keyframes",
    b"-webkit-keyframes",
    b"page",
    b"container",
    b"property",
    b"counter-style",
    b"font-feature-values",
    b"font-palette-values",
    b"scope",
    b"starting-style",
    b"view-transition",
    b"position-try",
    b"function",
];

/// What the at-rule is whose name stands from a place to another.
pub(crate) fn at_rule(text: &[u8], from: usize, to: usize) -> AtRule
    requires within { to ≤ length text.now }
{
    if is_word(text, from, to, b"import") {
        return AtRule::Import;
    }
    if is_word(text, from, to, b"layer") {
        return AtRule::Layer;
    }
    if is_word(text, from, to, b"namespace") {
        return AtRule::Namespace;
    }
    for word in BLOCKS {
        if is_word(text, from, to, word) {
            return AtRule::Block;
        }
    }
    AtRule::Other
}

/// Where what stands before a block or a semicolon ends.
#[derive(Clone, Copy)]
pub(crate) struct PreludeEnd {
    /// The place of the block's `{`; else behind the semicolon, or the end of the text.
    pub at: usize,
    /// Whether a block begins there.
    pub is_block: bool,
}

/// Where the prelude of an at-rule ends whose next token stands at a place. `open` has the closing brackets
/// of those that are open in it.
pub(crate) fn prelude_end(
    text: &[u8],
    from: usize,
    open: &mut Vec<u8>,
) -> Result<PreludeEnd, AllocError>
    requires within { from ≤ length text.now }
    requires short { length text.now < 2 ^ 32 }
    ensures end { IfOk result (λ end. (from ≤ end.at) × (end.at ≤ length text.now)) }
    ensures block { IfOk result (λ end. end.is_block ≡ true → end.at < length text.now) }
{
    let mut at = from;
    while at < text.len() {
        if open.is_empty() && text[at] == b';' {
            return Ok(PreludeEnd {
                at: at + 1,
                is_block: false,
            });
        }
        if open.is_empty() && text[at] == b'{' {
            return Ok(PreludeEnd { at, is_block: true });
        }
        at = pass_token(text, at, open)?;
    }
    Ok(PreludeEnd {
        at,
        is_block: false,
    })
}

/// Where the block ends whose `{` stands at a place: behind its `}`, or with the text.
pub(crate) fn block_end(alloc: Global, text: &[u8], from: usize) -> Result<usize, AllocError>
    requires within { from < length text.now }
    requires short { length text.now < 2 ^ 32 }
    ensures end { IfOk result (λ end. (from < end) × (end ≤ length text.now)) }
{
    let mut open = Vec::new(alloc);
    let mut at = pass_token(text, from, &mut open)?;
    while at < text.len() && !open.is_empty() {
        at = pass_token(text, at, &mut open)?;
    }
    Ok(at)
}

/// An address, and what is behind it.
#[derive(Clone, Copy)]
pub(crate) struct Address {
    pub span: Span,
    pub quoting: Quoting,
    /// Where the rule goes on.
    pub end: usize,
    /// Whether a parenthesis is open there.
    pub is_in_parenthesis: bool,
}

/// The address that an `@import` rule has at a place behind its name, if it has one.
pub(crate) fn import_address(text: &[u8], from: usize) -> Option<Address>
    requires within { from ≤ length text.now }
    requires short { length text.now < 2 ^ 32 }
    ensures after { IfSome result (λ a. from < a.span.start) }
    ensures opened { IfSome result (λ a. begins a.quoting (slice_index text.now (a.span.start - 1)) ≡ true) }
    ensures whole { IfSome result (λ a. address_end text.now a.span.start a.quoting ≡ Some a.span.end) }
    ensures rises { IfSome result (λ a. (a.span.start ≤ a.span.end) × (a.span.end ≤ a.end)) }
    ensures within { IfSome result (λ a. a.end ≤ length text.now) }
{
    let at = skip(text, from);
    if let Some(quoting) = quoting_of(byte_at(text, at)) {
        return string_address(text, at, quoting, false);
    }
    let word = word_end(text, at);
    if byte_at(text, word) != b'(' || !is_word(text, at, word, b"url") {
        return None;
    }
    let inner = blanks_end(text, word + 1);
    if let Some(quoting) = quoting_of(byte_at(text, inner)) {
        return string_address(text, inner, quoting, true);
    }
    bare_address(text, inner)
}

/// The address that is a string whose quote stands at a place.
fn string_address(
    text: &[u8],
    at: usize,
    quoting: Quoting,
    is_in_parenthesis: bool,
) -> Option<Address>
    requires within { at < length text.now }
    requires short { length text.now < 2 ^ 32 }
    ensures quoting { IfSome result (λ a. a.quoting ≡ quoting) }
    ensures start { IfSome result (λ a. a.span.start ≡ at + 1) }
    ensures whole { IfSome result (λ a. address_end text.now a.span.start a.quoting ≡ Some a.span.end) }
    ensures rises { IfSome result (λ a. (a.span.start ≤ a.span.end) × (a.span.end ≤ a.end)) }
    ensures within { IfSome result (λ a. a.end ≤ length text.now) }
{
    let end = address_end(text, at + 1, quoting).ok()?;
    Some(Address {
        span: Span {
            start: (at + 1) as u32,
            end: end as u32,
        },
        quoting,
        end: text.len().min(end + 1),
        is_in_parenthesis,
    })
}

/// The address in `url(..)` without quotes that begins at a place, behind a parenthesis and blanks.
fn bare_address(text: &[u8], at: usize) -> Option<Address>
    requires within { at ≤ length text.now }
    requires opened { IsOpened text.now at }
    requires short { length text.now < 2 ^ 32 }
    ensures opened { IfSome result (λ a. begins a.quoting (slice_index text.now (a.span.start - 1)) ≡ true) }
    ensures start { IfSome result (λ a. a.span.start ≡ at) }
    ensures whole { IfSome result (λ a. address_end text.now a.span.start a.quoting ≡ Some a.span.end) }
    ensures rises { IfSome result (λ a. (a.span.start ≤ a.span.end) × (a.span.end ≤ a.end)) }
    ensures within { IfSome result (λ a. a.end ≤ length text.now) }
{
    let end = address_end(text, at, Quoting::Bare).ok()?;
    let close = blanks_end(text, end);
    if close < text.len() && text[close] != b')' {
        return None;
    }
    Some(Address {
        span: Span {
            start: at as u32,
            end: end as u32,
        },
        quoting: Quoting::Bare,
        end: text.len().min(close + 1),
        is_in_parenthesis: false,
    })
}
