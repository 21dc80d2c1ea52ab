// The pass over a stylesheet: a rule at a time, up to the first behind which no import counts.
ghost use Rattle.std.specs.Prelude.{◌≡◌, ◌≢◌, ℕ, ◌≤◌, ◌<◌, ◌^◌, IfOk, IfSome, OnOk, false, length, slice_index, true};
ghost use Rattle.css_scan.specs.Styles.{IsStyleOf, reach};

use crate::bytes::byte_at;
use crate::outline::{Span, StyleImport, StyleOutline};
use crate::rules::{AtRule, PreludeEnd, at_rule, block_end, import_address, prelude_end};
use crate::skipping::skip;
use crate::words::{begins_word, word_end};
use std::alloc::{AllocError, Global};

/// What a stylesheet imports.
///
/// The text is bytes of UTF-8, perhaps behind a byte order mark; whatever they are, none is refused. An
/// `@import` rule counts where no other rule stands before it but `@charset`, rules that aren't known, and
/// `@layer` statements before the first import; where it has no block; and where a string or a `url(..)` is
/// what it begins with. Layers, media queries and conditions of support aren't looked at: such imports are
/// told too. A style rule ends the imports, also one that a browser passes over since it can't read its
/// selector.
///
/// It takes time linear in the text, no stack, and memory in proportion to what is found and to how deep
/// brackets stand in one another. It fails only where there is no memory.
pub fn scan_style(alloc: Global, text: &[u8]) -> Result<StyleOutline, AllocError>
    requires short { length text.now < 2 ^ 32 }
    ensures sound { IfOk result (λ style. IsStyleOf text.now style) }
{
    let mut found = StyleOutline::new(alloc, text);
    let mut at = rule_start(text, mark_end(text));
    while byte_at(text, at) == b'@' && begins_word(text, at + 1) {
        match pass_rule(alloc, text, at, &mut found)? {
            Some(end) => at = rule_start(text, end),
            None => return Ok(found),
        }
    }
    Ok(found)
}

/// Where the byte order mark ends that a text may begin with.
fn mark_end(text: &[u8]) -> usize
    ensures within { result ≤ length text.now }
{
    match text {
        [0xEF, 0xBB, 0xBF, ..] => 3,
        _ => 0,
    }
}

/// Where the next rule begins: behind white space, comments, `<!--` and `-->`.
fn rule_start(text: &[u8], from: usize) -> usize
    requires within { from ≤ length text.now }
    ensures from { from ≤ result }
    ensures to { result ≤ length text.now }
{
    let mut at = skip(text, from);
    let mut dashes = dashes_end(text, at);
    while dashes > at {
        at = skip(text, dashes);
        dashes = dashes_end(text, at);
    }
    at
}

/// Where the `<!--` or `-->` at a place ends; the place itself where none stands there.
fn dashes_end(text: &[u8], at: usize) -> usize
    requires within { at ≤ length text.now }
    ensures from { at ≤ result }
    ensures to { result ≤ length text.now }
{
    match &text[at..] {
        [b'<', b'!', b'-', b'-', ..] => at + 4,
        [b'-', b'-', b'>', ..] => at + 3,
        _ => at,
    }
}

/// Reads the at-rule at a place: where it ends, or none where no import counts behind it.
fn pass_rule(
    alloc: Global,
    text: &[u8],
    at: usize,
    found: &mut StyleOutline,
) -> Result<Option<usize>, AllocError>
    requires rule { slice_index text.now at ≡ 64 }
    requires within { at < length text.now }
    requires short { length text.now < 2 ^ 32 }
    requires sound { IsStyleOf text.now found.old }
    requires reach { reach found.old ≤ at }
    ensures end { IfOk result (λ r. IfSome r (λ end. (at < end) × (end ≤ length text.now))) }
    ensures sound { OnOk result (IsStyleOf text.now found.new) }
    ensures reach { IfOk result (λ r. IfSome r (λ end. reach found.new ≤ end)) }
{
    let name = word_end(text, at + 1);
    match at_rule(text, at + 1, name) {
        AtRule::Import => {
            let end = pass_import(alloc, text, at, name, found)?;
            Ok(Some(end))
        }
        rule => pass_other(alloc, text, rule, name, !found.imports.is_empty()),
    }
}

/// Reads the `@import` rule at a place, whose name ends at `name`: where it ends.
fn pass_import(
    alloc: Global,
    text: &[u8],
    at: usize,
    name: usize,
    found: &mut StyleOutline,
) -> Result<usize, AllocError>
    requires rule { slice_index text.now at ≡ 64 }
    requires name { (at < name) × (name ≤ length text.now) }
    requires short { length text.now < 2 ^ 32 }
    requires sound { IsStyleOf text.now found.old }
    requires reach { reach found.old ≤ at }
    ensures end { IfOk result (λ end. (name ≤ end) × (end ≤ length text.now)) }
    ensures sound { OnOk result (IsStyleOf text.now found.new) }
    ensures reach { IfOk result (λ end. reach found.new ≤ end) }
{
    let mut open = Vec::new(alloc);
    let Some(address) = import_address(text, name) else {
        let end = prelude_end(text, name, &mut open)?;
        return rest_end(alloc, text, end);
    };
    if address.is_in_parenthesis {
        open.push(b')')?;
    }
    let end = prelude_end(text, address.end, &mut open)?;
    if !end.is_block {
        found.put(
            text,
            StyleImport {
                rule: at as u32,
                address: address.span,
                quoting: address.quoting,
                has_escapes: has_backslash(text, address.span),
            },
        )?;
    }
    rest_end(alloc, text, end)
}

/// Whether a backslash stands in a span.
fn has_backslash(text: &[u8], span: Span) -> bool
    requires within { span.end ≤ length text.now }
    ensures none { result ≡ false → (k : ℕ) → span.start ≤ k → k < span.end → slice_index text.now k ≢ 92 }
{
    for at in span.start as usize..span.end as usize {
        if text[at] == b'\\' {
            return true;
        }
    }
    false
}

/// Where a rule ends whose prelude ends so.
fn rest_end(alloc: Global, text: &[u8], end: PreludeEnd) -> Result<usize, AllocError>
    requires within { end.at ≤ length text.now }
    requires block { end.is_block ≡ true → end.at < length text.now }
    requires short { length text.now < 2 ^ 32 }
    ensures end { IfOk result (λ place. (end.at ≤ place) × (place ≤ length text.now)) }
{
    if end.is_block {
        return block_end(alloc, text, end.at);
    }
    Ok(end.at)
}

/// Reads an at-rule that is no import from behind its name: where it ends, or none where no import counts
/// behind it.
fn pass_other(
    alloc: Global,
    text: &[u8],
    rule: AtRule,
    name: usize,
    has_imports: bool,
) -> Result<Option<usize>, AllocError>
    requires name { name ≤ length text.now }
    requires short { length text.now < 2 ^ 32 }
    ensures end { IfOk result (λ r. IfSome r (λ end. (name ≤ end) × (end ≤ length text.now))) }
{
    let mut open = Vec::new(alloc);
    let end = prelude_end(text, name, &mut open)?;
    if ends_imports(rule, end.is_block, has_imports) {
        return Ok(None);
    }
    let place = rest_end(alloc, text, end)?;
    Ok(Some(place))
}

/// Whether no import counts behind a rule that is no import.
fn ends_imports(rule: AtRule, is_block: bool, has_imports: bool) -> bool {
    match rule {
        AtRule::Layer => is_block || has_imports,
        AtRule::Namespace => !is_block,
        AtRule::Block => is_block,
        AtRule::Import | AtRule::Other => false,
    }
}
