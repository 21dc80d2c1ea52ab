// What declarations are made of: names, words, and a module specifier with its attributes.
//
// A reader answers where its part ends. It stops where the text has a fault, and where something stands that
// isn't known in a declaration; a stop is never before the place at which the reader began.
ghost use Rattle.std.specs.Prelude.{◌≡◌, ◌≤◌, ◌<◌, ◌+◌, ◌^◌, IfErr, IfOk, IfSome, length};
ghost use Rattle.es_scan.specs.Outlines.{AreNamesIn, IsLiteral, IsOutlineOf, IsTypeAttribute, reach};

use crate::blanks::skip_blanks;
use crate::bytes::{begins_identifier, byte_at, is_quote};
use crate::context::Context;
use crate::fault::{Fault, Stop, unclear};
use crate::frames::FrameKind;
use crate::identifiers::identifier_end;
use crate::outline::{ModuleSpecifier, Outline, Phase, Purpose, Rows, Span};
use crate::state::State;
use crate::string_literal::string_end;

/// The span between two places.
pub(crate) fn span(start: usize, end: usize) -> Span
    requires start { start < 2 ^ 32 }
    requires end { end < 2 ^ 32 }
    ensures start { result.start ≡ start }
    ensures end { result.end ≡ end }
{
    Span {
        start: start as u32,
        end: end as u32,
    }
}

/// The place behind a byte that has to stand at a place.
pub(crate) fn expect_byte(text: &[u8], at: usize, byte: u8) -> Result<usize, Stop>
    requires within { at ≤ length text.now }
    requires short { length text.now < 2 ^ 32 }
    ensures end { IfOk result (λ end. (at < end) × (end ≤ length text.now)) }
    ensures stop { IfErr result (λ stop. stop.at ≡ at) }
{
    if at < text.len() && text[at] == byte {
        Ok(at + 1)
    } else {
        Err(unclear(at))
    }
}

/// Where the IdentifierName ends that has to stand at a place.
pub(crate) fn expect_name(text: &[u8], at: usize) -> Result<usize, Stop>
    requires within { at ≤ length text.now }
    requires short { length text.now < 2 ^ 32 }
    ensures end { IfOk result (λ end. (at < end) × (end ≤ length text.now)) }
    ensures stop { IfErr result (λ stop. stop.at ≡ at) }
{
    let end = identifier_end(text, at);
    if at < end && begins_identifier(text[at]) {
        Ok(end)
    } else {
        Err(unclear(at))
    }
}

/// Where the ModuleExportName ends that has to stand at a place: an IdentifierName or a string literal.
pub(crate) fn expect_export_name(text: &[u8], at: usize) -> Result<usize, Stop>
    requires within { at ≤ length text.now }
    requires short { length text.now < 2 ^ 32 }
    ensures end { IfOk result (λ end. (at < end) × (end ≤ length text.now)) }
    ensures stop { IfErr result (λ stop. stop.at ≡ at) }
{
    if is_quote(byte_at(text, at)) {
        let end = string_end(text, at)?;
        return Ok(end);
    }
    expect_name(text, at)
}

/// The place behind a word that stands at a place. None where it doesn't.
pub(crate) fn word_end(text: &[u8], at: usize, word: &[u8]) -> Option<usize>
    requires within { at ≤ length text.now }
    ensures end { IfSome result (λ end. (at ≤ end) × (end ≤ length text.now)) }
{
    let end = identifier_end(text, at);
    if &text[at..end] == word {
        Some(end)
    } else {
        None
    }
}

/// The place behind a word that has to stand at a place.
pub(crate) fn expect_word(text: &[u8], at: usize, word: &[u8]) -> Result<usize, Stop>
    requires within { at ≤ length text.now }
    requires short { length text.now < 2 ^ 32 }
    ensures end { IfOk result (λ end. (at ≤ end) × (end ≤ length text.now)) }
    ensures stop { IfErr result (λ stop. stop.at ≡ at) }
{
    match word_end(text, at, word) {
        Some(end) => Ok(end),
        None => Err(unclear(at)),
    }
}

/// Behind a name between braces: the place of the next name, or of the closing brace.
pub(crate) fn next_name(text: &[u8], from: usize) -> Result<usize, Stop>
    requires within { from ≤ length text.now }
    requires short { length text.now < 2 ^ 32 }
    ensures next { IfOk result (λ next. (from ≤ next) × (next ≤ length text.now)) }
    ensures stop { IfErr result (λ stop. (from ≤ stop.at) × (stop.at ≤ length text.now)) }
{
    let at = skip_blanks(text, from)?;
    match byte_at(text, at) {
        b',' => {
            let next = skip_blanks(text, at + 1)?;
            Ok(next)
        }
        b'}' => Ok(at),
        _ => Err(unclear(at)),
    }
}

/// What a declaration with a module specifier is, before it is read.
#[derive(Clone, Copy)]
pub(crate) struct Declaration {
    pub purpose: Purpose,
    pub phase: Phase,
    /// The place of its word `import` or `export`.
    pub start: usize,
    /// Its names.
    pub names: Rows,
}

/// The module specifier of a declaration, at a place, with its attributes: where the scan goes on.
pub(crate) fn module_specifier(
    text: &[u8],
    declaration: Declaration,
    at: usize,
    context: &mut Context,
    found: &mut Outline,
) -> Result<usize, Stop>
    requires start { declaration.start < at }
    requires within { at ≤ length text.now }
    requires short { length text.now < 2 ^ 32 }
    requires sound { IsOutlineOf text.now found.old }
    requires reach { reach found.old ≤ at }
    requires names { AreNamesIn found.old declaration.purpose declaration.names }
    ensures end { IfOk result (λ end. (at < end) × (end ≤ length text.now)) }
    ensures sound { IsOutlineOf text.now found.new }
    ensures reach { IfOk result (λ end. reach found.new ≤ end) }
    ensures stop { IfErr result (λ stop. (reach found.new ≤ stop.at) × (stop.at ≤ length text.now)) }
{
    if !is_quote(byte_at(text, at)) {
        return Err(unclear(at));
    }
    let end = string_end(text, at)?;
    context.state = State::Statement;
    let attributes = with_clause(text, end, context)?;
    found.put_specifier(
        text,
        ModuleSpecifier {
            purpose: declaration.purpose,
            phase: declaration.phase,
            statement: declaration.start as u32,
            literal: span(at, end),
            type_attribute: attributes.type_attribute,
            names: declaration.names,
        },
    )?;
    Ok(attributes.end)
}

/// What the attributes behind a module specifier say.
#[derive(Clone, Copy)]
struct Attributes {
    /// Where the scan goes on: behind the opening brace, or at the specifier's end where there are none.
    end: usize,
    /// The literal of the attribute `type`.
    type_attribute: Option<Span>,
}

/// The attributes of a WithClause, also behind its older word `assert`. Their braces are opened as those of a
/// block, in which their text reads as labels and strings.
fn with_clause(text: &[u8], from: usize, context: &mut Context) -> Result<Attributes, Fault>
    requires within { from ≤ length text.now }
    requires short { length text.now < 2 ^ 32 }
    ensures end { IfOk result (λ found. (from ≤ found.end) × (found.end ≤ length text.now)) }
    ensures literal { IfOk result (λ found. IsTypeAttribute text.now from found.type_attribute) }
    ensures fault { IfErr result (λ fault. (from ≤ fault.at) × (fault.at ≤ length text.now)) }
{
    let none = Attributes {
        end: from,
        type_attribute: None,
    };
    let at = skip_blanks(text, from)?;
    let word = word_end(text, at, b"with").or(word_end(text, at, b"assert"));
    let Some(word) = word else { return Ok(none) };
    let open = skip_blanks(text, word)?;
    if byte_at(text, open) != b'{' {
        return Ok(none);
    }
    context.open(FrameKind::Block, open, State::Statement);
    let type_attribute = type_attribute(text, open + 1)?;
    Ok(Attributes {
        end: open + 1,
        type_attribute,
    })
}

/// An attribute: a key and the string literal of its value.
#[derive(Clone, Copy)]
struct Attribute {
    is_type: bool,
    value: Span,
    /// Where it ends, with its comma.
    end: usize,
}

/// The literal of the first attribute `type` behind an opening brace.
fn type_attribute(text: &[u8], from: usize) -> Result<Option<Span>, Fault>
    requires within { from ≤ length text.now }
    requires short { length text.now < 2 ^ 32 }
    ensures literal { IfOk result (λ found. IsTypeAttribute text.now from found) }
    ensures fault { IfErr result (λ fault. (from ≤ fault.at) × (fault.at ≤ length text.now)) }
{
    let mut at = from;
    while let Some(attribute) = next_attribute(text, at)? {
        if attribute.is_type {
            return Ok(Some(attribute.value));
        }
        at = attribute.end;
    }
    Ok(None)
}

/// The attribute behind a place. None where none stands there.
fn next_attribute(text: &[u8], from: usize) -> Result<Option<Attribute>, Fault>
    requires within { from ≤ length text.now }
    requires short { length text.now < 2 ^ 32 }
    ensures literal { IfOk result (λ found. IfSome found (λ a. IsLiteral text.now a.value)) }
    ensures behind { IfOk result (λ found. IfSome found (λ a. from ≤ a.value.start)) }
    ensures end { IfOk result (λ found. IfSome found (λ a. (from < a.end) × (a.end ≤ length text.now))) }
    ensures fault { IfErr result (λ fault. (from ≤ fault.at) × (fault.at ≤ length text.now)) }
{
    let start = skip_blanks(text, from)?;
    let key_end = if is_quote(byte_at(text, start)) {
        string_end(text, start)?
    } else {
        identifier_end(text, start)
    };
    let is_type = matches!(&text[start..key_end], b"type" | b"\"type\"" | b"'type'");
    let colon = skip_blanks(text, key_end)?;
    if byte_at(text, colon) != b':' {
        return Ok(None);
    }
    let value = skip_blanks(text, colon + 1)?;
    if !is_quote(byte_at(text, value)) {
        return Ok(None);
    }
    let value_end = string_end(text, value)?;
    let comma = skip_blanks(text, value_end)?;
    let end = if byte_at(text, comma) == b',' {
        comma + 1
    } else {
        value_end
    };
    Ok(Some(Attribute {
        is_type,
        value: span(value, value_end),
        end,
    }))
}
