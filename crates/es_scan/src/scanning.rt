// The pass over a text: a token at a time, by its first byte.
ghost use Rattle.std.specs.Prelude.{◌≤◌, ◌<◌, ◌+◌, ◌^◌, IfErr, IfOk, length};
ghost use Rattle.es_scan.specs.Outlines.{IsHashbang, IsOutlineOf, reach};

use crate::blanks::{line_end, skip_blanks};
use crate::bytes::byte_at;
use crate::context::Context;
use crate::fault::Fault;
use crate::from_clause::span;
use crate::literals::number_end;
use crate::outline::{Outline, Span};
use crate::tokens::{
    closing_brace, dots, equals, less, question, sign, slash, spaces_end, string, template,
};
use crate::words::{name, wide, word};
use std::alloc::Global;

/// What a module says to its importers and to a hot-reload server.
///
/// The text is bytes of UTF-8; other bytes beyond ASCII count as parts of names. It is read as an ECMAScript
/// module, and as a script where both can't be: a `<!--` or `-->` that no expression has begins a comment. Of
/// a text that is neither, either a fault is told or what was found in it. What refuses a text is that a
/// string, template, comment, regular expression or bracket isn't closed, that a closing bracket closes
/// nothing, and that there is no memory. A declaration of a form that isn't known refuses nothing:
/// [`Outline::unclear`] has its place.
///
/// It takes time linear in the text, no stack, and memory in proportion to what is found and to how deep
/// brackets stand in one another.
pub fn scan(alloc: Global, text: &[u8]) -> Result<Outline, Fault>
    requires short { length text.now < 2 ^ 32 }
    ensures sound { IfOk result (λ found. IsOutlineOf text.now found) }
    ensures place { IfErr result (λ fault. fault.at ≤ length text.now) }
{
    match outline(alloc, text) {
        Ok(found) => Ok(found),
        Err(fault) => Err(fault.within(text.len())),
    }
}

fn outline(alloc: Global, text: &[u8]) -> Result<Outline, Fault>
    requires short { length text.now < 2 ^ 32 }
    ensures sound { IfOk result (λ found. IsOutlineOf text.now found) }
{
    let hashbang = hashbang(text);
    let start = match hashbang {
        Some(comment) => comment.end as usize,
        None => mark_end(text),
    };
    let first_statement = skip_blanks(text, start)?;
    let mut found = Outline::new(alloc, text, hashbang, first_statement as u32);
    let mut context = Context::new(alloc);
    let mut at = first_statement;
    while at < text.len() && !context.has_failed() {
        at = step(text, at, &mut context, &mut found);
    }
    context.finish()?;
    Ok(found)
}

/// Where the byte order mark ends that a text may begin with.
fn mark_end(text: &[u8]) -> usize
    ensures within { result ≤ length text.now }
{
    match text {
        [0xEF, 0xBB, 0xBF, ..] => 3,
        _ => 0,
    }
}

/// The HashbangComment that a text may begin with, perhaps behind a byte order mark.
fn hashbang(text: &[u8]) -> Option<Span>
    requires short { length text.now < 2 ^ 32 }
    ensures part { IsHashbang text.now result }
{
    let start = mark_end(text);
    if byte_at(text, start) != b'#' || byte_at(text, start + 1) != b'!' {
        return None;
    }
    Some(span(start, line_end(text, start + 2)))
}

/// Reads the token or the blanks at a place, and tells where they end.
#[inline(always)]
fn step(text: &[u8], at: usize, context: &mut Context, found: &mut Outline) -> usize
    requires within { at < length text.now }
    requires short { length text.now < 2 ^ 32 }
    requires sound { IsOutlineOf text.now found.old }
    requires reach { reach found.old ≤ at }
    ensures from { at < result }
    ensures to { result ≤ length text.now }
    ensures sound { IsOutlineOf text.now found.new }
    ensures reach { reach found.new ≤ result }
{
    let byte = text[at];
    match byte {
        b' ' | b'\t' => return spaces_end(text, at + 1),
        b'\n' | b'\r' => {
            context.line_ended = true;
            return spaces_end(text, at + 1);
        }
        _ => {}
    }
    let line_ended = context.line_ended;
    context.line_ended = false;
    match byte {
        b'a'..=b'z' => word(text, at, line_ended, context, found),
        b'A'..=b'Z' | b'_' | b'$' | b'\\' => name(text, at, line_ended, context, found),
        128..=255 => wide(text, at, line_ended, context, found),
        b'.' => dots(text, at, context),
        b'}' => closing_brace(text, at, context),
        b'=' => equals(text, at, context),
        b'"' | b'\'' => string(text, at, context),
        b'0'..=b'9' => {
            context.literal();
            number_end(text, at)
        }
        b'/' => slash(text, at, line_ended, context),
        b'+' | b'-' => sign(text, at, byte, line_ended, context),
        b'<' => less(text, at, line_ended, context),
        b'?' => question(text, at, context),
        b'`' => {
            context.begin_behind_body();
            template(text, at + 1, at, context)
        }
        _ => {
            context.punctuator(byte, at, line_ended);
            at + 1
        }
    }
}
