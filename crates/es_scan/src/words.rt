// Words of a text: names, keywords, and the declarations and calls that `import` and `export` begin.
ghost use Rattle.std.specs.Prelude.{◌≤◌, ◌<◌, ◌+◌, ◌^◌, IfErr, IfOk, length};
ghost use Rattle.es_scan.specs.Outlines.{IsOutlineOf, reach};

use crate::blanks::{is_line_terminator, skip_blanks, wide_blank};
use crate::bytes::byte_at;
use crate::context::Context;
use crate::export_declaration::{export_declaration, put_local_name};
use crate::fault::{Fault, Reason, Stop};
use crate::hot_calls::import_member;
use crate::identifiers::identifier_end;
use crate::import_call::import_call;
use crate::import_declaration::import_declaration;
use crate::keyword::{Keyword, keyword_of};
use crate::outline::{Outline, Phase};
use crate::state::State;
use crate::word_roles::WordRole;

/// A name that is no keyword.
#[inline(always)]
pub(crate) fn name(
    text: &[u8],
    at: usize,
    line_ended: bool,
    context: &mut Context,
    found: &mut Outline,
) -> usize
    requires within { at < length text.now }
    requires short { length text.now < 2 ^ 32 }
    requires sound { IsOutlineOf text.now found.old }
    requires reach { reach found.old ≤ at }
    ensures from { at < result }
    ensures to { result ≤ length text.now }
    ensures sound { IsOutlineOf text.now found.new }
    ensures reach { reach found.new ≤ result }
{
    let end = identifier_end(text, at).max(at + 1);
    match context.word(Keyword::Other, line_ended) {
        WordRole::Taken => end,
        role => word_in_role(text, at, end, role, context, found),
    }
}

/// A name that may be a keyword.
#[inline(always)]
pub(crate) fn word(
    text: &[u8],
    at: usize,
    line_ended: bool,
    context: &mut Context,
    found: &mut Outline,
) -> usize
    requires within { at < length text.now }
    requires short { length text.now < 2 ^ 32 }
    requires sound { IsOutlineOf text.now found.old }
    requires reach { reach found.old ≤ at }
    ensures from { at < result }
    ensures to { result ≤ length text.now }
    ensures sound { IsOutlineOf text.now found.new }
    ensures reach { reach found.new ≤ result }
{
    let end = identifier_end(text, at).max(at + 1);
    let keyword = keyword_of(&text[at..end]);
    if keyword == Keyword::Extends && context.open_heritage(at) {
        return end;
    }
    match context.word(keyword, line_ended) {
        WordRole::Taken => end,
        role => word_in_role(text, at, end, role, context, found),
    }
}

/// A name, or a blank beyond ASCII, that begins with a byte beyond ASCII.
#[inline(never)]
pub(crate) fn wide(
    text: &[u8],
    at: usize,
    line_ended: bool,
    context: &mut Context,
    found: &mut Outline,
) -> usize
    requires within { at < length text.now }
    requires short { length text.now < 2 ^ 32 }
    requires sound { IsOutlineOf text.now found.old }
    requires reach { reach found.old ≤ at }
    ensures from { at < result }
    ensures to { result ≤ length text.now }
    ensures sound { IsOutlineOf text.now found.new }
    ensures reach { reach found.new ≤ result }
{
    let blank = wide_blank(text, at);
    if blank == 0 {
        return name(text, at, line_ended, context, found);
    }
    context.line_ended = line_ended || is_line_terminator(text, at);
    at + blank
}

/// A word that asks for more: where the scan goes on. Where a declaration isn't known, it goes on at the
/// token that isn't, as behind an operand.
#[inline(never)]
fn word_in_role(
    text: &[u8],
    at: usize,
    end: usize,
    role: WordRole,
    context: &mut Context,
    found: &mut Outline,
) -> usize
    requires from { at < end }
    requires to { end ≤ length text.now }
    requires short { length text.now < 2 ^ 32 }
    requires sound { IsOutlineOf text.now found.old }
    requires reach { reach found.old ≤ at }
    ensures from { at < result }
    ensures to { result ≤ length text.now }
    ensures sound { IsOutlineOf text.now found.new }
    ensures reach { reach found.new ≤ result }
{
    let stop = match read_role(text, at, end, role, context, found) {
        Ok(next) => return next,
        Err(stop) => stop,
    };
    match stop.reason {
        Reason::Refused(kind) => context.fail(Fault { kind, at: stop.at }),
        Reason::Unclear => {
            context.state = State::After;
            if let Err(fault) = found.put_unclear(text, stop.at) {
                context.fail(fault);
            }
        }
    }
    (stop.at as usize).max(end)
}

/// What a word `at..end` asks for, by its role: where the scan goes on.
fn read_role(
    text: &[u8],
    at: usize,
    end: usize,
    role: WordRole,
    context: &mut Context,
    found: &mut Outline,
) -> Result<usize, Stop>
    requires from { at < end }
    requires to { end ≤ length text.now }
    requires short { length text.now < 2 ^ 32 }
    requires sound { IsOutlineOf text.now found.old }
    requires reach { reach found.old ≤ at }
    ensures end { IfOk result (λ r. (at < r) × (r ≤ length text.now)) }
    ensures sound { IsOutlineOf text.now found.new }
    ensures reach { IfOk result (λ r. reach found.new ≤ r) }
    ensures stop { IfErr result (λ stop. (reach found.new ≤ stop.at) × (stop.at ≤ length text.now)) }
{
    match role {
        WordRole::Taken => Ok(end),
        WordRole::Import => import(text, at, end, true, context, found),
        WordRole::InnerImport => import(text, at, end, false, context, found),
        WordRole::Export => export_declaration(text, at, end, context, found),
        WordRole::Declared => put_local_name(text, at, end, found),
        WordRole::PatternKey => {
            let next = skip_blanks(text, end)?;
            if byte_at(text, next) == b':' {
                return Ok(end);
            }
            put_local_name(text, at, end, found)
        }
    }
}

/// `import`, the word being `at..end`: a call, a member as `import.meta`, or a declaration, where a statement
/// of the module may begin.
fn import(
    text: &[u8],
    at: usize,
    end: usize,
    is_statement: bool,
    context: &mut Context,
    found: &mut Outline,
) -> Result<usize, Stop>
    requires from { at < end }
    requires to { end ≤ length text.now }
    requires short { length text.now < 2 ^ 32 }
    requires sound { IsOutlineOf text.now found.old }
    requires reach { reach found.old ≤ end }
    ensures end { IfOk result (λ r. (end ≤ r) × (r ≤ length text.now)) }
    ensures sound { IsOutlineOf text.now found.new }
    ensures reach { IfOk result (λ r. reach found.new ≤ r) }
    ensures stop { IfErr result (λ stop. (reach found.new ≤ stop.at) × (stop.at ≤ length text.now)) }
{
    let next = skip_blanks(text, end)?;
    match byte_at(text, next) {
        b'(' => import_call(text, at, Phase::Evaluation, next, context, found),
        b'.' => import_member(text, at, end, context, found),
        _ if is_statement => import_declaration(text, at, next, context, found),
        _ => Ok(end),
    }
}
