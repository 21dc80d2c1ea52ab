// `import.meta`, the calls of its `hot`, and imports by `import.` and a phase. They are read off the text
// where it names them so; what is reached by another name, as by `const { hot } = import.meta`, isn't seen.
ghost use Rattle.std.specs.Prelude.{◌≡◌, ◌≤◌, ◌<◌, ◌+◌, ◌^◌, IfErr, IfOk, IfSome, OnOk, length};
ghost use Rattle.es_scan.specs.Outlines.{IsOutlineOf, reach};

use crate::blanks::skip_blanks;
use crate::bytes::byte_at;
use crate::context::Context;
use crate::fault::{Fault, Stop};
use crate::frames::FrameKind;
use crate::from_clause::word_end;
use crate::identifiers::identifier_end;
use crate::import_call::{Call, import_call, literal_argument, put_argument};
use crate::outline::{Accept, Accepted, Outline, Phase, Purpose, Rows};
use crate::state::State;

/// Behind a dot, or `?.`, and a property name that come next: the name's end. None where they don't.
fn member_end(text: &[u8], from: usize, name: &[u8]) -> Result<Option<usize>, Fault>
    requires within { from ≤ length text.now }
    requires short { length text.now < 2 ^ 32 }
    ensures end { IfOk result (λ found. IfSome found (λ end. (from < end) × (end ≤ length text.now))) }
    ensures fault { IfErr result (λ fault. (from ≤ fault.at) × (fault.at ≤ length text.now)) }
{
    let mut at = skip_blanks(text, from)?;
    if byte_at(text, at) == b'?' {
        at += 1;
    }
    if byte_at(text, at) != b'.' {
        return Ok(None);
    }
    at = skip_blanks(text, at + 1)?;
    Ok(word_end(text, at, name))
}

/// The parenthesis of a call that comes next, perhaps behind `?.`: its place. None where none comes.
fn call_open(text: &[u8], from: usize) -> Result<Option<usize>, Fault>
    requires within { from ≤ length text.now }
    requires short { length text.now < 2 ^ 32 }
    ensures place { IfOk result (λ found. IfSome found (λ at. (from ≤ at) × (at < length text.now))) }
    ensures fault { IfErr result (λ fault. (from ≤ fault.at) × (fault.at ≤ length text.now)) }
{
    let mut at = skip_blanks(text, from)?;
    if byte_at(text, at) == b'?' && byte_at(text, at + 1) == b'.' {
        at = skip_blanks(text, at + 2)?;
    }
    if byte_at(text, at) == b'(' {
        Ok(Some(at))
    } else {
        Ok(None)
    }
}

/// `import` before a dot, the word being `start..end`: what comes behind the dot, as far as it is known.
pub(crate) fn import_member(
    text: &[u8],
    start: usize,
    end: usize,
    context: &mut Context,
    found: &mut Outline,
) -> Result<usize, Stop>
    requires from { start < end }
    requires to { end ≤ length text.now }
    requires short { length text.now < 2 ^ 32 }
    requires sound { IsOutlineOf text.now found.old }
    requires reach { reach found.old ≤ end }
    ensures end { IfOk result (λ r. (end ≤ r) × (r ≤ length text.now)) }
    ensures sound { IsOutlineOf text.now found.new }
    ensures reach { IfOk result (λ r. reach found.new ≤ r) }
    ensures stop { IfErr result (λ stop. (reach found.new ≤ stop.at) × (stop.at ≤ length text.now)) }
{
    if let Some(meta) = member_end(text, end, b"meta")? {
        found.note_meta(text, start);
        return import_meta(text, start, meta, context, found);
    }
    if let Some(defer) = member_end(text, end, b"defer")? {
        return phased_call(text, start, Phase::Defer, defer, context, found);
    }
    if let Some(source) = member_end(text, end, b"source")? {
        return phased_call(text, start, Phase::Source, source, context, found);
    }
    Ok(end)
}

/// The call behind `import.` and the word of a phase, which ends at `end`.
fn phased_call(
    text: &[u8],
    start: usize,
    phase: Phase,
    end: usize,
    context: &mut Context,
    found: &mut Outline,
) -> Result<usize, Stop>
    requires from { start < end }
    requires to { end ≤ length text.now }
    requires short { length text.now < 2 ^ 32 }
    requires sound { IsOutlineOf text.now found.old }
    requires reach { reach found.old ≤ end }
    ensures end { IfOk result (λ r. (end ≤ r) × (r ≤ length text.now)) }
    ensures sound { IsOutlineOf text.now found.new }
    ensures reach { IfOk result (λ r. reach found.new ≤ r) }
    ensures stop { IfErr result (λ stop. (reach found.new ≤ stop.at) × (stop.at ≤ length text.now)) }
{
    let open = skip_blanks(text, end)?;
    if byte_at(text, open) != b'(' {
        return Ok(end);
    }
    import_call(text, start, phase, open, context, found)
}

/// `import.meta`, whose words are `start..end`: the calls of its `hot`.
fn import_meta(
    text: &[u8],
    start: usize,
    end: usize,
    context: &mut Context,
    found: &mut Outline,
) -> Result<usize, Stop>
    requires from { start < end }
    requires to { end ≤ length text.now }
    requires short { length text.now < 2 ^ 32 }
    requires sound { IsOutlineOf text.now found.old }
    requires reach { reach found.old ≤ end }
    ensures end { IfOk result (λ r. (end ≤ r) × (r ≤ length text.now)) }
    ensures sound { IsOutlineOf text.now found.new }
    ensures reach { IfOk result (λ r. reach found.new ≤ r) }
    ensures stop { IfErr result (λ stop. (reach found.new ≤ stop.at) × (stop.at ≤ length text.now)) }
{
    let Some(hot) = member_end(text, end, b"hot")? else {
        return Ok(end)
    };
    if let Some(accept) = member_end(text, hot, b"accept")? {
        let Some(open) = call_open(text, accept)? else {
            return Ok(accept)
        };
        return accept_call(text, start, open, context, found);
    }
    if let Some(decline) = member_end(text, hot, b"decline")? {
        if call_open(text, decline)?.is_some() {
            found.put_decline(text, start, decline)?;
        }
        return Ok(decline);
    }
    Ok(hot)
}

/// What the arguments of `accept` accept, and where the scan goes on.
#[derive(Clone, Copy)]
struct Arguments {
    accepted: Accepted,
    end: usize,
}

/// A call of `accept`, whose parenthesis stands at `opened_at`: up to what it accepts.
fn accept_call(
    text: &[u8],
    start: usize,
    opened_at: usize,
    context: &mut Context,
    found: &mut Outline,
) -> Result<usize, Stop>
    requires from { start < opened_at }
    requires to { opened_at < length text.now }
    requires short { length text.now < 2 ^ 32 }
    requires sound { IsOutlineOf text.now found.old }
    requires reach { reach found.old ≤ opened_at }
    ensures end { IfOk result (λ end. (opened_at < end) × (end ≤ length text.now)) }
    ensures sound { IsOutlineOf text.now found.new }
    ensures reach { IfOk result (λ end. reach found.new ≤ end) }
    ensures stop { IfErr result (λ stop. (reach found.new ≤ stop.at) × (stop.at ≤ length text.now)) }
{
    context.open(FrameKind::Parentheses, opened_at, State::Operand);
    let from = found.specifiers.len();
    let at = skip_blanks(text, opened_at + 1)?;
    let arguments = accept_arguments(text, start, at, context, found)?;
    let to = found.specifiers.len();
    let accept = Accept {
        accepted: arguments.accepted,
        call: start as u32,
        specifiers: Rows { from, to },
    };
    found.put_accept(text, accept, arguments.end)?;
    Ok(arguments.end)
}

/// The arguments of `accept`, the first of which begins at a place.
fn accept_arguments(
    text: &[u8],
    start: usize,
    at: usize,
    context: &mut Context,
    found: &mut Outline,
) -> Result<Arguments, Stop>
    requires from { start < at }
    requires to { at ≤ length text.now }
    requires short { length text.now < 2 ^ 32 }
    requires sound { IsOutlineOf text.now found.old }
    requires reach { reach found.old ≤ at }
    ensures end { IfOk result (λ r. (at ≤ r.end) × (r.end ≤ length text.now)) }
    ensures sound { IsOutlineOf text.now found.new }
    ensures reach { IfOk result (λ r. reach found.new ≤ r.end) }
    ensures grows { OnOk result (length found.old.specifiers.items ≤ length found.new.specifiers.items) }
    ensures stop { IfErr result (λ stop. (reach found.new ≤ stop.at) × (stop.at ≤ length text.now)) }
{
    let mut accepted = Accepted::Unclear;
    let mut end = at;
    match byte_at(text, at) {
        b'"' | b'\'' => {
            if let Some(literal) = literal_argument(text, at)? {
                put_argument(text, accepting(start), at, literal, found)?;
                context.state = State::After;
                accepted = Accepted::Modules;
                end = literal;
            }
        }
        b'`' => {}
        b'[' => {
            context.open(FrameKind::SquareBrackets, at, State::Operand);
            return accept_elements(text, start, at + 1, context, found);
        }
        _ => {
            if !is_list_name(text, at)? {
                accepted = Accepted::Itself;
            }
        }
    }
    Ok(Arguments { accepted, end })
}

/// What a specifier of the call of `accept` at a place is.
fn accepting(start: usize) -> Call
    ensures start { result.start ≡ start }
{
    Call {
        purpose: Purpose::Accept,
        phase: Phase::Evaluation,
        start,
    }
}

/// Whether a name stands at a place behind which another argument comes: then it names modules, and the
/// callback follows.
fn is_list_name(text: &[u8], at: usize) -> Result<bool, Fault>
    requires within { at ≤ length text.now }
    requires short { length text.now < 2 ^ 32 }
    ensures fault { IfErr result (λ fault. (at ≤ fault.at) × (fault.at ≤ length text.now)) }
{
    let end = identifier_end(text, at);
    let comma = skip_blanks(text, end)?;
    if end == at || byte_at(text, comma) != b',' {
        return Ok(false);
    }
    let next = skip_blanks(text, comma + 1)?;
    Ok(byte_at(text, next) != b')')
}

/// The elements of an array that is accepted, up to its bracket or to what is no string literal.
fn accept_elements(
    text: &[u8],
    start: usize,
    from: usize,
    context: &mut Context,
    found: &mut Outline,
) -> Result<Arguments, Stop>
    requires start { start < from }
    requires to { from ≤ length text.now }
    requires short { length text.now < 2 ^ 32 }
    requires sound { IsOutlineOf text.now found.old }
    requires reach { reach found.old ≤ from }
    ensures end { IfOk result (λ r. (from ≤ r.end) × (r.end ≤ length text.now)) }
    ensures sound { IsOutlineOf text.now found.new }
    ensures reach { IfOk result (λ r. reach found.new ≤ r.end) }
    ensures grows { OnOk result (length found.old.specifiers.items ≤ length found.new.specifiers.items) }
    ensures stop { IfErr result (λ stop. (reach found.new ≤ stop.at) × (stop.at ≤ length text.now)) }
{
    let mut at = skip_blanks(text, from)?;
    while let Some(end) = literal_argument(text, at)? {
        put_argument(text, accepting(start), at, end, found)?;
        context.state = State::After;
        at = skip_blanks(text, end)?;
        if byte_at(text, at) == b',' {
            context.state = State::Operand;
            at = skip_blanks(text, at + 1)?;
        }
    }
    let accepted = if ends_argument(text, at)? {
        Accepted::Modules
    } else {
        Accepted::Unclear
    };
    Ok(Arguments { accepted, end: at })
}

/// Whether the bracket at a place ends an array that is a whole argument.
fn ends_argument(text: &[u8], at: usize) -> Result<bool, Fault>
    requires within { at ≤ length text.now }
    requires short { length text.now < 2 ^ 32 }
    ensures fault { IfErr result (λ fault. (at ≤ fault.at) × (fault.at ≤ length text.now)) }
{
    if byte_at(text, at) != b']' {
        return Ok(false);
    }
    let next = skip_blanks(text, at + 1)?;
    Ok(matches!(byte_at(text, next), b',' | b')'))
}
