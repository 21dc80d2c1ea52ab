// ImportCalls, `import(..)`, and string literals as arguments.
ghost use Rattle.std.specs.Prelude.{◌≡◌, ◌≤◌, ◌<◌, ◌+◌, ◌^◌, IfErr, IfOk, IfSome, OnOk, Some, length};
ghost use Rattle.std.specs.Prelude.{slice_index, true};
ghost use Rattle.es_scan.specs.StringLiteral.{is_quote, literal_at};
ghost use Rattle.es_scan.specs.Outlines.{IsOutlineOf, reach};

use crate::blanks::skip_blanks;
use crate::bytes::{byte_at, is_quote};
use crate::context::Context;
use crate::fault::{Fault, Stop};
use crate::frames::FrameKind;
use crate::from_clause::span;
use crate::outline::{ModuleSpecifier, Outline, Phase, Purpose, Rows};
use crate::state::State;
use crate::string_literal::string_end;

/// The string literal at a place that is a whole argument or element: its end. None where none stands there.
pub(crate) fn literal_argument(text: &[u8], at: usize) -> Result<Option<usize>, Fault>
    requires within { at ≤ length text.now }
    requires short { length text.now < 2 ^ 32 }
    ensures end { IfOk result (λ found. IfSome found (λ end. (at + 1 < end) × (end ≤ length text.now))) }
    ensures quote { IfOk result (λ found. IfSome found (λ _. is_quote (slice_index text.now at) ≡ true)) }
    ensures literal { IfOk result (λ found. IfSome found (λ end. literal_at text.now at ≡ Some end)) }
    ensures fault { IfErr result (λ fault. (at ≤ fault.at) × (fault.at ≤ length text.now)) }
{
    if !is_quote(byte_at(text, at)) {
        return Ok(None);
    }
    let end = string_end(text, at)?;
    let next = skip_blanks(text, end)?;
    match byte_at(text, next) {
        b',' | b')' | b']' => Ok(Some(end)),
        _ => Ok(None),
    }
}

/// The call whose argument a module specifier is.
#[derive(Clone, Copy)]
pub(crate) struct Call {
    pub purpose: Purpose,
    pub phase: Phase,
    /// The place of its word `import`.
    pub start: usize,
}

/// Puts the string literal `start..end` as the specifier of a call.
pub(crate) fn put_argument(
    text: &[u8],
    call: Call,
    start: usize,
    end: usize,
    found: &mut Outline,
) -> Result<(), Stop>
    requires call { call.start < start }
    requires short { length text.now < 2 ^ 32 }
    requires quote { is_quote (slice_index text.now start) ≡ true }
    requires literal { literal_at text.now start ≡ Some end }
    requires from { start < end }
    requires to { end ≤ length text.now }
    requires sound { IsOutlineOf text.now found.old }
    requires reach { reach found.old ≤ start }
    ensures sound { IsOutlineOf text.now found.new }
    ensures reach { reach found.new ≤ end }
    ensures grows { OnOk result (length found.new.specifiers.items ≡ length found.old.specifiers.items + 1) }
    ensures stop { IfErr result (λ stop. stop.at ≡ end) }
{
    found.put_specifier(
        text,
        ModuleSpecifier {
            purpose: call.purpose,
            phase: call.phase,
            statement: call.start as u32,
            literal: span(start, end),
            type_attribute: None,
            names: Rows { from: 0, to: 0 },
        },
    )
}

/// An ImportCall in a phase, whose word stands at `start` and whose parenthesis at `opened_at`: up to its
/// literal, where it has one, else to its argument.
pub(crate) fn import_call(
    text: &[u8],
    start: usize,
    phase: Phase,
    opened_at: usize,
    context: &mut Context,
    found: &mut Outline,
) -> Result<usize, Stop>
    requires from { start < opened_at }
    requires to { opened_at < length text.now }
    requires short { length text.now < 2 ^ 32 }
    requires sound { IsOutlineOf text.now found.old }
    requires reach { reach found.old ≤ opened_at }
    ensures end { IfOk result (λ end. (opened_at < end) × (end ≤ length text.now)) }
    ensures sound { IsOutlineOf text.now found.new }
    ensures reach { IfOk result (λ end. reach found.new ≤ end) }
    ensures stop { IfErr result (λ stop. (reach found.new ≤ stop.at) × (stop.at ≤ length text.now)) }
{
    context.open(FrameKind::Parentheses, opened_at, State::Operand);
    let at = skip_blanks(text, opened_at + 1)?;
    match literal_argument(text, at)? {
        Some(end) => {
            let call = Call {
                purpose: Purpose::ImportCall,
                phase,
                start,
            };
            put_argument(text, call, at, end, found)?;
            context.state = State::After;
            Ok(end)
        }
        None => {
            found.put_computed(text, start, at)?;
            Ok(at)
        }
    }
}
