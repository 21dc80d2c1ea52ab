// Tokens of a text that are no words: each reader tells the context what it is, and answers where it ends.
ghost use Rattle.std.specs.Prelude.{◌≡◌, ◌≤◌, ◌<◌, ◌+◌, ◌^◌, length, slice_index, true};
ghost use Rattle.es_scan.specs.StringLiteral.{is_quote};

use crate::blanks::{breaks_line, comment_end, line_end};
use crate::bytes::byte_at;
use crate::context::Context;
use crate::fault::{Fault, FaultKind};
use crate::frames::FrameKind;
use crate::identifiers::identifier_end;
use crate::literals::{regular_expression_end, template_end};
use crate::state::State;
use crate::string_literal::string_end;

/// Where a run of spaces and tabs ends.
#[inline(always)]
pub(crate) fn spaces_end(text: &[u8], at: usize) -> usize
    requires within { at ≤ length text.now }
    ensures from { at ≤ result }
    ensures to { result ≤ length text.now }
{
    for end in at..text.len() {
        if text[end] != b' ' && text[end] != b'\t' {
            return end;
        }
    }
    text.len()
}

/// A string literal.
#[inline(always)]
pub(crate) fn string(text: &[u8], at: usize, context: &mut Context) -> usize
    requires within { at < length text.now }
    requires quote { is_quote (slice_index text.now at) ≡ true }
    requires short { length text.now < 2 ^ 32 }
    ensures from { at < result }
    ensures to { result ≤ length text.now }
{
    context.literal();
    match string_end(text, at) {
        Ok(end) => end,
        Err(fault) => {
            context.fail(fault);
            at + 1
        }
    }
}

/// The characters of a template from a place, up to its end or its next substitution. `opened_at` is where
/// its opening backtick stands.
pub(crate) fn template(text: &[u8], at: usize, opened_at: usize, context: &mut Context) -> usize
    requires within { at ≤ length text.now }
    requires opened { opened_at < at }
    requires short { length text.now < 2 ^ 32 }
    ensures from { at ≤ result }
    ensures to { result ≤ length text.now }
{
    let Some(found) = template_end(text, at) else {
        context.fail(Fault::new(FaultKind::OpenTemplate, opened_at));
        return at;
    };
    if found.is_substitution {
        context.open(FrameKind::Substitution, opened_at, State::Operand);
    } else {
        context.state = State::After;
    }
    found.end
}

/// `}`, of braces or of a substitution in a template.
#[inline(always)]
pub(crate) fn closing_brace(text: &[u8], at: usize, context: &mut Context) -> usize
    requires within { at < length text.now }
    requires short { length text.now < 2 ^ 32 }
    ensures from { at < result }
    ensures to { result ≤ length text.now }
{
    if context.frame.kind == FrameKind::Substitution {
        let opened_at = (context.frame.at as usize).min(at);
        context.close();
        return template(text, at + 1, opened_at, context);
    }
    context.close_brace(at);
    at + 1
}

/// `.` or `...`
#[inline(always)]
pub(crate) fn dots(text: &[u8], at: usize, context: &mut Context) -> usize
    requires within { at < length text.now }
    ensures from { at < result }
    ensures to { result ≤ length text.now }
{
    if byte_at(text, at + 1) == b'.' && byte_at(text, at + 2) == b'.' {
        context.spread();
        return at + 3;
    }
    context.state = State::Dot;
    at + 1
}

/// `=` or `=>`
#[inline(always)]
pub(crate) fn equals(text: &[u8], at: usize, context: &mut Context) -> usize
    requires within { at < length text.now }
    ensures from { at < result }
    ensures to { result ≤ length text.now }
{
    if byte_at(text, at + 1) == b'>' {
        context.state = State::Arrow;
        return at + 2;
    }
    context.equals();
    at + 1
}

/// `+`, `-`, `++` or `--`; or `-->` at the start of a line, a comment of scripts up to the end of the line,
/// which no expression has there.
#[inline(always)]
pub(crate) fn sign(
    text: &[u8],
    at: usize,
    sign: u8,
    line_ended: bool,
    context: &mut Context,
) -> usize
    requires within { at < length text.now }
    requires sign { 0 < sign }
    ensures from { at < result }
    ensures to { result ≤ length text.now }
{
    if byte_at(text, at + 1) != sign {
        context.operator();
        return at + 1;
    }
    if line_ended && sign == b'-' && byte_at(text, at + 2) == b'>' {
        return line_end(text, at + 2);
    }
    context.step_operator(line_ended);
    at + 2
}

/// `<`; or `<!--` where an operand may begin, a comment of scripts up to the end of the line, which no
/// expression has there.
pub(crate) fn less(text: &[u8], at: usize, line_ended: bool, context: &mut Context) -> usize
    requires within { at < length text.now }
    ensures from { at < result }
    ensures to { result ≤ length text.now }
{
    if !context.state.is_after() && text[at..].starts_with(b"<!--") {
        context.line_ended = line_ended;
        return line_end(text, at + 1);
    }
    context.operator();
    at + 1
}

/// `?`, `?.` or `??`
pub(crate) fn question(text: &[u8], at: usize, context: &mut Context) -> usize
    requires within { at < length text.now }
    ensures from { at < result }
    ensures to { result ≤ length text.now }
{
    match byte_at(text, at + 1) {
        b'?' => {
            context.operator();
            at + 2
        }
        b'.' if !byte_at(text, at + 2).is_ascii_digit() => {
            context.state = State::Dot;
            at + 2
        }
        _ => {
            context.question();
            at + 1
        }
    }
}

/// `/`: a comment, a regular expression literal or a division.
#[inline(never)]
pub(crate) fn slash(text: &[u8], at: usize, line_ended: bool, context: &mut Context) -> usize
    requires within { at < length text.now }
    requires short { length text.now < 2 ^ 32 }
    ensures from { at < result }
    ensures to { result ≤ length text.now }
{
    match byte_at(text, at + 1) {
        b'/' => {
            context.line_ended = line_ended;
            line_end(text, at + 1)
        }
        b'*' => match comment_end(text, at) {
            Ok(end) => {
                context.line_ended = line_ended || breaks_line(&text[at..end]);
                end
            }
            Err(fault) => {
                context.fail(fault);
                at + 1
            }
        },
        _ if context.wants_regular_expression(line_ended) => {
            context.literal();
            match regular_expression_end(text, at) {
                Ok(end) => identifier_end(text, end),
                Err(fault) => {
                    context.fail(fault);
                    at + 1
                }
            }
        }
        _ => {
            context.operator();
            at + 1
        }
    }
}
