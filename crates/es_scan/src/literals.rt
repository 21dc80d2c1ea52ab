// Templates, regular expression literals and numeric literals: where each ends.
ghost use Rattle.std.specs.Prelude.{◌≡◌, ◌≤◌, ◌<◌, ◌+◌, ◌^◌, IfErr, IfOk, IfSome, length};

use crate::blanks::is_line_terminator;
use crate::bytes::byte_at;
use crate::fault::{Fault, FaultKind};
use crate::identifiers::identifier_end;

/// Where the characters of a template end.
#[derive(Clone, Copy, PartialEq)]
pub(crate) struct TemplateEnd {
    /// The place behind the closing backtick, or behind the `${` of a substitution.
    pub end: usize,
    /// Whether by a substitution.
    pub is_substitution: bool,
}

/// Where the characters of a template end that begin at a place. None where they don't.
pub(crate) fn template_end(text: &[u8], at: usize) -> Option<TemplateEnd>
    requires within { at ≤ length text.now }
    ensures end { IfSome result (λ found. (at < found.end) × (found.end ≤ length text.now)) }
{
    let mut is_escaped = false;
    for i in at..text.len() {
        if is_escaped {
            is_escaped = false;
            continue;
        }
        match text[i] {
            b'\\' => is_escaped = true,
            b'`' => {
                return Some(TemplateEnd {
                    end: i + 1,
                    is_substitution: false,
                });
            }
            b'$' if byte_at(text, i + 1) == b'{' => {
                return Some(TemplateEnd {
                    end: i + 2,
                    is_substitution: true,
                });
            }
            _ => {}
        }
    }
    None
}

/// Where the body of a regular expression literal ends whose opening slash stands at a place: behind the
/// closing slash, before the flags. A slash in a class, between square brackets, doesn't close it.
pub(crate) fn regular_expression_end(text: &[u8], at: usize) -> Result<usize, Fault>
    requires within { at < length text.now }
    requires short { length text.now < 2 ^ 32 }
    ensures end { IfOk result (λ end. (at + 1 < end) × (end ≤ length text.now)) }
    ensures fault { IfErr result (λ fault. fault.at ≡ at) }
{
    let mut is_escaped = false;
    let mut in_class = false;
    for i in at + 1..text.len() {
        if is_line_terminator(text, i) {
            return Err(Fault::new(FaultKind::OpenRegularExpression, at));
        }
        if is_escaped {
            is_escaped = false;
            continue;
        }
        match text[i] {
            b'\\' => is_escaped = true,
            b'[' => in_class = true,
            b']' => in_class = false,
            b'/' if !in_class => return Ok(i + 1),
            _ => {}
        }
    }
    Err(Fault::new(FaultKind::OpenRegularExpression, at))
}

/// Where a numeric literal ends that begins with a digit. A sign behind its `e` counts as an operator, which
/// makes no difference to what comes next.
pub(crate) fn number_end(text: &[u8], at: usize) -> usize
    requires within { at < length text.now }
    ensures from { at < result }
    ensures to { result ≤ length text.now }
{
    let mut end = at + 1;
    while end < text.len() && (text[end].is_ascii_digit() || text[end] == b'_') {
        end += 1;
    }
    if byte_at(text, end) == b'.' {
        identifier_end(text, end + 1)
    } else {
        identifier_end(text, end)
    }
}
