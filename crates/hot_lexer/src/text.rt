// Texts: what stands between two quotes of one kind, where a backslash and a byte stand for another
// byte. What a text stands for is UTF-8, since the whole is and each quote, backslash and escape is
// one byte of ASCII.
ghost use Rattle.std.specs.Prelude.{◌≡◌, ◌+◌, ◌^◌, ◌<◌, ◌≤◌, [], false, true, IfOk, length, IsUtf8};
ghost use Rattle.module_semantics.specs.Bytes.{is_quote};
ghost use Rattle.module_semantics.specs.Lexing.{text_from};
ghost use Rattle.hot_lexer.specs.Stop.{Reads};

use crate::bytes;
use crate::stop::{Stop, fault};
use byte_lanes::{Class, first_of};
use hmr_types::Text;
use module_semantics::LexKind;
use std::alloc::Global;

/// The bytes that a text stands for, and its length; `rest` follows its opening quote.
#[tactic(auto, unfolding(module_semantics::specs::Lexing::text_from))]
fn read_quoted(alloc: Global, at: usize, quote: u8, rest: &[u8]) -> Result<(Vec<u8>, usize), Stop>
    requires room { at + 1 + length rest.now < 2 ^ 32 }
    requires quote { is_quote quote ≡ true }
    requires utf8 { IsUtf8 rest.now }
    ensures exact { Reads (λ x. (x.0.items, x.1)) result (text_from at quote [] 0 false rest.now) }
    ensures utf8 { IfOk result (λ x. IsUtf8 x.0.items) }
    ensures within { IfOk result (λ x. x.1 ≤ 1 + length rest.now) }
{
    let mut out = Vec::new(alloc);
    let mut start = 0;
    while let Some(plain) = first_of(&rest[start..], Class::StringStop) {
        let stop = start + plain;
        out.extend_from_slice(&rest[start..stop])?;
        let b = rest[stop];
        if b == quote {
            return Ok((out, stop + 2));
        }
        if bytes::is_line_end(b) {
            return Err(fault(LexKind::OpenString, at));
        }
        if b != b'\\' {
            out.push(b)?;
            start = stop + 1;
            continue;
        }
        if stop + 1 == rest.len() || !bytes::is_escape(rest[stop + 1]) {
            return Err(fault(LexKind::BadEscape, at + stop + 1));
        }
        out.push(bytes::unescape(rest[stop + 1]))?;
        start = stop + 2;
    }
    Err(fault(LexKind::OpenString, at))
}

/// A text and its length; `rest` follows its opening quote.
pub(crate) fn read_text(
    alloc: Global,
    at: usize,
    quote: u8,
    rest: &[u8],
) -> Result<(Text, usize), Stop>
    requires room { at + 1 + length rest.now < 2 ^ 32 }
    requires quote { is_quote quote ≡ true }
    requires utf8 { IsUtf8 rest.now }
    ensures exact { Reads (λ x. x) result (text_from at quote [] 0 false rest.now) }
    ensures within { IfOk result (λ x. x.1 ≤ 1 + length rest.now) }
{
    let (bytes, len) = read_quoted(alloc, at, quote, rest)?;
    let text = String::from_utf8(bytes).unwrap();
    Ok((Text::from_string(text), len))
}
