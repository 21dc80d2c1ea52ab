// Punctuation. The longest that fits is taken, so one of two bytes is tried before one of one byte.
ghost use Rattle.std.specs.Prelude.{◌≡◌, ◌+◌, ◌^◌, ◌<◌, ◌≤◌, IfOk, length, Some, option_map};
ghost use Rattle.module_semantics.specs.Lexing as lexing;
ghost use Rattle.module_semantics.specs.Token.{punct};
ghost use Rattle.hot_lexer.specs.Token.{place_of};
ghost use Rattle.hot_lexer.specs.Stop.{Reads};

use crate::stop::{Stop, fault};
use module_semantics::LexKind;

/// A punctuation of the module language.
#[derive(Clone, Copy, Debug, PartialEq, Eq)]
pub enum Punct {
    /// `{`
    OpenBrace,
    /// `}`
    CloseBrace,
    /// `(`
    Open,
    /// `)`
    Close,
    /// `[`
    OpenBracket,
    /// `]`
    CloseBracket,
    /// `,`
    Comma,
    /// `;`
    Semicolon,
    /// `.`
    Dot,
    /// `=`
    Equals,
    /// `+`
    Plus,
    /// `-`
    Minus,
    /// `*`
    Times,
    /// `?`
    Question,
    /// `:`
    Colon,
    /// `=>`
    Arrow,
    /// `?.`
    SafeDot,
    /// `??`
    Nullish,
}

/// The punctuation that one byte is.
#[tactic(auto, unfolding(module_semantics::specs::Lexing::single, module_semantics::specs::Lexing::marked))]
fn single(b: u8) -> Option<Punct>
    ensures { option_map place_of result ≡ lexing.single b }
{
    match b {
        b'{' => Some(Punct::OpenBrace),
        b'}' => Some(Punct::CloseBrace),
        b'(' => Some(Punct::Open),
        b')' => Some(Punct::Close),
        b'[' => Some(Punct::OpenBracket),
        b']' => Some(Punct::CloseBracket),
        b',' => Some(Punct::Comma),
        b';' => Some(Punct::Semicolon),
        b'.' => Some(Punct::Dot),
        b'=' => Some(Punct::Equals),
        b'+' => Some(Punct::Plus),
        b'-' => Some(Punct::Minus),
        b'*' => Some(Punct::Times),
        b'?' => Some(Punct::Question),
        b':' => Some(Punct::Colon),
        _ => None,
    }
}

/// The punctuation that two bytes are.
#[tactic(auto, unfolding(module_semantics::specs::Lexing::double))]
fn double(first: u8, second: u8) -> Option<Punct>
    ensures { option_map place_of result ≡ lexing.double first second }
{
    match (first, second) {
        (b'=', b'>') => Some(Punct::Arrow),
        (b'?', b'.') => Some(Punct::SafeDot),
        (b'?', b'?') => Some(Punct::Nullish),
        _ => None,
    }
}

/// The punctuation that begins with `first`, and its length.
#[tactic(auto, unfolding(module_semantics::specs::Lexing::punct_at))]
pub(crate) fn read_punct(at: usize, first: u8, rest: &[u8]) -> Result<(Punct, usize), Stop>
    requires { at < 2 ^ 32 }
    ensures exact { Reads
        (λ x. (Some (punct (place_of x.0)), x.1)) result (lexing.punct_at at first rest.now) }
    ensures within { IfOk result (λ x. x.1 ≤ 1 + length rest.now) }
{
    if let [second, ..] = rest {
        if let Some(punct) = double(first, *second) {
            return Ok((punct, 2));
        }
    }
    match single(first) {
        Some(punct) => Ok((punct, 1)),
        None => Err(fault(LexKind::BadByte, at)),
    }
}
