// Pieces that aren't blank: a comment or a token. The first byte says which of them begins.
ghost use Rattle.std.specs.Prelude.{◌≡◌, ◌+◌, ◌^◌, ◌<◌, ◌≤◌, ◌∷◌};
ghost use Rattle.std.specs.Prelude.{false, drop, IfOk, length, option_map, IsUtf8};
ghost use Rattle.module_semantics.specs.Bytes.{is_blank};
ghost use Rattle.module_semantics.specs.Lexing.{front};
ghost use Rattle.hot_lexer.specs.Token.{token_of};
ghost use Rattle.hot_lexer.specs.Stop.{Reads};

use crate::TokenKind;
use crate::bytes::{is_digit, is_name_start, is_quote};
use crate::comment::read_comment;
use crate::name::read_name;
use crate::number::read_number;
use crate::punct::read_punct;
use crate::stop::Stop;
use crate::text::read_text;
use std::alloc::Global;

/// The piece that begins with `first`, at a place of the text: its token, where it is one, and its length.
#[tactic(auto, unfolding(module_semantics::specs::Lexing::front, module_semantics::specs::Lexing::text_at))]
pub(crate) fn read_piece<'a>(
    alloc: Global,
    text: &'a str,
    at: usize,
    first: u8,
    rest: &[u8],
) -> Result<(Option<TokenKind<'a>>, usize), Stop>
    requires stands { drop at text.now ≡ first ∷ rest.now }
    requires short { length text.now < 2 ^ 32 }
    requires room { at + 1 + length rest.now < 2 ^ 32 }
    requires utf8 { first < 128 → IsUtf8 rest.now }
    requires part { is_blank first ≡ false }
    ensures exact { Reads (λ x. (option_map token_of x.0, x.1)) result (front at first rest.now) }
    ensures within { IfOk result (λ x. x.1 ≤ 1 + length rest.now) }
{
    if is_name_start(first) {
        let name = read_name(text, at, first, rest);
        return Ok((Some(TokenKind::Name(name)), name.len()));
    }
    if is_digit(first) {
        let (number, len) = read_number(at, first, rest)?;
        return Ok((Some(TokenKind::Number(number)), len));
    }
    if is_quote(first) {
        let (value, len) = read_text(alloc, at, first, rest)?;
        return Ok((Some(TokenKind::Text(value)), len));
    }
    if first == b'/' {
        let len = read_comment(at, rest)?;
        return Ok((None, len));
    }
    let (punct, len) = read_punct(at, first, rest)?;
    Ok((Some(TokenKind::Punct(punct)), len))
}
