// The tokens of a text, each with its kind, and with whether it begins a line.
ghost use Rattle.std.specs.Prelude.{◌≡◌, ◌^◌, ◌<◌, ◌≤◌, IfOk, length, nat_lt};
ghost use Rattle.module_semantics.specs.Lines.{line_feeds, line_tokens};
ghost use Rattle.hot_lexer.specs.Order.{AreBetween};
ghost use Rattle.hot_lexer.specs.Token.{lexeme_of, lexemes_of};
ghost use Rattle.token_lines.specs.Lines.{line_token_of};

use crate::token_kind::{kind_of, value_of};
use byte_lanes::count_newlines;
use hot_lexer::Token;
use std::alloc::{AllocError, Global};
use token_kinds::LineToken;

/// Whether a line feed stands in the bytes.
fn has_line_feed(bytes: &[u8]) -> bool
    ensures { result ≡ nat_lt 0 (line_feeds bytes.now) }
{
    count_newlines(bytes) > 0
}

/// A token of a text, where the one before it ends at `end`.
#[tactic(auto, using(crate::proofs::LineTurns::later_is))]
fn line_token<'a>(text: &[u8], end: usize, token: Token<'a>) -> LineToken<'a>
    requires before { end ≤ token.at }
    requires within { token.at ≤ length text.now }
    ensures { result ≡ line_token_of text.now end (lexeme_of token.entry) }
{
    let kind = kind_of(&token.kind);
    let later = has_line_feed(&text[end..token.at as usize]);
    LineToken::new(kind, value_of(token.kind), token.at, later)
}

/// The tokens of the bytes of a text.
#[tactic(auto, unfolding(module_semantics::specs::Lines::line_tokens))]
fn line_tokens_of<'a>(
    alloc: Global,
    text: &[u8],
    tokens: Vec<Token<'a>>,
) -> Result<Vec<LineToken<'a>>, AllocError>
    requires short { length text.now < 2 ^ 32 }
    requires order { AreBetween 0 (length text.now) (lexemes_of tokens.items) }
    ensures { IfOk result (λ made. made.items ≡ line_tokens text.now (lexemes_of tokens.entry.items)) }
{
    let mut made = Vec::new(alloc);
    let mut end = 0;
    let mut rest = tokens.into_iter();
    while let Some(token) = rest.next() {
        let after = token.at as usize + token.len as usize;
        made.push(line_token(text, end, token))?;
        end = after;
    }
    Ok(made)
}

/// The tokens of a text, each with its kind and with whether it begins a line.
///
/// `tokens` are those of `text`, as the lexer gives them. It fails only where there is no memory. The
/// time is linear in the text, and the memory in the tokens; their texts are moved.
pub fn line_tokens<'a>(
    alloc: Global,
    text: &str,
    tokens: Vec<Token<'a>>,
) -> Result<Vec<LineToken<'a>>, AllocError>
    requires short { length text.now < 2 ^ 32 }
    requires order { AreBetween 0 (length text.now) (lexemes_of tokens.items) }
    ensures exact { IfOk result (λ made. made.items ≡ line_tokens text.now (lexemes_of tokens.entry.items)) }
{
    line_tokens_of(alloc, text.as_bytes(), tokens)
}
