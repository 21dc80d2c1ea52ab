// The whole text: one piece after another, where what came directly before bars some bytes. Blanks, which
// nothing bars, are passed a run at a time. Before another piece is read its first byte is tested against
// that bar; after it was read its token is added, if there is room for one more.
ghost use Rattle.std.specs.Prelude.{◌≡◌, ◌+◌, ◌^◌, ◌<◌, ◌≤◌, ◌∷◌};
ghost use Rattle.std.specs.Prelude.{false, drop, IfOk, IfErr, length, option_map, IsUtf8};
ghost use Rattle.module_semantics.specs.Bytes.{is_blank};
ghost use Rattle.module_semantics.specs.Lexing as lexing;
ghost use Rattle.module_semantics.specs.Lexing.{Gives};
ghost use Rattle.module_semantics.specs.LexFaults.{IsFirstLexFault};
ghost use Rattle.module_semantics.specs.Pieces.{IsLexing};
ghost use Rattle.module_semantics.specs.declared.tokens.LexKind.TheVariants.{NoMemory};
ghost use Rattle.hot_lexer.specs.Order.{AreBetween};
ghost use Rattle.hot_lexer.specs.Stop.{Reads};
ghost use Rattle.hot_lexer.specs.Token.{token_of, lexemes_of};

use crate::bytes::{is_blank, is_name_byte};
use crate::piece::read_piece;
use crate::run::blank_run;
use crate::stop::{Stop, fault};
use crate::{LexFault, LexKind, Punct, Token, TokenKind};
use hmr_types::limits::TOKENS;
use module_semantics::After;
use std::alloc::Global;

/// What a piece is to the byte directly after it.
#[tactic(auto, unfolding(module_semantics::specs::Lexing::after_token))]
fn after(token: &Option<TokenKind<'_>>) -> After
    ensures { result ≡ lexing.after_token (option_map token_of token.now) }
{
    match token {
        Some(TokenKind::Number(_)) => After::Number,
        Some(TokenKind::Punct(Punct::Plus)) => After::Plus,
        Some(TokenKind::Punct(Punct::Minus)) => After::Minus,
        _ => After::Other,
    }
}

/// Whether the byte may not stand directly after a piece.
#[tactic(auto, unfolding(module_semantics::specs::Lexing::barred))]
fn is_barred(last: After, b: u8) -> bool
    ensures { result ≡ lexing.barred last b }
{
    match last {
        After::Other => false,
        After::Number => is_name_byte(b),
        After::Plus => b == b'+',
        After::Minus => b == b'-',
    }
}

/// Adds the token of a piece, where it is one.
#[tactic(auto, unfolding(module_semantics::specs::Lexing::added))]
fn add<'a>(
    tokens: &mut Vec<Token<'a>>,
    at: usize,
    kind: Option<TokenKind<'a>>,
    len: usize,
) -> Result<(), Stop>
    requires { at + len < 2 ^ 32 }
    ensures { Reads
        (λ _. lexemes_of tokens.new.items)
        result (lexing.added at (lexemes_of tokens.old.items) (option_map token_of kind.entry, len)) }
{
    match kind {
        None => Ok(()),
        Some(kind) => {
            if tokens.len() >= TOKENS {
                return Err(fault(LexKind::TooManyTokens, at));
            }
            tokens.push(Token {
                kind,
                at: at as u32,
                len: len as u32,
            })?;
            Ok(())
        }
    }
}

/// Reads the piece that begins with `first` and adds its token: the piece's length, and what it is to
/// the byte after it.
#[tactic(auto, unfolding(module_semantics::specs::Lexing::step))]
fn step<'a>(
    alloc: Global,
    tokens: &mut Vec<Token<'a>>,
    text: &'a str,
    at: usize,
    last: After,
    first: u8,
    rest: &[u8],
) -> Result<(usize, After), Stop>
    requires stands { drop at text.now ≡ first ∷ rest.now }
    requires short { length text.now < 2 ^ 32 }
    requires room { at + 1 + length rest.now < 2 ^ 32 }
    requires utf8 { first < 128 → IsUtf8 rest.now }
    requires part { is_blank first ≡ false }
    ensures exact { Reads
        (λ x. (x.0, (x.1, lexemes_of tokens.new.items)))
        result (lexing.step at last (lexemes_of tokens.old.items) first rest.now) }
    ensures within { IfOk result (λ x. x.0 ≤ 1 + length rest.now) }
{
    if is_barred(last, first) {
        return Err(fault(LexKind::BadByte, at));
    }
    let (kind, len) = read_piece(alloc, text, at, first, rest)?;
    let next = after(&kind);
    add(tokens, at, kind, len)?;
    Ok((len, next))
}

/// The tokens of a text, whose bytes these are.
#[tactic(auto, unfolding(module_semantics::specs::Lexing::lexing))]
fn lex_bytes<'a>(alloc: Global, text: &'a str, bytes: &[u8]) -> Result<Vec<Token<'a>>, Stop>
    requires short { length bytes.now < 2 ^ 32 }
    requires same { text.now ≡ bytes.now }
    requires utf8 { IsUtf8 bytes.now }
    ensures { Reads (λ ts. lexemes_of ts.items) result (lexing.lexing bytes.now) }
{
    let mut tokens = Vec::new(alloc);
    let mut at = 0;
    let mut last = After::Other;
    while at < bytes.len() {
        let first = bytes[at];
        let rest = &bytes[at + 1..];
        if is_blank(first) {
            at += 1 + blank_run(rest);
            last = After::Other;
            continue;
        }
        let (len, next) = step(alloc, &mut tokens, text, at, last, first, rest)?;
        at += len;
        last = next;
    }
    Ok(tokens)
}

/// The tokens of a text, or its first fault.
///
/// `Ok` and each fault but `NoMemory` come exactly where the definition `lexing` gives them. By the
/// laws of `module_semantics` the text is then spaces, comments and these tokens, each the longest
/// that fits; or it is so up to the fault's place. `NoMemory` has place 0, and says nothing of the
/// text. Names are parts of the text. The time is linear in the text, and the memory that of the tokens.
pub fn lex<'a>(alloc: Global, text: &'a str) -> Result<Vec<Token<'a>>, LexFault>
    requires short { length text.now < 2 ^ 32 }
    ensures exact { Gives (λ ts. lexemes_of ts.items) result (lexing.lexing text.now) }
    ensures pieces { IfOk result (λ ts. IsLexing text.now (lexemes_of ts.items)) }
    ensures fault { IfErr result (λ f. ¬ (f.kind ≡ NoMemory) → IsFirstLexFault text.now f) }
    ensures order { IfOk result (λ ts. AreBetween 0 (length text.now) (lexemes_of ts.items)) }
    ensures memory { IfErr result (λ f. f.kind ≡ NoMemory → f.at ≡ 0) }
{
    Ok(lex_bytes(alloc, text, text.as_bytes())?)
}
