// How the kind of a token is told: each name is compared with the grammar's own words once. And what the
// grammar takes of a token beside its kind.
ghost use Rattle.std.specs.Prelude.{◌≡◌, ◌+◌};
ghost use Rattle.module_semantics.specs.Kinds.{kind, word_kind};
ghost use Rattle.hot_lexer.specs.Token.{place_of, token_of};
ghost use Rattle.token_kinds.specs.Kinds.{code_of};
ghost use Rattle.token_kinds.specs.Values.{token_told};

use hot_lexer::{Punct, TokenKind};
use token_kinds::{Kind, TokenValue};

/// The kind of a name: that of the word that it is, where it is one of the grammar's own.
#[tactic(auto, unfolding(module_semantics::specs::Kinds::word_kind, module_semantics::specs::Kinds::found_word))]
fn word_kind(name: &str) -> Kind
    ensures { code_of result ≡ word_kind name.now }
{
    match name {
        "import" => Kind::Import,
        "export" => Kind::Export,
        "const" => Kind::Const,
        "let" => Kind::Let,
        "if" => Kind::If,
        "else" => Kind::Else,
        "throw" => Kind::Throw,
        "undefined" => Kind::Undefined,
        "null" => Kind::Null,
        "true" => Kind::True,
        "false" => Kind::False,
        "console" => Kind::Console,
        "log" => Kind::Log,
        "host" => Kind::Host,
        "new" => Kind::New,
        "Error" => Kind::Error,
        "from" => Kind::From,
        "as" => Kind::As,
        "meta" => Kind::Meta,
        "hot" => Kind::Hot,
        "data" => Kind::Data,
        "accept" => Kind::Accept,
        "dispose" => Kind::Dispose,
        "prune" => Kind::Prune,
        "decline" => Kind::Decline,
        "invalidate" => Kind::Invalidate,
        "on" => Kind::On,
        _ => Kind::Other,
    }
}

/// The kind of a punctuation.
fn punct_kind(punct: Punct) -> Kind
    ensures { code_of result ≡ 50 + place_of punct }
{
    match punct {
        Punct::OpenBrace => Kind::OpenBrace,
        Punct::CloseBrace => Kind::CloseBrace,
        Punct::Open => Kind::Open,
        Punct::Close => Kind::Close,
        Punct::OpenBracket => Kind::OpenBracket,
        Punct::CloseBracket => Kind::CloseBracket,
        Punct::Comma => Kind::Comma,
        Punct::Semicolon => Kind::Semicolon,
        Punct::Dot => Kind::Dot,
        Punct::Equals => Kind::Equals,
        Punct::Plus => Kind::Plus,
        Punct::Minus => Kind::Minus,
        Punct::Times => Kind::Times,
        Punct::Question => Kind::Question,
        Punct::Colon => Kind::Colon,
        Punct::Arrow => Kind::Arrow,
        Punct::SafeDot => Kind::SafeDot,
        Punct::Nullish => Kind::Nullish,
    }
}

/// The kind of a token.
pub(crate) fn kind_of(token: &TokenKind<'_>) -> Kind
    ensures { code_of result ≡ kind (token_of token.now) }
{
    match token {
        TokenKind::Name(name) => word_kind(name),
        TokenKind::Number(_) => Kind::Number,
        TokenKind::Text(_) => Kind::Text,
        TokenKind::Punct(punct) => punct_kind(*punct),
    }
}

/// What a token tells. Its text is moved.
pub(crate) fn value_of<'a>(token: TokenKind<'a>) -> TokenValue<'a>
    ensures { token_told result ≡ token_of token.entry }
{
    match token {
        TokenKind::Name(name) => TokenValue::Name(name),
        TokenKind::Number(number) => TokenValue::Number(number),
        TokenKind::Text(text) => TokenValue::Text(text),
        TokenKind::Punct(punct) => TokenValue::Punct(punct_kind(punct)),
    }
}
