// Tokens as the grammar takes them: each with its kind, and with whether it begins a line.
ghost use Rattle.std.specs.Prelude.{◌≡◌};
ghost use Rattle.module_semantics.specs.Kinds as kinds;
ghost use Rattle.module_semantics.specs.Kinds.{bytes_of, kind, value_of};
ghost use Rattle.token_kinds.specs.Kinds.{code_of};
ghost use Rattle.token_kinds.specs.Values.{token_told};

use crate::{Kind, TokenValue};
use std::marker::Model;

/// A token of a text, with whether it begins on a later line than the one on which the token before it
/// ends.
#[derive(Drop)]
pub struct LineToken<'a> {
    kind: Kind,
    token: TokenValue<'a>,
    at: u32,
    later: bool,
}

impl<'a> Model for LineToken<'a> {
    ghost use Rattle.std.specs.Prelude.{◌≡◌};
    ghost use Rattle.module_semantics.specs.Kinds as kinds;
    ghost use Rattle.module_semantics.specs.Token as plain;
    ghost use Rattle.token_kinds.specs.Kinds.{code_of};
    ghost use Rattle.token_kinds.specs.Values.{token_told};

    ghost Value = { plain.LineToken };

    ghost view = { λ t. record { token = token_told t.token; at = t.at; later = t.later } };

    ghost invariant = { λ t. code_of t.kind ≡ kinds.kind (token_told t.token) };
}

impl<'a> LineToken<'a> {
    /// A token of this kind, which tells this, stands at this place, and begins a line or doesn't. It takes
    /// no memory of its own.
    pub fn new(kind: Kind, token: TokenValue<'a>, at: u32, later: bool) -> LineToken<'a>
        requires { code_of kind ≡ kinds.kind (token_told token) }
        ensures { result ≡ record { token = token_told token.entry; at = at; later = later } }
    {
        LineToken {
            kind,
            token,
            at,
            later,
        }
    }

    /// What the grammar sees of it.
    pub fn kind(&self) -> Kind
        ensures { code_of result ≡ kind self.now.token }
    {
        self.kind
    }

    /// The place of its first byte in the text, from 0.
    pub fn at(&self) -> u32
        ensures { result ≡ self.now.at }
    {
        self.at
    }

    /// The characters of a name or a text; another token has none.
    pub fn characters(&self) -> &str
        ensures { result.now ≡ bytes_of self.now.token }
    {
        match &self.token {
            TokenValue::Name(name) => name,
            TokenValue::Text(text) => text.as_str(),
            TokenValue::Number(_) | TokenValue::Punct(_) => "",
        }
    }

    /// The value of a number; another token has 0.
    pub fn value(&self) -> u64
        ensures { result ≡ value_of self.now.token }
    {
        match &self.token {
            TokenValue::Number(value) => *value,
            TokenValue::Name(_) | TokenValue::Text(_) | TokenValue::Punct(_) => 0,
        }
    }

    /// Whether it begins a line.
    pub fn is_later(&self) -> bool
        ensures { result ≡ self.now.later }
    {
        self.later
    }
}
