// The strengths of operators: `*` binds closest, then `+` and `-`, then `??`.
ghost use Rattle.std.specs.Prelude.{◌≡◌};
ghost use Rattle.module_semantics.specs.Readers.{next_in};
ghost use Rattle.hot_grammar.specs.Levels.{operators_at};

use crate::tokens::Tokens;
use token_kinds::Kind;

/// The strength of the operators of a row.
#[derive(Clone, Copy)]
pub(crate) enum Level {
    /// `??`
    Null,
    /// `+` and `-`
    Sum,
    /// `*`
    Product,
}

impl Level {
    /// Whether an operator of this strength is next.
    pub(crate) fn is_next(self, tokens: &Tokens<'_>) -> bool
        ensures { result ≡ next_in (operators_at self) tokens.now }
    {
        match self {
            Level::Null => tokens.next_is(Kind::Nullish),
            Level::Sum => tokens.next_in(&[Kind::Plus, Kind::Minus]),
            Level::Product => tokens.next_is(Kind::Times),
        }
    }
}
