// The kinds of tokens that the grammar tells apart: a name that is none of the grammar's own words, each
// of these words, numbers, texts, and each punctuation.
ghost use Rattle.std.specs.Prelude.{◌≡◌, ◌==◌, map};
ghost use Rattle.module_semantics.specs.Kinds.{within};
ghost use Rattle.token_kinds.specs.Kinds.{code_of};

/// The kind of a token.
#[derive(Clone, Copy, Debug, PartialEq, Eq)]
pub enum Kind {
    /// A name that is none of the words.
    Other,
    /// `import`
    Import,
    /// `export`
    Export,
    /// `const`
    Const,
    /// `let`
    Let,
    /// `if`
    If,
    /// `else`
    Else,
    /// `throw`
    Throw,
    /// `undefined`
    Undefined,
    /// `null`
    Null,
    /// `true`
    True,
    /// `false`
    False,
    /// `console`
    Console,
    /// `log`
    Log,
    /// `host`
    Host,
    /// `new`
    New,
    /// `Error`
    Error,
    /// `from`
    From,
    /// `as`
    As,
    /// `meta`
    Meta,
    /// `hot`
    Hot,
    /// `data`
    Data,
    /// `accept`
    Accept,
    /// `dispose`
    Dispose,
    /// `prune`
    Prune,
    /// `decline`
    Decline,
    /// `invalidate`
    Invalidate,
    /// `on`
    On,
    /// A number.
    Number,
    /// A text in quotes.
    Text,
    /// `{`
    OpenBrace,
    /// `}`
    CloseBrace,
    /// `(`
    Open,
    /// `)`
    Close,
    /// `[`
    OpenBracket,
    /// `]`
    CloseBracket,
    /// `,`
    Comma,
    /// `;`
    Semicolon,
    /// `.`
    Dot,
    /// `=`
    Equals,
    /// `+`
    Plus,
    /// `-`
    Minus,
    /// `*`
    Times,
    /// `?`
    Question,
    /// `:`
    Colon,
    /// `=>`
    Arrow,
    /// `?.`
    SafeDot,
    /// `??`
    Nullish,
}

impl Kind {
    /// Whether both are one kind.
    pub fn is(self, other: Kind) -> bool
        ensures { result ≡ (code_of self == code_of other) }
    {
        self == other
    }

    /// Whether it is one of these. It asks each at most once, in order.
    #[tactic(auto, unfolding(module_semantics::specs::Kinds::within))]
    pub fn is_in(self, kinds: &[Kind]) -> bool
        ensures { result ≡ within (map code_of kinds.now) (code_of self) }
    {
        for kind in kinds {
            if self.is(*kind) {
                return true;
            }
        }
        false
    }
}
