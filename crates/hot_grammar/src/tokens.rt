// The tokens that are left, from which readers take one after another. The next one decides what is
// read: `throw new` alone looks at two.
ghost use Rattle.std.specs.Prelude.{◌≡◌, List, ◌∷◌, [], IfOk, length, map};
ghost use Rattle.module_semantics.specs.Kinds.{bytes_of, name_at, value_of, NUMBER, TEXT};
ghost use Rattle.module_semantics.specs.Raw as plain;
ghost use Rattle.module_semantics.specs.Readers.{deep, end, mark, next_in, next_two, taken};
ghost use Rattle.module_semantics.specs.Reading.{finished, number_token, text_token};
ghost use Rattle.module_semantics.specs.Token.{LineToken};
ghost use Rattle.raw_trees.specs.Raw.{name_at_of};
ghost use Rattle.hot_grammar.specs.Reads.{Gives, Stops, passed, past};
ghost use Rattle.token_kinds.specs.Kinds.{code_of};

use crate::GrammarFault;
use hmr_types::{Name, Text};
use raw_trees::NameAt;
use std::alloc::Global;
use std::marker::Model;
use token_kinds::{Kind, LineToken};

/// The tokens that are left.
#[derive(Drop)]
pub(crate) struct Tokens<'a> {
    left: &'a [LineToken<'a>],
}

impl<'a> Model for Tokens<'a> {
    ghost use Rattle.std.specs.Prelude.{List};
    ghost use Rattle.module_semantics.specs.Token as plain;

    ghost Value = { List plain.LineToken };

    ghost view = { λ t. t.left.now };
}

impl<'a> Tokens<'a> {
    pub(crate) fn new<'t: 'a>(left: &'a [LineToken<'t>]) -> Self
        ensures { result ≡ left.now }
    {
        Tokens { left }
    }

    /// How many are left.
    pub(crate) fn len(&self) -> usize
        ensures { result ≡ length self.now }
    {
        self.left.len()
    }

    /// Whether the next one is of one of these kinds.
    #[tactic(auto, unfolding(module_semantics::specs::Readers::next_in))]
    pub(crate) fn next_in(&self, kinds: &[Kind]) -> bool
        ensures { result ≡ next_in (map code_of kinds.now) self.now }
    {
        match self.left {
            [token, ..] => token.kind().is_in(kinds),
            [] => false,
        }
    }

    /// Whether the next one is of this kind.
    pub(crate) fn next_is(&self, kind: Kind) -> bool
        ensures { result ≡ next_in (code_of kind ∷ []) self.now }
    {
        self.next_in(&[kind])
    }

    /// Whether the next two are of these kinds.
    #[tactic(auto, unfolding(module_semantics::specs::Readers::next_two, module_semantics::specs::Readers::next_in))]
    pub(crate) fn next_two(&self, first: Kind, second: Kind) -> bool
        ensures { result ≡ next_two (code_of first) (code_of second) self.now }
    {
        match self.left {
            [one, two, ..] => one.kind().is_in(&[first]) && two.kind().is_in(&[second]),
            _ => false,
        }
    }

    /// Takes the next one, which must be of one of these kinds.
    #[tactic(auto, unfolding(module_semantics::specs::Readers::taken))]
    fn take(&mut self, kinds: &[Kind]) -> Result<&'a LineToken<'a>, GrammarFault>
        ensures passed { Gives (λ _. past self.new) result (passed (map code_of kinds.now) self.old) }
        ensures name { Gives
            (λ t. (name_at t.now, self.new)) result (taken (map code_of kinds.now) name_at self.old) }
        ensures characters { Gives
            (λ t. (bytes_of t.now.token, self.new))
            result (taken (map code_of kinds.now) (λ t. bytes_of t.token) self.old) }
        ensures value { Gives
            (λ t. (value_of t.now.token, self.new))
            result (taken (map code_of kinds.now) (λ t. value_of t.token) self.old) }
        ensures place { Gives
            (λ t. (t.now.at, self.new)) result (taken (map code_of kinds.now) (λ t. t.at) self.old) }
    {
        match self.left {
            [token, rest @ ..] if token.kind().is_in(kinds) => {
                self.left = rest;
                Ok(token)
            }
            _ => Err(GrammarFault::Unexpected(self.left.len())),
        }
    }

    /// Takes a token of this kind.
    pub(crate) fn mark(&mut self, kind: Kind) -> Result<(), GrammarFault>
        ensures { Gives (λ _. past self.new) result (mark (code_of kind) self.old) }
    {
        self.take(&[kind])?;
        Ok(())
    }

    /// Takes a token of this kind, which must follow a value that was read, and gives the value.
    pub(crate) fn mark_after<T: Drop>(&mut self, value: T, kind: Kind) -> Result<T, GrammarFault>
        ensures passed { Gives (λ _. past self.new) result (mark (code_of kind) self.old) }
        ensures same { IfOk result (λ v. v ≡ value) }
    {
        self.mark(kind)?;
        Ok(value)
    }

    /// Takes a name, or the name that a text is, of one of these kinds, with its place.
    pub(crate) fn name_at(&mut self, alloc: Global, kinds: &[Kind]) -> Result<NameAt, GrammarFault>
        ensures { Gives
            (λ n. (name_at_of n, self.new)) result (taken (map code_of kinds.now) name_at self.old) }
    {
        let token = self.take(kinds)?;
        let characters = String::from_str(alloc, token.characters())?;
        Ok(NameAt {
            name: Name::from_string(characters),
            at: token.at(),
        })
    }

    /// Takes a name of one of these kinds.
    pub(crate) fn name(&mut self, alloc: Global, kinds: &[Kind]) -> Result<Name, GrammarFault>
        ensures { Gives
            (λ n. (n, self.new)) result (taken (map code_of kinds.now) (λ t. bytes_of t.token) self.old) }
    {
        let token = self.take(kinds)?;
        let characters = String::from_str(alloc, token.characters())?;
        Ok(Name::from_string(characters))
    }

    /// Takes a text.
    pub(crate) fn text(&mut self, alloc: Global) -> Result<Text, GrammarFault>
        ensures { Gives (λ t. (t, self.new)) result (text_token self.old) }
    {
        let token = self.take(&[Kind::Text])?;
        let characters = String::from_str(alloc, token.characters())?;
        Ok(Text::from_string(characters))
    }

    /// Takes a number.
    pub(crate) fn number(&mut self) -> Result<u64, GrammarFault>
        ensures { Gives (λ n. (n, self.new)) result (number_token self.old) }
    {
        let token = self.take(&[Kind::Number])?;
        Ok(token.value())
    }

    /// Takes a token of this kind, of which only the place is wanted.
    pub(crate) fn place(&mut self, kind: Kind) -> Result<u32, GrammarFault>
        ensures { Gives (λ n. (n, self.new)) result (taken (code_of kind ∷ []) (λ t. t.at) self.old) }
    {
        let token = self.take(&[kind])?;
        Ok(token.at())
    }

    /// Takes the end of a statement: a semicolon, or nothing before a `}`, a token that begins a line, or
    /// the end of the tokens.
    #[tactic(auto, unfolding(module_semantics::specs::Readers::end, module_semantics::specs::Readers::ends, module_semantics::specs::Readers::next_in, module_semantics::specs::Kinds::within))]
    pub(crate) fn end(&mut self) -> Result<(), GrammarFault>
        ensures { Gives (λ _. past self.new) result (end self.old) }
    {
        if self.next_is(Kind::Semicolon) {
            return self.mark(Kind::Semicolon);
        }
        match self.left {
            [token, ..] if !token.is_later() && !token.kind().is(Kind::CloseBrace) => {
                Err(GrammarFault::Unexpected(self.left.len()))
            }
            _ => Ok(()),
        }
    }

    /// Takes the end of a statement, which must follow a value that was read, and gives the value.
    pub(crate) fn end_after<T: Drop>(&mut self, value: T) -> Result<T, GrammarFault>
        ensures passed { Gives (λ _. past self.new) result (end self.old) }
        ensures same { IfOk result (λ v. v ≡ value) }
    {
        self.end()?;
        Ok(value)
    }

    /// Takes the end of the tokens.
    #[tactic(auto, unfolding(module_semantics::specs::Reading::finished))]
    pub(crate) fn finish(&mut self) -> Result<(), GrammarFault>
        ensures { Gives (λ _. past self.new) result (finished self.old) }
    {
        match self.left {
            [] => Ok(()),
            left => Err(GrammarFault::Unexpected(left.len())),
        }
    }

    /// The fault where nothing deeper may stand: what begins with one of these kinds is too deep.
    #[tactic(auto, unfolding(module_semantics::specs::Readers::deep))]
    pub(crate) fn deep(&self, kinds: &[Kind]) -> GrammarFault
        ensures expr { Stops {Y = plain.RawExpr × List LineToken} result
            (deep {A = plain.RawExpr} (map code_of kinds.now) self.now) }
        ensures stmts { Stops {Y = plain.RawStmts × List LineToken} result
            (deep {A = plain.RawStmts} (map code_of kinds.now) self.now) }
        ensures stmt { Stops {Y = plain.RawStmt × List LineToken} result
            (deep {A = plain.RawStmt} (map code_of kinds.now) self.now) }
    {
        if self.next_in(kinds) {
            GrammarFault::TooDeep(self.len())
        } else {
            GrammarFault::Unexpected(self.len())
        }
    }
}
