// The context at words: whether one is a name or a keyword, and what it asks of the scan.
use crate::context::Context;
use crate::frames::{Declares, FrameKind};
use crate::keyword::Keyword;
use crate::state::State;

/// What a word is, where it stands.
#[derive(Clone, Copy, PartialEq)]
pub(crate) enum WordRole {
    /// Nothing more is asked of it.
    Taken,
    /// It is a name that an exported declaration declares.
    Declared,
    /// It is a key of a pattern whose names are exported.
    PatternKey,
    /// `import` inside an operand or a block.
    InnerImport,
    /// `import` where a statement of the module may begin.
    Import,
    /// `export` where a statement of the module may begin.
    Export,
}

impl Context {
    /// A word, and whether a line ended before it.
    #[inline(always)]
    pub fn word(&mut self, word: Keyword, line_ended: bool) -> WordRole {
        if line_ended {
            self.state = match self.state {
                State::Return | State::Jump => State::Statement,
                State::Async | State::ExpressionAsync => State::After,
                other => other,
            };
        }
        match self.state {
            State::Dot => {
                self.state = State::After;
                return WordRole::Taken;
            }
            State::Function | State::FunctionExpression => return WordRole::Taken,
            State::Class | State::ClassExpression if word != Keyword::Extends =>
                return WordRole::Taken,
            State::Jump => {
                self.state = State::Statement;
                return WordRole::Taken;
            }
            State::For if word == Keyword::Await => return WordRole::Taken,
            State::Binding => {
                self.state = State::Bound;
                return self.declared();
            }
            _ => {}
        }
        if self.frame.kind.wants_key() {
            self.state = State::After;
            if self.frame.kind == FrameKind::PatternKey {
                return WordRole::PatternKey;
            }
            return WordRole::Taken;
        }
        if self.goes_on(word) {
            return WordRole::Taken;
        }
        self.begin_operand();
        if self.frame.kind.wants_key() {
            self.state = State::After;
            return WordRole::Taken;
        }
        self.keyword(word)
    }

    /// Whether a word goes on with what ended before it: an operand, or an `async` on the same line.
    #[inline(always)]
    fn goes_on(&mut self, word: Keyword) -> bool {
        self.state = match (self.state, word) {
            (State::After | State::Bound, Keyword::Infix) => State::Operand,
            (State::After | State::Bound, Keyword::Of) if self.frame.kind == FrameKind::ForHead =>
                State::Operand,
            // Behind `async` on the same line stands `function`, or the parameter of an arrow function.
            (State::Async, Keyword::Function) => State::Function,
            (State::ExpressionAsync, Keyword::Function) => State::FunctionExpression,
            (State::Async | State::ExpressionAsync, _) => State::After,
            _ => return false,
        };
        true
    }

    /// What a name is that is declared here.
    pub fn declared(&self) -> WordRole {
        match (self.frame.kind, self.frame.declares) {
            (FrameKind::PatternValue | FrameKind::ArrayPattern, _) => WordRole::Declared,
            (_, Declares::Exported) => WordRole::Declared,
            _ => WordRole::Taken,
        }
    }

    /// A word that is no name of a property, a parameter or a declaration.
    fn keyword(&mut self, word: Keyword) -> WordRole {
        let is_statement = self.state.begins_statement();
        let is_of_module = is_statement && self.frame.kind == FrameKind::Module;
        self.state = match word {
            Keyword::Import => {
                self.state = State::After;
                return if is_of_module {
                    WordRole::Import
                } else {
                    WordRole::InnerImport
                };
            }
            Keyword::Export => {
                self.state = State::After;
                return if is_of_module {
                    WordRole::Export
                } else {
                    WordRole::Taken
                };
            }
            Keyword::Function if is_statement => State::Function,
            Keyword::Function => State::FunctionExpression,
            Keyword::Class if is_statement => State::Class,
            Keyword::Class => State::ClassExpression,
            Keyword::Extends => State::Operand,
            Keyword::Async if is_statement => State::Async,
            Keyword::Async => State::ExpressionAsync,
            Keyword::Condition => State::Condition,
            Keyword::For => State::For,
            Keyword::Return => State::Return,
            Keyword::Await | Keyword::Prefix | Keyword::Infix => State::Operand,
            Keyword::Declare => {
                self.frame.declares = Declares::Local;
                State::Binding
            }
            Keyword::Begin => State::Statement,
            Keyword::Jump => State::Jump,
            Keyword::Of | Keyword::Other => State::After,
        };
        WordRole::Taken
    }
}
