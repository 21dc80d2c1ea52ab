// The context at brackets: what an opening one opens, and what may come behind a closing one.
ghost use Rattle.std.specs.Prelude.{◌<◌, ◌^◌};

use crate::context::Context;
use crate::frames::{Declares, FrameKind};
use crate::state::State;
use crate::word_roles::WordRole;

impl Context {
    /// `(`
    #[inline(always)]
    pub fn open_parenthesis(&mut self, at: usize)
        requires short { at < 2 ^ 32 }
    {
        self.begin_behind_body();
        let kind = match self.state {
            State::Condition => FrameKind::Condition,
            State::For => FrameKind::ForHead,
            State::Function => FrameKind::Parameters,
            State::FunctionExpression => FrameKind::ExpressionParameters,
            _ => FrameKind::Parentheses,
        };
        self.open(kind, at, State::Operand)
    }

    /// `)`
    #[inline(always)]
    pub fn close_parenthesis(&mut self, at: usize)
        requires short { at < 2 ^ 32 }
    {
        self.state = match self.frame.kind {
            FrameKind::Parentheses => State::After,
            FrameKind::Condition | FrameKind::ForHead => State::Statement,
            FrameKind::Parameters => State::Body,
            FrameKind::ExpressionParameters => State::ExpressionBody,
            _ => return self.fail_unmatched(at),
        };
        self.close();
    }

    /// `[`
    #[inline(always)]
    pub fn open_square_bracket(&mut self, at: usize)
        requires short { at < 2 ^ 32 }
    {
        self.begin_behind_body();
        if self.state == State::Binding && self.declared() == WordRole::Declared {
            return self.open(FrameKind::ArrayPattern, at, State::Binding);
        }
        self.open(FrameKind::SquareBrackets, at, State::Operand)
    }

    /// `]`
    #[inline(always)]
    pub fn close_square_bracket(&mut self, at: usize)
        requires short { at < 2 ^ 32 }
    {
        match self.frame.kind {
            FrameKind::SquareBrackets | FrameKind::ArrayPattern => {
                self.close();
                self.state = State::After;
            }
            _ => self.fail_unmatched(at),
        }
    }

    /// `{`, and whether a line ended before it.
    pub fn open_brace(&mut self, at: usize, line_ended: bool)
        requires short { at < 2 ^ 32 }
    {
        match self.state {
            State::Body => self.open(FrameKind::Block, at, State::Statement),
            State::ExpressionBody => self.open(FrameKind::FunctionBody, at, State::Statement),
            State::Class => self.open(FrameKind::ClassKey, at, State::Operand),
            State::ClassExpression => self.open(FrameKind::ClassExpressionKey, at, State::Operand),
            State::Arrow => self.open(FrameKind::ArrowBody, at, State::Statement),
            State::Statement => {
                self.frame.declares = Declares::Nothing;
                self.open(FrameKind::Block, at, State::Statement)
            }
            State::Return if line_ended => self.open(FrameKind::Block, at, State::Statement),
            State::Operand | State::Default | State::Return => {
                self.open(FrameKind::ObjectKey, at, State::Operand)
            }
            State::Binding => {
                let kind = match self.declared() {
                    WordRole::Declared => FrameKind::PatternKey,
                    _ => FrameKind::ObjectKey,
                };
                self.open(kind, at, State::Operand)
            }
            _ => self.open_brace_after(at),
        }
    }

    /// `{` behind an operand: the body of a class behind its heritage, the body of a method, or a block.
    fn open_brace_after(&mut self, at: usize)
        requires short { at < 2 ^ 32 }
    {
        match self.frame.kind {
            FrameKind::Heritage => {
                self.close();
                self.open(FrameKind::ClassKey, at, State::Operand)
            }
            FrameKind::ExpressionHeritage => {
                self.close();
                self.open(FrameKind::ClassExpressionKey, at, State::Operand)
            }
            FrameKind::ObjectKey
            | FrameKind::PatternKey
            | FrameKind::ClassKey
            | FrameKind::ClassExpressionKey => self.open(
                FrameKind::MethodBody,
                at,
                State::Statement,
            ),
            _ => {
                self.frame.declares = Declares::Nothing;
                self.open(FrameKind::Block, at, State::Statement)
            }
        }
    }

    /// `}` that doesn't end a substitution of a template.
    #[inline(always)]
    pub fn close_brace(&mut self, at: usize)
        requires short { at < 2 ^ 32 }
    {
        self.state = match self.frame.kind {
            FrameKind::Block | FrameKind::ArrowBody | FrameKind::ClassKey | FrameKind::ClassValue =>
                { State::Statement }
            FrameKind::FunctionBody
            | FrameKind::ObjectKey
            | FrameKind::ObjectValue
            | FrameKind::PatternKey
            | FrameKind::PatternValue
            | FrameKind::ClassExpressionKey
            | FrameKind::ClassExpressionValue
            | FrameKind::MethodBody => State::After,
            _ => return self.fail_unmatched(at),
        };
        self.close();
    }

    /// `extends` at a place; and whether a class is named there.
    #[inline(always)]
    pub fn open_heritage(&mut self, at: usize) -> bool
        requires short { at < 2 ^ 32 }
    {
        match self.state {
            State::Class => self.open(FrameKind::Heritage, at, State::Operand),
            State::ClassExpression => self.open(FrameKind::ExpressionHeritage, at, State::Operand),
            _ => return false,
        }
        true
    }
}
