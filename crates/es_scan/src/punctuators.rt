// The context at punctuators: which of one byte does what, and what those do that are no brackets.
ghost use Rattle.std.specs.Prelude.{◌<◌, ◌^◌};

use crate::context::Context;
use crate::frames::{Declares, FrameKind};
use crate::state::State;

impl Context {
    /// A punctuator of one byte, or a `#` or `@` before a name. Another byte is no token.
    #[inline(always)]
    pub fn punctuator(&mut self, byte: u8, at: usize, line_ended: bool)
        requires short { at < 2 ^ 32 }
    {
        match byte {
            b',' => self.comma(),
            b'(' => self.open_parenthesis(at),
            b')' => self.close_parenthesis(at),
            b'{' => self.open_brace(at, line_ended),
            b'[' => self.open_square_bracket(at),
            b']' => self.close_square_bracket(at),
            b';' => self.semicolon(),
            b':' => self.colon(),
            b'!' | b'%' | b'&' | b'>' | b'^' | b'|' | b'~' => self.operator(),
            b'*' => self.star(),
            b'#' | b'@' => {
                self.literal();
                self.state = State::Dot;
            }
            _ => self.line_ended = line_ended,
        }
    }

    /// An operator before an operand, or between two.
    #[inline(always)]
    pub fn operator(&mut self) {
        self.begin_behind_body();
        self.state = State::Operand;
    }

    /// `*`, an operator or the star of a generator.
    #[inline(always)]
    pub fn star(&mut self) {
        if self.state != State::Function && self.state != State::FunctionExpression {
            self.operator();
        }
    }

    /// `++` or `--`, and whether a line ended before it: then it belongs to the next operand.
    #[inline(always)]
    pub fn step_operator(&mut self, line_ended: bool) {
        if line_ended || !self.state.is_after() {
            self.operator();
        }
    }

    /// `;`
    #[inline(always)]
    pub fn semicolon(&mut self) {
        self.frame.declares = Declares::Nothing;
        self.frame.kind = self.frame.kind.next_key();
        self.state = if self.frame.kind.has_statements() {
            State::Statement
        } else {
            State::Operand
        };
    }

    /// `,`
    #[inline(always)]
    pub fn comma(&mut self) {
        self.frame.kind = self.frame.kind.next_key();
        self.state = match (self.frame.kind, self.frame.declares) {
            (FrameKind::ArrayPattern, _) => State::Binding,
            (_, Declares::Nothing) => State::Operand,
            _ => State::Binding,
        };
    }

    /// `:`, of a conditional, behind a key or behind a label.
    #[inline(always)]
    pub fn colon(&mut self) {
        if self.frame.questions > 0 {
            self.frame.questions -= 1;
            self.state = State::Operand;
            return;
        }
        self.state = match self.frame.kind {
            FrameKind::PatternKey => State::Binding,
            kind if kind.has_statements() => State::Statement,
            _ => State::Operand,
        };
        self.frame.kind = self.frame.kind.value();
    }

    /// `?` of a conditional.
    #[inline(always)]
    pub fn question(&mut self) {
        self.frame.questions = self.frame.questions.saturating_add(1);
        self.state = State::Operand;
    }

    /// `=`, alone or the first byte of an operator.
    #[inline(always)]
    pub fn equals(&mut self) {
        self.frame.kind = self.frame.kind.value();
        self.state = State::Operand;
    }

    /// `...`
    #[inline(always)]
    pub fn spread(&mut self) {
        self.state = match self.frame.kind {
            FrameKind::PatternKey | FrameKind::ArrayPattern => State::Binding,
            _ => State::Operand,
        };
        self.frame.kind = self.frame.kind.value();
    }
}
