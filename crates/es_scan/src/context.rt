// The syntactic context at a place of a text: what may come next, and what is open. ECMA-262 leaves to it
// whether a slash begins a regular expression literal; a brace is read by it too, as a block or an object.
ghost use Rattle.std.specs.Prelude.{◌<◌, ◌^◌};

use crate::fault::{Fault, FaultKind};
use crate::frames::{Declares, Frame, FrameKind, MODULE};
use crate::state::State;
use std::alloc::Global;

/// Where a scan stands.
#[derive(Drop)]
pub(crate) struct Context {
    pub state: State,
    /// Whether a line ended since the last token, or none came yet.
    pub line_ended: bool,
    /// What is open innermost.
    pub frame: Frame,
    /// What is open round it, outermost first.
    outer: Vec<Frame>,
    /// The first fault, with which the scan ends.
    fault: Option<Fault>,
}

impl Context {
    /// The context where a module begins.
    pub fn new(alloc: Global) -> Context {
        Context {
            state: State::Statement,
            line_ended: true,
            frame: MODULE,
            outer: Vec::new(alloc),
            fault: None,
        }
    }

    /// Ends the scan with a fault.
    pub fn fail(&mut self, fault: Fault) {
        self.fault = Some(fault);
    }

    /// Whether the scan ended with a fault.
    #[inline(always)]
    pub fn has_failed(&self) -> bool {
        self.fault.is_some()
    }

    /// Opens a frame, whose first byte is at a place.
    pub fn open(&mut self, kind: FrameKind, at: usize, state: State)
        requires short { at < 2 ^ 32 }
    {
        if self.outer.push(self.frame).is_err() {
            self.fail(Fault::new(FaultKind::OutOfMemory, at));
        }
        self.frame = Frame {
            kind,
            declares: Declares::Nothing,
            questions: 0,
            at: at as u32,
        };
        self.state = state;
    }

    /// Closes the innermost frame.
    pub fn close(&mut self) {
        self.frame = self.outer.pop().unwrap_or(MODULE);
    }

    /// Ends the scan with the fault of a closing bracket at a place that closes nothing.
    pub fn fail_unmatched(&mut self, at: usize)
        requires short { at < 2 ^ 32 }
    {
        self.fail(Fault::new(FaultKind::UnmatchedBracket, at))
    }

    /// At the end of the text: the fault with which the scan ended, or that of what is still open.
    pub fn finish(&self) -> Result<(), Fault> {
        if let Some(fault) = self.fault {
            return Err(fault);
        }
        let kind = match self.frame.kind {
            FrameKind::Module => return Ok(()),
            FrameKind::Substitution => FaultKind::OpenTemplate,
            _ => FaultKind::OpenBracket,
        };
        Err(Fault {
            kind,
            at: self.frame.at,
        })
    }

    /// Whether a slash begins a regular expression literal here.
    #[inline(always)]
    pub fn wants_regular_expression(&self, line_ended: bool) -> bool {
        !self.state.is_after() || (line_ended && self.state == State::Bound)
    }

    /// A token that begins an operand ends a declaration, or a class field, that can't go on with it.
    #[inline(always)]
    pub fn begin_operand(&mut self) {
        match self.state {
            State::Statement
            | State::After
            | State::Bound
            | State::Async
            | State::ExpressionAsync => {
                self.frame.declares = Declares::Nothing;
                if self.frame.kind.is_class_value() {
                    self.frame.kind = self.frame.kind.next_key();
                }
            }
            _ => {}
        }
    }

    /// A token that goes on with an operand begins a statement or a class element where the body of an arrow
    /// function ended, which is no operand.
    #[inline(always)]
    pub fn begin_behind_body(&mut self) {
        if self.state == State::Statement {
            self.begin_operand();
        }
    }

    /// A literal that can't go on behind an operand: a string, a number or a private name.
    #[inline(always)]
    pub fn literal(&mut self) {
        self.begin_operand();
        self.state = State::After;
    }
}
