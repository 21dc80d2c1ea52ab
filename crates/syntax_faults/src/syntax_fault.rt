// The first fault of a module text, with its line and column.
ghost use Rattle.std.specs.Prelude.{◌≡◌, ◌≤◌, length, take};
ghost use Rattle.std.specs.Option.{option_map};
ghost use Rattle.module_semantics.specs.Lines.{since_line_feed};
ghost use Rattle.module_semantics.specs.ModuleText.{fault_at};
ghost use Rattle.syntax_faults.specs.Syntax.{no_memory, text_fault_of, word_of};

use byte_lanes::count_newlines;
use hmr_types::{FaultWord, TextFault};
use module_semantics::LexKind;

/// What is wrong at a place of a module text.
#[derive(Clone, Copy, Debug, PartialEq, Eq)]
pub enum SyntaxKind {
    /// The text isn't tokens; never `LexKind::NoMemory`.
    Lex(LexKind),
    /// No module text goes on with this token, or a name stands where none may.
    Unexpected,
    /// Constructs stand in one another more than 64 deep.
    TooDeep,
    /// A name is declared twice.
    DuplicateName,
    /// The bytes are no UTF-8.
    NotUtf8,
    /// What is assigned is no `let` of the module.
    NotAssignable,
    /// Memory ran out: this says nothing of the text, and has line and column 0.
    NoMemory,
}

/// The first fault of a module text.
#[derive(Clone, Copy, Debug, PartialEq, Eq)]
pub struct SyntaxFault {
    /// Its line, from 1.
    pub line: u32,
    /// Its column in bytes, from 1.
    pub col: u32,
    /// What is wrong there.
    pub kind: SyntaxKind,
}

impl SyntaxFault {
    /// The fault of the text, as lines name it; None where memory ran out.
    pub fn text_fault(&self) -> Option<TextFault>
        ensures { result ≡ text_fault_of self.now }
    {
        let word = word_of(self.kind)?;
        Some(TextFault {
            line: self.line,
            col: self.col,
            word,
        })
    }

    /// The fault where memory ran out.
    pub fn no_memory() -> SyntaxFault
        ensures { result ≡ no_memory }
    {
        SyntaxFault {
            line: 0,
            col: 0,
            kind: SyntaxKind::NoMemory,
        }
    }
}

/// The word of what is wrong, None where memory ran out.
fn word_of(kind: SyntaxKind) -> Option<FaultWord>
    ensures { result ≡ word_of kind }
{
    match kind {
        SyntaxKind::Lex(LexKind::BadByte) => Some(FaultWord::BadByte),
        SyntaxKind::Lex(LexKind::OpenString) => Some(FaultWord::OpenString),
        SyntaxKind::Lex(LexKind::OpenComment) => Some(FaultWord::OpenComment),
        SyntaxKind::Lex(LexKind::BadEscape) => Some(FaultWord::BadEscape),
        SyntaxKind::Lex(LexKind::NumberTooLarge) => Some(FaultWord::NumberTooLarge),
        SyntaxKind::Lex(LexKind::TooManyTokens) => Some(FaultWord::TooManyTokens),
        SyntaxKind::Unexpected => Some(FaultWord::Unexpected),
        SyntaxKind::TooDeep => Some(FaultWord::TooDeep),
        SyntaxKind::DuplicateName => Some(FaultWord::DuplicateName),
        SyntaxKind::NotUtf8 => Some(FaultWord::NotUtf8),
        SyntaxKind::NotAssignable => Some(FaultWord::NotAssignable),
        SyntaxKind::Lex(LexKind::NoMemory) | SyntaxKind::NoMemory => None,
    }
}

/// A fault at a place of a text, in bytes from 0. It takes time in proportion to that place.
pub fn fault_at(text: &[u8], place: usize, kind: SyntaxKind) -> SyntaxFault
    requires { length text.now ≤ 4294967294 }
    ensures told { text_fault_of result ≡ option_map (fault_at text.now place) (word_of kind) }
    ensures kind { result.kind ≡ kind }
{
    let before = front(text, place);
    SyntaxFault {
        line: count_newlines(before) as u32 + 1,
        col: since_line_feed(before) + 1,
        kind,
    }
}

/// What stands before a place of a text.
fn front(text: &[u8], place: usize) -> &[u8]
    ensures bytes { result.now ≡ take place text.now }
    ensures short { length result.now ≤ length text.now }
{
    if place < text.len() {
        &text[..place]
    } else {
        text
    }
}

/// How many bytes stand after the last line feed.
#[tactic(auto, unfolding(module_semantics::specs::Lines::since_line_feed))]
fn since_line_feed(bytes: &[u8]) -> u32
    requires { length bytes.now ≤ 4294967294 }
    ensures exact { result ≡ since_line_feed 0 bytes.now }
    ensures small { result ≤ 4294967294 }
{
    let mut since = 0u32;
    for byte in bytes {
        if *byte == b'\n' {
            since = 0;
        } else {
            since += 1;
        }
    }
    since
}
