// What the server learns of a module text: its analysis where it is good, or the first fault.
use crate::{ModName, Name, Sequence};

/// What static analysis tells of a module.
#[derive(Clone, Debug, Drop, Eq, PartialEq)]
pub struct Analysis {
    /// The names of the modules that it imports, in the order of their first occurrence.
    pub imports: Sequence<ModName>,
    /// The names that it exports, in the order of their declarations.
    pub exports: Sequence<Name>,
    /// Whether it calls `accept` on itself.
    pub self_accepts: bool,
    /// The imported modules that it accepts by name, in the order of their first occurrence.
    pub accepted: Sequence<ModName>,
    /// Whether it calls `decline`.
    pub declined: bool,
}

/// What is wrong at a place of a module text.
#[derive(Clone, Copy, Debug, PartialEq, Eq)]
pub enum FaultWord {
    /// A byte begins no token, or stands where none may.
    BadByte,
    /// A text has no closing quote on its line.
    OpenString,
    /// A comment isn't closed.
    OpenComment,
    /// A backslash begins no escape.
    BadEscape,
    /// A number is over 9007199254740991.
    NumberTooLarge,
    /// There are more than 65,536 tokens.
    TooManyTokens,
    /// No module text continues with this token.
    Unexpected,
    /// Constructs stand in one another more than 64 deep.
    TooDeep,
    /// A name is declared twice.
    DuplicateName,
    /// The bytes are no UTF-8.
    NotUtf8,
    /// What is assigned is no `let` of the module.
    NotAssignable,
    /// A specifier begins with none of `/`, `./` and `../`.
    SpecifierBare,
    /// A specifier has a `..` where no segment is left.
    SpecifierClimbs,
    /// A specifier is empty, or leaves no segment.
    SpecifierEmpty,
    /// A specifier means a name of more than 255 bytes.
    SpecifierTooLong,
    /// A part of a specifier is no segment.
    SpecifierBadSegment,
    /// More than 256 different names are imported.
    TooManyImports,
}

/// The first fault of a module text: its line and column, from 1 and in bytes, or 0 and 0 for a
/// fault of its specifiers and imports.
#[derive(Clone, Copy, Debug, PartialEq, Eq)]
pub struct TextFault {
    /// The line, from 1, or 0.
    pub line: u32,
    /// The byte of the line, from 1, or 0.
    pub col: u32,
    /// What is wrong there.
    pub word: FaultWord,
}

/// The result of transforming a module text.
#[derive(Clone, Debug, Drop, Eq, PartialEq)]
pub enum Outcome {
    /// The text is a module, with this analysis.
    Good(Analysis),
    /// The text is no module; this is its first fault.
    Bad(TextFault),
}
