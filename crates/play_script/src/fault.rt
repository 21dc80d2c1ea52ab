// Why bytes are no script: the line, and what is wrong with it.
ghost use Rattle.std.specs.Prelude.{◌≡◌};
ghost use Rattle.play_script.specs.Script.{kind_word, refused_at};

use std::alloc::{AllocError, AllocFailed};

/// What is wrong with a line of a script. Where a line has several of these, the first counts.
#[derive(Clone, Copy, Debug, Eq, PartialEq)]
pub enum ScriptKind {
    /// The line isn't UTF-8.
    NotUtf8,
    /// The line has more than 65,535 bytes.
    LineTooLong,
    /// The line is the last one, and no LF ends it.
    CutLine,
    /// A `|` line follows neither an edit nor a `|` line.
    TextWithoutEdit,
    /// The first word is no command.
    UnknownWord,
    /// The command takes another number of words.
    WordCount,
    /// A word that stands for a module is no name of one.
    BadName,
    /// A word that stands for a number is none, or is out of its range.
    BadNumber,
    /// A root after another command, a second root of that name, a seventeenth root, or another
    /// command where no root came.
    RootPlace,
}

/// Why bytes are no script: the first line that has a fault, and its first fault.
#[derive(Clone, Copy, Debug, Eq, PartialEq)]
pub struct ScriptFault {
    /// The line, from 1.
    pub line: u32,
    /// What is wrong with it.
    pub kind: ScriptKind,
}

/// The word of a kind of fault, as it is written after `script fault at line N: `.
pub fn script_word(kind: ScriptKind) -> &'static str
    ensures { result.now ≡ kind_word kind }
{
    match kind {
        ScriptKind::NotUtf8 => "not-utf8",
        ScriptKind::LineTooLong => "line-too-long",
        ScriptKind::CutLine => "cut-line",
        ScriptKind::TextWithoutEdit => "text-without-edit",
        ScriptKind::UnknownWord => "unknown-word",
        ScriptKind::WordCount => "word-count",
        ScriptKind::BadName => "bad-name",
        ScriptKind::BadNumber => "bad-number",
        ScriptKind::RootPlace => "root-place",
    }
}

/// Why a script isn't read.
#[derive(Clone, Copy, Debug, Eq, PartialEq)]
pub enum ScriptRefusal {
    /// The bytes are no script, by this fault.
    Faulty(ScriptFault),
    /// Memory ran out.
    NoMemory,
}

/// Why one line isn't read.
pub enum Refusal {
    /// It has this fault.
    Fault(ScriptKind),
    /// Memory ran out.
    NoMemory,
}

impl From<AllocError> for Refusal {
    ghost use Rattle.std.specs.Prelude.{◌≡◌};
    ghost use Rattle.play_script.specs.declared.fault.Refusal.TheVariants.{NoMemory};

    ghost from_gives = { λ _ refusal. refusal ≡ NoMemory };

    fn from(_: AllocError) -> Self {
        Refusal::NoMemory
    }
}

impl<T: Drop> From<AllocFailed<T>> for Refusal {
    ghost use Rattle.std.specs.Prelude.{◌≡◌};
    ghost use Rattle.play_script.specs.declared.fault.Refusal.TheVariants.{NoMemory};

    ghost from_gives = { λ _ refusal. refusal ≡ NoMemory };

    fn from(_: AllocFailed<T>) -> Self {
        Refusal::NoMemory
    }
}

impl Refusal {
    /// Why a script isn't read whose line of this number is refused.
    pub fn at(self, line: u32) -> ScriptRefusal
        ensures { result ≡ refused_at line self }
    {
        match self {
            Refusal::Fault(kind) => ScriptRefusal::Faulty(ScriptFault { line, kind }),
            Refusal::NoMemory => ScriptRefusal::NoMemory,
        }
    }
}
