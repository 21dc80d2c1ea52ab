// Why a text is refused, and where; and where a reader of declarations stops, which refuses nothing.
ghost use Rattle.std.specs.Prelude.{◌≡◌, ◌≤◌, ◌<◌, ◌^◌};

/// Why a text is refused.
#[derive(Clone, Copy, Debug, PartialEq, Eq)]
pub enum FaultKind {
    /// A string literal without its closing quote on its line. The place is that of its opening quote.
    OpenString,
    /// A template without its closing backtick, or a `${` in it without its `}`. The place is that of its
    /// opening backtick.
    OpenTemplate,
    /// A comment without its `*/`. The place is that of its `/*`.
    OpenComment,
    /// A regular expression literal without its closing slash on its line. The place is that of its opening
    /// slash.
    OpenRegularExpression,
    /// A bracket without its closing one, at the end of the text. The place is that of the innermost such
    /// bracket, or of the word `extends` behind which no class body comes.
    OpenBracket,
    /// A closing bracket without its opening one. The place is its own.
    UnmatchedBracket,
    /// There is no memory. The place is how far the scan was.
    OutOfMemory,
}

/// Why a text is refused, and the place of the byte that shows it.
#[derive(Clone, Copy, Debug, PartialEq, Eq)]
pub struct Fault {
    /// Why it is refused.
    pub kind: FaultKind,
    /// The place, in bytes from the start of the text.
    pub at: u32,
}

impl Fault {
    /// A fault at a place.
    pub(crate) fn new(kind: FaultKind, at: usize) -> Fault
        requires short { at < 2 ^ 32 }
        ensures kind { result.kind ≡ kind }
        ensures at { result.at ≡ at }
    {
        Fault {
            kind,
            at: at as u32,
        }
    }

    /// The fault, at the end of a text of so many bytes where its place is behind that.
    pub(crate) fn within(self, len: usize) -> Fault
        ensures kind { result.kind ≡ self.kind }
        ensures within { result.at ≤ len }
    {
        Fault {
            kind: self.kind,
            at: (self.at as usize).min(len) as u32,
        }
    }
}

/// Why a reader of a declaration stops.
#[derive(Clone, Copy, PartialEq)]
pub(crate) enum Reason {
    /// The text is refused.
    Refused(FaultKind),
    /// The declaration has a form that isn't known.
    Unclear,
}

/// Why a reader of a declaration stops, and where.
#[derive(Clone, Copy, PartialEq)]
pub(crate) struct Stop {
    pub reason: Reason,
    pub at: u32,
}

impl From<Fault> for Stop {
    ghost from_gives = { λ fault stop. stop.at ≡ fault.at };

    fn from(fault: Fault) -> Stop {
        Stop {
            reason: Reason::Refused(fault.kind),
            at: fault.at,
        }
    }
}

/// The stop at a token that a declaration doesn't have there.
pub(crate) fn unclear(at: usize) -> Stop
    requires short { at < 2 ^ 32 }
    ensures at { result.at ≡ at }
{
    Stop {
        reason: Reason::Unclear,
        at: at as u32,
    }
}
