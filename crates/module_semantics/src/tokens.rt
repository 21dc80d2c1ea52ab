// Tokens and the faults of their reading. A text is spaces, comments and tokens, each as long as it
// can be. `lexing` says by a function what its tokens are, or which fault comes first; `IsLexing`
// and `IsFirstLexFault` say it by rules on the whole text. The laws here say that these agree.
ghost use Rattle.std.specs.Prelude.{◌↔◌, Ok, Err, ◌≡◌, ◌≤◌, ℕ, List};
ghost use Rattle.module_semantics.specs.LexFaults.{IsFirstLexFault};
ghost use Rattle.module_semantics.specs.Lexing.{lexing};
ghost use Rattle.module_semantics.specs.Pieces.{IsLexing, Piece, IsPiece, IsLongest, spelled, size};
ghost use Rattle.module_semantics.specs.Token.{Lexeme};

/// What is wrong at a place of a text that isn't tokens.
#[derive(Clone, Copy, Debug, PartialEq, Eq)]
pub enum LexKind {
    /// A byte that begins no token, a digit after a leading `0`, a name's byte directly after a
    /// number, or the second of two adjacent `+` or `-`.
    BadByte,
    /// A text that meets the end of its line or of the whole text.
    OpenString,
    /// A comment without its `*/`.
    OpenComment,
    /// A backslash that begins no escape.
    BadEscape,
    /// A number over 9007199254740991.
    NumberTooLarge,
    /// One token more than 65,536.
    TooManyTokens,
    /// Memory ran out: this says nothing of the text, and has place 0.
    NoMemory,
}

/// The first fault of the tokens of a text: its place in bytes, from 0, and what it is.
#[derive(Clone, Copy, Debug, PartialEq, Eq)]
pub struct LexFault {
    pub at: u32,
    pub kind: LexKind,
}

/// What a piece of a text is to the byte directly after it.
#[derive(Clone, Copy, Debug, PartialEq, Eq)]
pub enum After {
    /// A piece after which every byte may stand.
    Other,
    /// A number, after which no digit and no name may follow directly.
    Number,
    /// A `+`, after which no `+` may follow directly.
    Plus,
    /// A `-`, after which no `-` may follow directly.
    Minus,
}

/// Lexing gives these tokens exactly where the text is pieces by the rules, each as long as it can
/// be, with these tokens; so a text has its tokens in one way.
pub fn lexing_is_the_pieces()
    ensures same { (bytes : List ℕ) (ts : List Lexeme) → (lexing bytes ≡ Ok ts) ↔ IsLexing bytes ts }
    ensures one { (bytes : List ℕ) (ts us : List Lexeme) → IsLexing bytes ts → IsLexing bytes us → ts ≡ us }
{}

/// Lexing gives this fault exactly where pieces by the rules stand before its place, and the rules
/// call what stands there wrong; so a text has one first fault, or tokens.
pub fn faults_are_the_rules()
    ensures same { (bytes : List ℕ) (f : LexFault) → (lexing bytes ≡ Err f) ↔ IsFirstLexFault bytes f }
    ensures one { (bytes : List ℕ) (f g : LexFault) → IsFirstLexFault bytes f →
        IsFirstLexFault bytes g → f ≡ g }
    ensures apart { (bytes : List ℕ) (ts : List Lexeme) (f : LexFault) → IsLexing bytes ts →
        IsFirstLexFault bytes f → ⊥ }
{}

/// No piece by the rules that begins as a longest piece does is longer than it.
pub fn none_is_longer()
    ensures longest { (p q : Piece) (k j : List ℕ) → IsPiece p → IsLongest p k → IsPiece q →
        spelled q j ≡ spelled p k → size q ≤ size p }
{}
