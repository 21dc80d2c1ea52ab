// The classes of bytes that the lexer tells apart.
ghost use Rattle.std.specs.Prelude.{◌≡◌, ◌<◌, ◌≤◌, IsTrue, drop, length};
ghost use Rattle.module_semantics.specs.Bytes as classes;
ghost use Rattle.module_semantics.specs.Lexing.{begins};

#[tactic(auto, unfolding(module_semantics::specs::Bytes::is_blank))]
pub(crate) fn is_blank(b: u8) -> bool
    ensures { result ≡ classes.is_blank b }
{
    matches!(b, b' ' | b'\t' | b'\r' | b'\n')
}

#[tactic(auto, unfolding(module_semantics::specs::Bytes::is_digit))]
pub(crate) fn is_digit(b: u8) -> bool
    ensures exact { result ≡ classes.is_digit b }
    ensures low { IsTrue result → 48 ≤ b }
    ensures high { IsTrue result → b ≤ 57 }
{
    matches!(b, b'0'..=b'9')
}

/// Whether a name may begin with the byte.
#[tactic(auto, unfolding(module_semantics::specs::Bytes::is_name_start))]
pub(crate) fn is_name_start(b: u8) -> bool
    ensures exact { result ≡ classes.is_name_start b }
    ensures ascii { IsTrue result → b < 128 }
{
    matches!(b, b'a'..=b'z' | b'A'..=b'Z' | b'_' | b'$')
}

/// Whether the byte may stand in a name.
#[tactic(auto, unfolding(module_semantics::specs::Bytes::is_name_byte))]
pub(crate) fn is_name_byte(b: u8) -> bool
    ensures exact { result ≡ classes.is_name_byte b }
    ensures ascii { IsTrue result → b < 128 }
{
    is_name_start(b) || is_digit(b)
}

#[tactic(auto, unfolding(module_semantics::specs::Bytes::is_quote))]
pub(crate) fn is_quote(b: u8) -> bool
    ensures exact { result ≡ classes.is_quote b }
    ensures ascii { IsTrue result → b < 128 }
{
    matches!(b, b'"' | b'\'')
}

/// Whether the byte ends a line, and so can't stand raw in a text.
#[tactic(auto, unfolding(module_semantics::specs::Bytes::is_line_end))]
pub(crate) fn is_line_end(b: u8) -> bool
    ensures { result ≡ classes.is_line_end b }
{
    matches!(b, b'\n' | b'\r')
}

/// Whether the byte may follow a backslash.
#[tactic(auto, unfolding(module_semantics::specs::Bytes::is_escape))]
pub(crate) fn is_escape(b: u8) -> bool
    ensures exact { result ≡ classes.is_escape b }
    ensures ascii { IsTrue result → b < 128 }
{
    matches!(b, b'n' | b't' | b'r' | b'\\' | b'\'' | b'"')
}

/// What a backslash and this byte stand for.
#[tactic(auto, unfolding(module_semantics::specs::Bytes::unescape))]
pub(crate) fn unescape(b: u8) -> u8
    ensures exact { result ≡ classes.unescape b }
    ensures ascii { b < 128 → result < 128 }
{
    match b {
        b'n' => b'\n',
        b't' => b'\t',
        b'r' => b'\r',
        _ => b,
    }
}

/// Whether this byte stands at a place.
#[tactic(auto, unfolding(module_semantics::specs::Lexing::begins))]
pub(crate) fn stands(b: u8, bytes: &[u8], place: usize) -> bool
    ensures exact { result ≡ begins b (drop place bytes.now) }
    ensures within { IsTrue result → place < length bytes.now }
{
    place < bytes.len() && bytes[place] == b
}
