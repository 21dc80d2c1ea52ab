// The classes of bytes, and the class of one byte.
ghost use Rattle.std.specs.Prelude.{◌≡◌};
ghost use Rattle.module_semantics.specs.Bytes.{is_name_byte, is_blank};
ghost use Rattle.byte_lanes.specs.Classes.{is_in, is_quoting, stops_string};

/// A class of bytes.
#[derive(Clone, Copy, Debug, PartialEq, Eq)]
pub enum Class {
    /// What may stand in a name: a letter, a digit, `_` or `$`.
    Word,
    /// A space, a tab, a CR or an LF.
    Space,
    /// An LF.
    Newline,
    /// `'`, `"` or a backslash.
    Quote,
    /// `*`, with which the end of a block comment begins.
    Star,
    /// Where plain bytes of a string literal end: a quote, a backslash, a CR or an LF.
    StringStop,
}

/// Whether the byte is in the class.
#[tactic(auto, unfolding(crate::specs::Classes::is_newline, crate::specs::Classes::is_star))]
pub(crate) fn has(class: Class, byte: u8) -> bool
    ensures { result ≡ is_in class byte }
{
    match class {
        Class::Word => is_word(byte),
        Class::Space => is_space(byte),
        Class::Newline => byte == b'\n',
        Class::Quote => is_quote(byte),
        Class::Star => byte == b'*',
        Class::StringStop => stops_string(byte),
    }
}

#[tactic(auto, unfolding(module_semantics::specs::Bytes::is_name_byte, module_semantics::specs::Bytes::is_name_start, module_semantics::specs::Bytes::is_digit))]
fn is_word(byte: u8) -> bool
    ensures { result ≡ is_name_byte byte }
{
    matches!(byte, b'a'..=b'z' | b'A'..=b'Z' | b'0'..=b'9' | b'_' | b'$')
}

#[tactic(auto, unfolding(module_semantics::specs::Bytes::is_blank))]
fn is_space(byte: u8) -> bool
    ensures { result ≡ is_blank byte }
{
    matches!(byte, b' ' | b'\t' | b'\r' | b'\n')
}

#[tactic(auto, unfolding(crate::specs::Classes::is_quoting, module_semantics::specs::Bytes::is_quote))]
fn is_quote(byte: u8) -> bool
    ensures { result ≡ is_quoting byte }
{
    matches!(byte, b'"' | b'\'' | b'\\')
}

#[tactic(auto, unfolding(crate::specs::Classes::stops_string, module_semantics::specs::Bytes::is_line_end))]
fn stops_string(byte: u8) -> bool
    ensures { result ≡ stops_string byte }
{
    is_quote(byte) || matches!(byte, b'\n' | b'\r')
}
