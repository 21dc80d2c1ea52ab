// Classes of bytes, by CSS Syntax. A byte of a character beyond ASCII is part of a name.
ghost use Rattle.std.specs.Prelude.{◌≡◌, ◌<◌, length, slice_index};
ghost use Rattle.css_scan.specs.Addresses.{is_blank, is_hexadecimal, is_line_end};

/// Whether the byte ends a line: LF, CR or form feed.
#[inline(always)]
pub(crate) fn is_line_end(byte: u8) -> bool
    ensures same { result ≡ is_line_end byte }
{
    byte == b'\n' || byte == b'\r' || byte == 0x0C
}

/// Whether the byte is white space.
#[inline(always)]
pub(crate) fn is_blank(byte: u8) -> bool
    ensures same { result ≡ is_blank byte }
{
    byte == b' ' || byte == b'\t' || is_line_end(byte)
}

/// Whether the byte is a hexadecimal digit.
#[inline(always)]
pub(crate) fn is_hexadecimal(byte: u8) -> bool
    ensures same { result ≡ is_hexadecimal byte }
{
    (b'0' <= byte && byte <= b'9')
        || (b'a' <= byte && byte <= b'f')
        || (b'A' <= byte && byte <= b'F')
}

/// Whether the byte may begin a name, apart from `-` and escapes.
#[inline(always)]
pub(crate) fn begins_name(byte: u8) -> bool {
    matches!(byte, b'a'..=b'z' | b'A'..=b'Z' | b'_' | 128..=255)
}

/// Whether the byte may stand in a name.
#[inline(always)]
pub(crate) fn is_name_byte(byte: u8) -> bool {
    matches!(byte, b'a'..=b'z' | b'A'..=b'Z' | b'0'..=b'9' | b'_' | b'-' | 128..=255)
}

/// The byte at a place, 0 at the end of the text.
#[inline(always)]
pub(crate) fn byte_at(text: &[u8], at: usize) -> u8
    ensures value { result ≡ slice_index text.now at }
    ensures within { 0 < result → at < length text.now }
{
    if at < text.len() { text[at] } else { 0 }
}
