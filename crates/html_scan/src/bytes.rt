// Classes of bytes, by the HTML standard.
ghost use Rattle.std.specs.Prelude.{◌≡◌, ◌<◌, IsTrue, length, slice_index};
ghost use Rattle.html_scan.specs.Pages.{ends, is_space};

use crate::outline::Quoting;

/// Whether the byte is ASCII white space.
#[inline(always)]
pub(crate) fn is_space(byte: u8) -> bool
    ensures same { result ≡ is_space byte }
{
    byte == b' ' || byte == b'\t' || byte == b'\n' || byte == 0x0C || byte == b'\r'
}

/// Whether the byte is a letter of ASCII.
#[inline(always)]
pub(crate) fn is_letter(byte: u8) -> bool
    ensures some { IsTrue result → 0 < byte }
{
    matches!(byte, b'a'..=b'z' | b'A'..=b'Z')
}

/// Whether the byte ends the name of a tag.
#[inline(always)]
pub(crate) fn ends_tag_name(byte: u8) -> bool {
    is_space(byte) || byte == b'/' || byte == b'>'
}

/// Whether the byte ends a value that is written so.
#[inline(always)]
pub(crate) fn ends_value(quoting: Quoting, byte: u8) -> bool
    ensures same { result ≡ ends quoting byte }
{
    match quoting {
        Quoting::Double => byte == b'"',
        Quoting::Single => byte == b'\'',
        Quoting::Bare => byte == b'>' || is_space(byte),
    }
}

/// The byte at a place, 0 at the end of the text.
#[inline(always)]
pub(crate) fn byte_at(text: &[u8], at: usize) -> u8
    ensures value { result ≡ slice_index text.now at }
    ensures within { 0 < result → at < length text.now }
{
    if at < text.len() { text[at] } else { 0 }
}
