// The fields of a head, whose names are compared in any ASCII case.
ghost use Rattle.std.specs.Prelude.{◌≡◌, All, length, map};
ghost use Rattle.std.specs.List.{list_any};
ghost use Rattle.httparse.specs.Spans.{IsHeaderWithin, header_bytes};
ghost use Rattle.http_heads.specs.Head.{asks_body, asks_close, has_body, is_closing, same_letters};

use httparse::spans::HeaderSpan;

/// Whether the texts are equal but for the case of ASCII letters.
pub(crate) fn same_letters(a: &[u8], b: &[u8]) -> bool
    ensures { result ≡ same_letters a.now b.now }
{
    a.eq_ignore_ascii_case(b)
}

/// Whether the field says that a body follows, or could.
fn asks_body(name: &[u8], value: &[u8]) -> bool
    ensures { result ≡ asks_body (name.now, value.now) }
{
    same_letters(name, b"transfer-encoding")
        || (same_letters(name, b"content-length") && value != b"0".as_slice())
}

/// Whether the field asks that the connection be closed.
fn asks_close(name: &[u8], value: &[u8]) -> bool
    ensures { result ≡ asks_close (name.now, value.now) }
{
    same_letters(name, b"connection") && same_letters(value, b"close")
}

/// Whether a body follows, or could.
pub(crate) fn has_body(bytes: &[u8], fields: &[HeaderSpan]) -> bool
    requires within { All (IsHeaderWithin (length bytes.now)) fields.now }
    ensures { result ≡ has_body (map (header_bytes bytes.now) fields.now) }
{
    for field in fields {
        if asks_body(field.name.of(bytes), field.value.of(bytes)) {
            return true;
        }
    }
    false
}

/// Whether the head asks that the connection be closed.
pub(crate) fn is_closing(bytes: &[u8], fields: &[HeaderSpan]) -> bool
    requires within { All (IsHeaderWithin (length bytes.now)) fields.now }
    ensures { result ≡ is_closing (map (header_bytes bytes.now) fields.now) }
{
    for field in fields {
        if asks_close(field.name.of(bytes), field.value.of(bytes)) {
            return true;
        }
    }
    false
}
