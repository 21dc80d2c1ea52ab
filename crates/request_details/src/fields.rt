// The fields of a head, whose names are compared in any case of ASCII letters.
ghost use Rattle.std.specs.Prelude.{◌≡◌, All, length, map};
ghost use Rattle.std.specs.List.{list_any};
ghost use Rattle.httparse.specs.Spans.{IsHeaderWithin, header_bytes};
ghost use Rattle.http_heads.specs.Head.{asks_close, is_closing};
ghost use Rattle.request_guard.specs.Admissions.{has_foreign_origin, is_foreign_origin};
ghost use Rattle.request_details.specs.Details.{asks_page, wants_page};

use crate::letters::{holds, same_letters};
use httparse::spans::HeaderSpan;
use request_guard::is_own_origin;

// Whether the field asks that the connection be closed.
fn asks_close(name: &[u8], value: &[u8]) -> bool
    ensures { result ≡ asks_close (name.now, value.now) }
{
    same_letters(name, b"connection") && same_letters(value, b"close")
}

// Whether the field says that pages are accepted.
fn asks_page(name: &[u8], value: &[u8]) -> bool
    ensures { result ≡ asks_page (name.now, value.now) }
{
    same_letters(name, b"accept") && holds(value, b"text/html")
}

fn is_foreign_origin(name: &[u8], value: &[u8], port: u16) -> bool
    ensures { result ≡ is_foreign_origin port (name.now, value.now) }
{
    same_letters(name, b"origin") && !is_own_origin(value, port)
}

/// Whether the head asks that the connection be closed.
pub(crate) fn is_closing(bytes: &[u8], fields: &[HeaderSpan]) -> bool
    requires within { All (IsHeaderWithin (length bytes.now)) fields.now }
    ensures { result ≡ is_closing (map (header_bytes bytes.now) fields.now) }
{
    for field in fields {
        if asks_close(field.name.of(bytes), field.value.of(bytes)) {
            return true;
        }
    }
    false
}

/// Whether pages are accepted.
pub(crate) fn wants_page(bytes: &[u8], fields: &[HeaderSpan]) -> bool
    requires within { All (IsHeaderWithin (length bytes.now)) fields.now }
    ensures { result ≡ wants_page (map (header_bytes bytes.now) fields.now) }
{
    for field in fields {
        if asks_page(field.name.of(bytes), field.value.of(bytes)) {
            return true;
        }
    }
    false
}

/// Whether an origin is named that isn't this server's.
pub(crate) fn has_foreign_origin(bytes: &[u8], fields: &[HeaderSpan], port: u16) -> bool
    requires within { All (IsHeaderWithin (length bytes.now)) fields.now }
    ensures { result ≡ has_foreign_origin port (map (header_bytes bytes.now) fields.now) }
{
    for field in fields {
        if is_foreign_origin(field.name.of(bytes), field.value.of(bytes), port) {
            return true;
        }
    }
    false
}
