// What the fields of a head say of who sent it.
ghost use Rattle.std.specs.Prelude.{◌≡◌, All, length, map};
ghost use Rattle.std.specs.List.{list_any};
ghost use Rattle.httparse.specs.Spans.{IsHeaderWithin, header_bytes};
ghost use Rattle.request_guard.specs.Admissions.{asks_upgrade, is_foreign_host, is_foreign_origin, is_host};
ghost use Rattle.request_guard.specs.Admissions.{has_foreign_host, has_foreign_origin, has_host, is_upgrade};

use crate::hosts::{is_own_host, is_own_origin, same_letters};
use httparse::spans::HeaderSpan;

fn is_host(name: &[u8], value: &[u8]) -> bool
    ensures { result ≡ is_host (name.now, value.now) }
{
    let _ = value;
    same_letters(name, b"host")
}

fn is_foreign_host(name: &[u8], value: &[u8], port: u16) -> bool
    ensures { result ≡ is_foreign_host port (name.now, value.now) }
{
    same_letters(name, b"host") && !is_own_host(value, port)
}

fn is_foreign_origin(name: &[u8], value: &[u8], port: u16) -> bool
    ensures { result ≡ is_foreign_origin port (name.now, value.now) }
{
    same_letters(name, b"origin") && !is_own_origin(value, port)
}

fn asks_upgrade(name: &[u8], value: &[u8]) -> bool
    ensures { result ≡ asks_upgrade (name.now, value.now) }
{
    same_letters(name, b"upgrade") && same_letters(value, b"websocket")
}

/// Whether a host is named.
pub(crate) fn has_host(bytes: &[u8], fields: &[HeaderSpan]) -> bool
    requires within { All (IsHeaderWithin (length bytes.now)) fields.now }
    ensures { result ≡ has_host (map (header_bytes bytes.now) fields.now) }
{
    for field in fields {
        if is_host(field.name.of(bytes), field.value.of(bytes)) {
            return true;
        }
    }
    false
}

/// Whether a host is named that isn't this server's.
pub(crate) fn has_foreign_host(bytes: &[u8], fields: &[HeaderSpan], port: u16) -> bool
    requires within { All (IsHeaderWithin (length bytes.now)) fields.now }
    ensures { result ≡ has_foreign_host port (map (header_bytes bytes.now) fields.now) }
{
    for field in fields {
        if is_foreign_host(field.name.of(bytes), field.value.of(bytes), port) {
            return true;
        }
    }
    false
}

/// Whether an origin is named that isn't this server's.
pub(crate) fn has_foreign_origin(bytes: &[u8], fields: &[HeaderSpan], port: u16) -> bool
    requires within { All (IsHeaderWithin (length bytes.now)) fields.now }
    ensures { result ≡ has_foreign_origin port (map (header_bytes bytes.now) fields.now) }
{
    for field in fields {
        if is_foreign_origin(field.name.of(bytes), field.value.of(bytes), port) {
            return true;
        }
    }
    false
}

/// Whether a WebSocket is asked for.
pub(crate) fn is_upgrade(bytes: &[u8], fields: &[HeaderSpan]) -> bool
    requires within { All (IsHeaderWithin (length bytes.now)) fields.now }
    ensures { result ≡ is_upgrade (map (header_bytes bytes.now) fields.now) }
{
    for field in fields {
        if asks_upgrade(field.name.of(bytes), field.value.of(bytes)) {
            return true;
        }
    }
    false
}
