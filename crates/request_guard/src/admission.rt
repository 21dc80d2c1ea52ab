// Who a head is of.
ghost use Rattle.std.specs.Prelude.{◌≡◌, All, length, map};
ghost use Rattle.std.specs.Prelude.{IfSome, IsSomeAnd};
ghost use Rattle.httparse.specs.Grammar.{RequestHead};
ghost use Rattle.httparse.specs.Spans.{IsHeaderWithin, IsRequestAt, IsRequestWithin, header_bytes};
ghost use Rattle.http_heads.specs.Head.{IsHeadOf};
ghost use Rattle.request_guard.specs.Admissions.{Admits, admission_at};

use crate::fields::{has_foreign_host, has_foreign_origin, has_host, is_upgrade};
use httparse::Status;
use httparse::spans::{EMPTY_HEADER_SPAN, HeaderSpan, RequestSpans, parse_request};

/// Who a request is of.
#[derive(Clone, Copy, Debug, PartialEq, Eq)]
pub enum Admission {
    /// It names this server as its host; `upgrade` says whether a WebSocket is asked for, whose origin, if
    /// it names one, is then this server's.
    Admitted { upgrade: bool },
    /// It names no host, or one that isn't this server's.
    ForeignHost,
    /// It asks for a WebSocket, and names an origin that isn't this server's.
    ForeignOrigin,
}

/// Who the request of this head is of, at a server at this port of this machine; None exactly where the
/// bytes are no head as a whole, of at most 64 fields. A field counts wherever it stands, in any case of its
/// name's letters, so one that is foreign is never hidden by another. It takes time linear in the bytes.
pub fn admit(bytes: &[u8], port: u16) -> Option<Admission>
    ensures { Admits port bytes.now result }
{
    let mut slots = [EMPTY_HEADER_SPAN; 64];
    match whole_head(bytes, &mut slots) {
        Some(spans) => Some(admission_at(bytes, &slots[..spans.headers], port)),
        None => None,
    }
}

// Who a head with these fields is of.
fn admission_at(bytes: &[u8], fields: &[HeaderSpan], port: u16) -> Admission
    requires within { All (IsHeaderWithin (length bytes.now)) fields.now }
    ensures { result ≡ admission_at port (map (header_bytes bytes.now) fields.now) }
{
    if !has_host(bytes, fields) || has_foreign_host(bytes, fields, port) {
        return Admission::ForeignHost;
    }
    let upgrade = is_upgrade(bytes, fields);
    if upgrade && has_foreign_origin(bytes, fields, port) {
        return Admission::ForeignOrigin;
    }
    Admission::Admitted { upgrade }
}

// The parts of a head, where all of the bytes are one.
fn whole_head(bytes: &[u8], slots: &mut [HeaderSpan; 64]) -> Option<RequestSpans>
    ensures some { IfSome result
        (λ spans. (h : RequestHead) × IsHeadOf bytes.now h × IsRequestAt bytes.now slots.new spans h) }
    ensures found { (h : RequestHead) → IsHeadOf bytes.now h
        → IsSomeAnd result (λ spans. IsRequestAt bytes.now slots.new spans h) }
    ensures within { IfSome result (IsRequestWithin bytes.now slots.new) }
{
    match parse_request(bytes, slots.as_mut_slice()) {
        Ok(Status::Complete(head)) if head.len == bytes.len() => Some(head),
        _ => None,
    }
}
