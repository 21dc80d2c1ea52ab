// What a head says of its request.
ghost use Rattle.std.specs.Prelude.{◌≡◌, ◌≤◌, All, IfSome, IsSomeAnd, length, map, option_map};
ghost use Rattle.httparse.specs.Grammar.{RequestHead};
ghost use Rattle.httparse.specs.Spans.{IsHeaderWithin, IsRequestAt, IsRequestWithin, header_bytes, span_bytes};
ghost use Rattle.http_heads.specs.Head.{IsHeadOf};
ghost use Rattle.request_details.specs.Details.{Tells, details_at, said};

use crate::body::{Body, body_of};
use crate::fields::{has_foreign_origin, is_closing, wants_page};
use httparse::Status;
use httparse::spans::{EMPTY_HEADER_SPAN, HeaderSpan, RequestSpans, parse_request};

/// What a head says of its request.
#[derive(Clone, Copy, Debug)]
pub struct Details<'a> {
    /// The method, as `POST`.
    pub method: &'a [u8],
    /// The target as it stands in the head, with its query.
    pub target: &'a [u8],
    /// Whether an Accept field names `text/html`, in any case of letters.
    pub wants_page: bool,
    /// Whether an Origin field names another server than that of the port on this machine.
    pub is_foreign: bool,
    /// Whether the connection is closed after the answer, since the version is 1.0 or a Connection field is
    /// `close`.
    pub closes: bool,
    /// How long the body is.
    pub body: Body,
}

/// What the bytes say of their request, at a server at this port of this machine; None exactly where they
/// are no head as a whole, of at most 64 fields. The names of fields are compared in any case of letters. It
/// takes time linear in the bytes.
pub fn read_details(bytes: &[u8], port: u16) -> Option<Details<'_>>
    ensures { Tells port bytes.now (option_map said result) }
{
    let mut slots = [EMPTY_HEADER_SPAN; 64];
    match whole_head(bytes, &mut slots) {
        Some(spans) => Some(details_at(bytes, &spans, &slots[..spans.headers], port)),
        None => None,
    }
}

fn details_at<'a>(
    bytes: &'a [u8],
    spans: &RequestSpans,
    fields: &[HeaderSpan],
    port: u16,
) -> Details<'a>
    requires method { (spans.now.method.start ≤ spans.now.method.end) × (spans.now.method.end ≤ length bytes.now) }
    requires path { (spans.now.path.start ≤ spans.now.path.end) × (spans.now.path.end ≤ length bytes.now) }
    requires within { All (IsHeaderWithin (length bytes.now)) fields.now }
    ensures { said result ≡ details_at port (span_bytes bytes.now spans.now.method)
        (span_bytes bytes.now spans.now.path) spans.now.version (map (header_bytes bytes.now) fields.now) }
{
    Details {
        method: spans.method.of(bytes),
        target: spans.path.of(bytes),
        wants_page: wants_page(bytes, fields),
        is_foreign: has_foreign_origin(bytes, fields, port),
        closes: spans.version == 0 || is_closing(bytes, fields),
        body: body_of(bytes, fields),
    }
}

// The parts of a head, where all of the bytes are one.
fn whole_head(bytes: &[u8], slots: &mut [HeaderSpan; 64]) -> Option<RequestSpans>
    ensures some { IfSome result
        (λ spans. (h : RequestHead) × IsHeadOf bytes.now h × IsRequestAt bytes.now slots.new spans h) }
    ensures found { (h : RequestHead) → IsHeadOf bytes.now h
        → IsSomeAnd result (λ spans. IsRequestAt bytes.now slots.new spans h) }
    ensures within { IfSome result (IsRequestWithin bytes.now slots.new) }
{
    match parse_request(bytes, slots.as_mut_slice()) {
        Ok(Status::Complete(head)) if head.len == bytes.len() => Some(head),
        _ => None,
    }
}
