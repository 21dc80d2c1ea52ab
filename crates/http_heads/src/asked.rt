// What a head asks, in the order of the refusals: a bad request, another method, a long target.
ghost use Rattle.std.specs.Prelude.{◌≡◌, ◌≤◌, All, length, map, take};
ghost use Rattle.httparse.specs.Grammar.{RequestHead};
ghost use Rattle.httparse.specs.Spans.{IsHeaderWithin, IsRequestWithin, header_bytes, span_bytes};
ghost use Rattle.http_heads.specs.Head.{IsHeadOf, path_of};
ghost use Rattle.http_heads.specs.Asks.{Asks, asked_at, asked_by, asked_of, said};

use crate::fields::{has_body, is_closing};
use crate::whole::whole_head;
use httparse::spans::{EMPTY_HEADER_SPAN, HeaderSpan, RequestSpans};

/// The most bytes that a target has.
pub const TARGET_BYTES: usize = 1024;

/// What a head asks. `bare` says that the answer is to have no body, as one to HEAD; `closes` that the
/// connection is closed after it, since the version is 1.0 or a Connection field is `close` in any case.
#[derive(Clone, Copy, Debug)]
pub enum Asked<'a> {
    /// The bytes are no head, or a body follows or could: there is a Transfer-Encoding, or a Content-Length
    /// other than `0`. The connection is always closed after the answer.
    BadRequest {
        bare: bool,
    },
    /// The method is neither GET nor HEAD.
    OtherMethod {
        closes: bool,
    },
    /// The target has more than [`TARGET_BYTES`] bytes.
    LongTarget {
        bare: bool,
        closes: bool,
    },
    /// What is wanted is the module of this name: the target up to its first `?`.
    Module {
        name: &'a [u8],
        bare: bool,
        closes: bool,
    },
}

/// What the bytes ask: as a whole they are a request head of `httparse`'s grammar with at most 64 fields,
/// or else they ask nothing, which is a bad request. The names of fields are compared in any ASCII case. It
/// takes time linear in the bytes.
pub fn judge<'a>(bytes: &'a [u8]) -> Asked<'a>
    ensures head { (h : RequestHead) → IsHeadOf bytes.now h → said result ≡ asked_of h }
    ensures asks { Asks bytes.now (said result) }
{
    let mut slots = [EMPTY_HEADER_SPAN; 64];
    match whole_head(bytes, &mut slots) {
        Some(spans) => asked_at(bytes, &spans, &slots[..spans.headers]),
        None => Asked::BadRequest { bare: false },
    }
}

fn asked_at<'a>(bytes: &'a [u8], spans: &RequestSpans, fields: &[HeaderSpan]) -> Asked<'a>
    requires method { (spans.now.method.start ≤ spans.now.method.end) × (spans.now.method.end ≤ length bytes.now) }
    requires path { (spans.now.path.start ≤ spans.now.path.end) × (spans.now.path.end ≤ length bytes.now) }
    requires within { All (IsHeaderWithin (length bytes.now)) fields.now }
    ensures { said result ≡ asked_at (span_bytes bytes.now spans.now.method)
        (span_bytes bytes.now spans.now.path) spans.now.version (map (header_bytes bytes.now) fields.now) }
{
    let method = spans.method.of(bytes);
    if has_body(bytes, fields) {
        return Asked::BadRequest {
            bare: method == b"HEAD".as_slice(),
        };
    }
    let closes = spans.version == 0 || is_closing(bytes, fields);
    asked_by(method, spans.path.of(bytes), closes)
}

fn asked_by<'a>(method: &[u8], target: &'a [u8], closes: bool) -> Asked<'a>
    ensures { said result ≡ asked_by method.now target.now closes }
{
    let bare = method == b"HEAD".as_slice();
    if !bare && method != b"GET".as_slice() {
        return Asked::OtherMethod { closes };
    }
    if target.len() > TARGET_BYTES {
        return Asked::LongTarget { bare, closes };
    }
    Asked::Module {
        name: path_of(target),
        bare,
        closes,
    }
}

/// The target up to its first question mark.
fn path_of(target: &[u8]) -> &[u8]
    ensures { result.now ≡ path_of target.now }
{
    for at in 0..target.len() {
        if target[at] == b'?' {
            return &target[..at];
        }
    }
    target
}
