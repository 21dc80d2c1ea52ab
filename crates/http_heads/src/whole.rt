// Heads as a whole, with at most 64 fields.
ghost use Rattle.std.specs.Prelude.{◌≡◌, IfSome, IsSomeAnd};
ghost use Rattle.httparse.specs.Grammar.{RequestHead};
ghost use Rattle.httparse.specs.Spans.{IsRequestAt, IsRequestWithin};
ghost use Rattle.http_heads.specs.Head.{IsHeadOf};

use httparse::Status;
use httparse::spans::{HeaderSpan, RequestSpans, parse_request};

/// The parts of a head, where all of the bytes are one.
pub(crate) fn whole_head(bytes: &[u8], slots: &mut [HeaderSpan; 64]) -> Option<RequestSpans>
    ensures some { IfSome result
        (λ spans. (h : RequestHead) × IsHeadOf bytes.now h × IsRequestAt bytes.now slots.new spans h) }
    ensures found { (h : RequestHead) → IsHeadOf bytes.now h
        → IsSomeAnd result (λ spans. IsRequestAt bytes.now slots.new spans h) }
    ensures within { IfSome result (IsRequestWithin bytes.now slots.new) }
{
    match parse_request(bytes, slots.as_mut_slice()) {
        Ok(Status::Complete(head)) if head.len == bytes.len() => Some(head),
        _ => None,
    }
}
