// Who asked, as it is told on a terminal.
ghost use Rattle.std.specs.Prelude.{◌≡◌, ◌<◌, All, IfOk, IfSome, length};
ghost use Rattle.httparse.specs.Spans.{IsHeaderWithin, IsRequestWithin};
ghost use Rattle.live_answers.specs.Shown.{IsShown};

use httparse::Status;
use httparse::spans::{EMPTY_HEADER_SPAN, HeaderSpan, RequestSpans, parse_request};
use request_guard::{is_own_host, is_own_origin};
use std::alloc::{AllocError, Global};

/// How many bytes are shown of a name.
const SHOWN: usize = 80;

/// The first host that a head names and that isn't this server's, else the first such origin, as it can be
/// shown: 80 bytes of it at most, with `?` for each that isn't a visible character of ASCII. It is empty
/// where there is none.
pub fn foreign_text(alloc: Global, head: &[u8], port: u16) -> Result<Vec<u8>, AllocError>
    ensures { IfOk result (λ text. IsShown text.items) }
{
    let mut slots = [EMPTY_HEADER_SPAN; 64];
    match head_spans(head, &mut slots) {
        Some(spans) => shown(alloc, foreign_value(head, &slots[..spans.headers], port)),
        None => Ok(Vec::new(alloc)),
    }
}

fn head_spans(bytes: &[u8], slots: &mut [HeaderSpan; 64]) -> Option<RequestSpans>
    ensures within { IfSome result (IsRequestWithin bytes.now slots.new) }
{
    match parse_request(bytes, slots.as_mut_slice()) {
        Ok(Status::Complete(head)) => Some(head),
        _ => None,
    }
}

fn foreign_value<'a>(bytes: &'a [u8], fields: &[HeaderSpan], port: u16) -> &'a [u8]
    requires within { All (IsHeaderWithin (length bytes.now)) fields.now }
{
    for field in fields {
        let value = field.value.of(bytes);
        if field.name.of(bytes).eq_ignore_ascii_case(b"host") && !is_own_host(value, port) {
            return value;
        }
    }
    for field in fields {
        let value = field.value.of(bytes);
        if field.name.of(bytes).eq_ignore_ascii_case(b"origin") && !is_own_origin(value, port) {
            return value;
        }
    }
    &bytes[..0]
}

fn shown(alloc: Global, value: &[u8]) -> Result<Vec<u8>, AllocError>
    ensures { IfOk result (λ text. IsShown text.items) }
{
    let mut text = Vec::new(alloc);
    for b in &value[..value.len().min(SHOWN)] {
        text.push(shown_byte(*b))?;
    }
    Ok(text)
}

fn shown_byte(b: u8) -> u8
    ensures { (32 < result) × (result < 127) }
{
    if b > 32 && b < 127 { b } else { b'?' }
}
