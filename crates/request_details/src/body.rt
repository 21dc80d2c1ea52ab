// How long a body is, as the fields of its head say.
ghost use Rattle.std.specs.Prelude.{◌≡◌, All, length, map};
ghost use Rattle.httparse.specs.Spans.{IsHeaderWithin, header_bytes};
ghost use Rattle.request_details.specs.Bodies.{are_digits, body_of, body_with, is_digit, is_number, length_of};
ghost use Rattle.request_details.specs.Bodies.{number, sized};

use crate::letters::same_letters;
use httparse::spans::HeaderSpan;

/// The most bytes of a body that is taken.
pub const BODY_BYTES: usize = 4_194_304;

/// How long a body is.
#[derive(Clone, Copy, Debug, PartialEq, Eq)]
pub enum Body {
    /// There is no Content-Length.
    Untold,
    /// It has so many bytes, at most [`BODY_BYTES`].
    Bytes(usize),
    /// It has more than [`BODY_BYTES`] bytes.
    Long,
    /// There is a Transfer-Encoding, or a second Content-Length, or one that isn't of decimal digits.
    Unclear,
}

/// How long the body is behind a head with these fields.
pub(crate) fn body_of(bytes: &[u8], fields: &[HeaderSpan]) -> Body
    requires within { All (IsHeaderWithin (length bytes.now)) fields.now }
    ensures { result ≡ body_of Body.Untold (map (header_bytes bytes.now) fields.now) }
{
    let mut body = Body::Untold;
    for field in fields {
        body = body_with(body, field.name.of(bytes), field.value.of(bytes));
    }
    body
}

// How long the body is by a further field.
fn body_with(before: Body, name: &[u8], value: &[u8]) -> Body
    ensures { result ≡ body_with before (name.now, value.now) }
{
    if same_letters(name, b"transfer-encoding") {
        return Body::Unclear;
    }
    if !same_letters(name, b"content-length") {
        return before;
    }
    match before {
        Body::Untold => length_of(value),
        Body::Bytes(_) | Body::Long | Body::Unclear => Body::Unclear,
    }
}

// How long the body is by a Content-Length.
fn length_of(value: &[u8]) -> Body
    ensures { result ≡ length_of value.now }
{
    if is_number(value) {
        sized(value)
    } else {
        Body::Unclear
    }
}

fn is_number(text: &[u8]) -> bool
    ensures { result ≡ is_number text.now }
{
    !text.is_empty() && are_digits(text)
}

fn are_digits(text: &[u8]) -> bool
    ensures { result ≡ are_digits text.now }
{
    for b in text {
        if !is_digit(*b) {
            return false;
        }
    }
    true
}

fn is_digit(b: u8) -> bool
    ensures { result ≡ is_digit b }
{
    b >= b'0' && b <= b'9'
}

// How long a body of that many bytes is, where the number may be of any size.
fn sized(digits: &[u8]) -> Body
    ensures { result ≡ sized (number 0 digits.now) }
{
    let mut count = 0;
    for b in digits {
        count = 10 * count + b.saturating_sub(b'0') as usize;
        if count > BODY_BYTES {
            return Body::Long;
        }
    }
    Body::Bytes(count)
}
