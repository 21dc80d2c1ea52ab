// Names in texts of JavaScript, as strings.
use es_scan::Span;
use serde_json::Value;
use std::alloc::{AllocError, Global};

/// The bytes of a span; none where it isn't in the text.
pub(crate) fn part(text: &[u8], span: Span) -> &[u8] {
    match text.get(span.start as usize..span.end as usize) {
        Some(bytes) => bytes,
        None => &[],
    }
}

/// A name as it stands in the text, and a string literal without its quotes. Escapes aren't read.
pub(crate) fn name_value(alloc: Global, text: &[u8], span: Span) -> Result<Value, AllocError> {
    let name = match part(text, span) {
        [b'"' | b'\'', inside @ .., _last] => inside,
        name => name,
    };
    match str::from_utf8(name) {
        Ok(name) => Value::try_from_str(alloc, name),
        Err(_) => Value::try_from_str(alloc, ""),
    }
}
