// A range of a text, and what stands in its place.

use hmr_types::Sequence;

/// The bytes `start..end` of a text, and the bytes that stand in their place. Where `start` is `end`, they are
/// put in before the byte there.
#[derive(Debug, Drop)]
pub struct Splice {
    /// The place of the first byte, counted from the start of the text.
    pub start: usize,
    /// The place behind the last byte.
    pub end: usize,
    /// What stands in their place.
    pub by: Sequence<u8>,
}
