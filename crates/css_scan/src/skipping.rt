// What stands between tokens: white space and comments.
ghost use Rattle.std.specs.Prelude.{◌≡◌, ◌≢◌, ℕ, ◌≤◌, ◌<◌, ◌+◌, ◌-◌, length, slice_index, true};
ghost use Rattle.css_scan.specs.Styles.{IsOpened};

use crate::bytes::{byte_at, is_blank};

/// Whether a comment begins at a place.
pub(crate) fn begins_comment(text: &[u8], at: usize) -> bool
    ensures within { result ≡ true → at + 2 ≤ length text.now }
{
    byte_at(text, at) == b'/' && byte_at(text, at + 1) == b'*'
}

/// Where the comment ends whose `/*` stands at a place: behind its `*/`, or with the text.
pub(crate) fn comment_end(text: &[u8], at: usize) -> usize
    requires within { at + 2 ≤ length text.now }
    ensures from { at + 2 ≤ result }
    ensures to { result ≤ length text.now }
    ensures behind { result < length text.now → at + 4 ≤ result }
    ensures closed { result < length text.now → (slice_index text.now (result - 2) ≡ 42) × (slice_index text.now (result - 1) ≡ 47) }
    ensures first { (k : ℕ) → at + 2 ≤ k → k + 2 < result → slice_index text.now k ≡ 42 → slice_index text.now (k + 1) ≢ 47 }
{
    for star in at + 2..text.len() {
        if text[star] == b'*' && byte_at(text, star + 1) == b'/' {
            return star + 2;
        }
    }
    text.len()
}

/// Where a run of white space ends.
pub(crate) fn blanks_end(text: &[u8], at: usize) -> usize
    requires within { at ≤ length text.now }
    ensures from { at ≤ result }
    ensures to { result ≤ length text.now }
    ensures opened { IsOpened text.now at → IsOpened text.now result }
{
    for end in at..text.len() {
        if !is_blank(text[end]) {
            return end;
        }
    }
    text.len()
}

/// Where a run of white space and comments ends.
pub(crate) fn skip(text: &[u8], at: usize) -> usize
    requires within { at ≤ length text.now }
    ensures from { at ≤ result }
    ensures to { result ≤ length text.now }
{
    let mut end = blanks_end(text, at);
    while begins_comment(text, end) {
        let behind = comment_end(text, end);
        end = blanks_end(text, behind);
    }
    end
}
