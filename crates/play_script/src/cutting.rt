// The first line of what is left of a text, and the words of a line.
ghost use Rattle.std.specs.Prelude.{◌≡◌, ◌<◌, [], ◌∷◌, length, map, IfOk, IfSome, MatchOption};
ghost use Rattle.play_script.specs.Script.{cut_line, lines_from, words};

use std::alloc::{AllocError, Global};

/// A line, and what stands below it.
#[derive(Clone, Copy)]
pub struct FirstLine<'a> {
    /// The line without its LF.
    pub bytes: &'a [u8],
    /// Whether an LF ends it.
    pub ended: bool,
    /// What stands below it.
    pub below: &'a [u8],
}

/// The first line of these bytes, where there are any. The time is linear in the line.
pub fn first_line(text: &[u8]) -> Option<FirstLine<'_>>
    ensures line { MatchOption result (lines_from [] text.now ≡ [])
        (λ first. lines_from [] text.now
        ≡ record { bytes = first.bytes.now; ended = first.ended } ∷ lines_from [] first.below.now) }
    ensures shorter { IfSome result (λ first. length first.below.now < length text.now) }
{
    for at in 0..text.len() {
        if text[at] == b'\n' {
            return Some(FirstLine {
                bytes: &text[..at],
                ended: true,
                below: &text[at + 1..],
            });
        }
    }
    last_line(text)
}

/// The line that no LF ends, where there is one.
fn last_line(text: &[u8]) -> Option<FirstLine<'_>>
    ensures line { MatchOption result (cut_line text.now ≡ [])
        (λ first. cut_line text.now
        ≡ record { bytes = first.bytes.now; ended = first.ended } ∷ lines_from [] first.below.now) }
    ensures shorter { IfSome result (λ first. length first.below.now < length text.now) }
{
    if text.is_empty() {
        return None;
    }
    Some(FirstLine {
        bytes: text,
        ended: false,
        below: &text[text.len()..],
    })
}

/// The words of a line: what stands between its spaces. The time and the memory are linear in the line.
pub fn words_of(alloc: Global, line: &[u8]) -> Result<Vec<&[u8]>, AllocError>
    ensures { IfOk result (λ v. map (λ w. w.now) v.items ≡ words line.now) }
{
    line.split(|b| *b == b' ').collect(alloc)
}
