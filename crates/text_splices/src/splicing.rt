// The text that splices make of a text.
ghost use Rattle.std.specs.Prelude.{◌≡◌, ◌≤◌, ◌++◌, IfOk, OnOk, length};
ghost use Rattle.text_splices.specs.Splices.{behind, fits, piece_of, splice_of};

use crate::splice::Splice;
use std::alloc::{AllocError, Global};

/// The text with the replacement of each splice in the place of its range, and else as it was.
///
/// The splices are to rise: each begins where the one before it ends, or later, and ends within the text. One
/// that doesn't is left out. It takes time and memory linear in the text and the replacements.
pub fn spliced(alloc: Global, text: &[u8], splices: &[Splice]) -> Result<Vec<u8>, AllocError>
    ensures { IfOk result (λ made. made.items ≡ splice_of text.now splices.now) }
{
    let mut made = Vec::new(alloc);
    let mut at = 0;
    for splice in splices {
        at = put_piece(&mut made, text, at, splice)?;
    }
    made.extend_from_slice(&text[at..])?;
    Ok(made)
}

/// Puts the text from a place up to a splice, and its replacement, where it fits: where the text goes on.
fn put_piece(
    made: &mut Vec<u8>,
    text: &[u8],
    at: usize,
    splice: &Splice,
) -> Result<usize, AllocError>
    requires { at ≤ length text.now }
    ensures piece { OnOk result (made.new.items ≡ made.old.items ++ piece_of text.now at splice.now) }
    ensures behind { IfOk result (λ end. end ≡ behind text.now at splice.now) }
    ensures within { IfOk result (λ end. end ≤ length text.now) }
{
    if !fits(text, at, splice) {
        return Ok(at);
    }
    made.extend_from_slice(&text[at..splice.start])?;
    made.extend_from_slice(splice.by.as_slice())?;
    Ok(splice.end)
}

/// Whether a splice begins at a place or behind it, and lies in the text.
fn fits(text: &[u8], at: usize, splice: &Splice) -> bool
    ensures { result ≡ fits text.now at splice.now }
{
    at <= splice.start && splice.start <= splice.end && splice.end <= text.len()
}
