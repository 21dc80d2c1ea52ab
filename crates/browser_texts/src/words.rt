// Words of a text with others in their place.
ghost use Rattle.std.specs.Prelude.{◌≡◌, ◌≤◌, ◌+◌, ◌++◌, OnOk, length, true};
ghost use Rattle.browser_texts.specs.Words.{first_visible, is_blank, stands_at, word_splices};

use hmr_types::Sequence;
use std::alloc::{AllocError, Global};
use text_splices::Splice;

/// Puts another text in the place of a word, where the word stands at that place.
pub(crate) fn put_word(
    alloc: Global,
    splices: &mut Vec<Splice>,
    text: &[u8],
    at: usize,
    word: &[u8],
    by: &[u8],
) -> Result<(), AllocError>
    ensures { OnOk result (splices.new.items ≡ splices.old.items ++ word_splices text.now at word.now by.now) }
{
    if stands_at(text, at, word) {
        let end = at + word.len();
        let by = Sequence::from_vec(Vec::from_slice(alloc, by)?);
        splices.push(Splice { start: at, end, by })?;
    }
    Ok(())
}

/// Whether a word stands at a place of a text.
fn stands_at(text: &[u8], at: usize, word: &[u8]) -> bool
    ensures yes { result ≡ stands_at text.now at word.now }
    ensures within { result ≡ true → at + length word.now ≤ length text.now }
{
    at <= text.len() && text[at..].starts_with(word)
}

/// The first byte that is no blank; 0 where there is none.
pub(crate) fn first_visible(text: &[u8]) -> u8
    ensures { result ≡ first_visible text.now }
{
    for i in 0..text.len() {
        if !is_blank(text[i]) {
            return text[i];
        }
    }
    0
}

fn is_blank(byte: u8) -> bool
    ensures { result ≡ is_blank byte }
{
    matches!(byte, b' ' | b'\t' | b'\n' | b'\r')
}
