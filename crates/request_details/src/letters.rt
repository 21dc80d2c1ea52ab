// Texts are compared in any case of ASCII letters.
ghost use Rattle.std.specs.Prelude.{◌≡◌, drop, length, take};
ghost use Rattle.http_heads.specs.Head.{same_letters};
ghost use Rattle.request_details.specs.Details.{holds};

/// Whether the texts are equal but for the case of ASCII letters.
pub(crate) fn same_letters(a: &[u8], b: &[u8]) -> bool
    ensures { result ≡ same_letters a.now b.now }
{
    a.eq_ignore_ascii_case(b)
}

/// Whether the word stands somewhere in the text.
#[tactic(auto, using(crate::proofs::Words::word_there))]
pub(crate) fn holds(text: &[u8], word: &[u8]) -> bool
    ensures { result ≡ holds word.now text.now }
{
    for at in 0..text.len() {
        let here = behind(text, at);
        if begins(here, word) {
            return true;
        }
    }
    false
}

// Whether the text begins with this word.
fn begins(text: &[u8], word: &[u8]) -> bool
    ensures { result ≡ same_letters (take (length word.now) text.now) word.now }
{
    let (front, _) = text.split_at(text.len().min(word.len()));
    same_letters(front, word)
}

// The text without so many bytes at its front.
fn behind(text: &[u8], count: usize) -> &[u8]
    ensures { result.now ≡ drop count text.now }
{
    let (_, rest) = text.split_at(text.len().min(count));
    rest
}
