// Texts are compared, and put behind what was written before.
ghost use Rattle.std.specs.Prelude.{◌≡◌, ◌≤◌, ◌++◌, OnOk, codes, drop, length, take};
ghost use Rattle.http_heads.specs.Head.{same_letters};

use std::alloc::AllocError;

pub(crate) fn put(out: &mut Vec<u8>, text: &str) -> Result<(), AllocError>
    ensures { OnOk result (out.new.items ≡ out.old.items ++ text.now) }
{
    out.extend_from_slice(text.as_bytes())
}

/// Puts a word and what follows it, and the end of the line.
pub(crate) fn put_line(out: &mut Vec<u8>, word: &str, text: &str) -> Result<(), AllocError>
    ensures { OnOk result (out.new.items ≡ out.old.items ++ (word.now ++ (text.now ++ codes "\r\n"))) }
{
    put(out, word)?;
    put(out, text)?;
    put(out, "\r\n")
}

/// Whether the texts are equal but for the case of ASCII letters.
pub(crate) fn same_letters(a: &[u8], b: &[u8]) -> bool
    ensures { result ≡ same_letters a.now b.now }
{
    a.eq_ignore_ascii_case(b)
}

/// Whether the text begins with this word, in any case of ASCII letters.
pub(crate) fn begins(text: &[u8], word: &[u8]) -> bool
    ensures { result ≡ same_letters (take (length word.now) text.now) word.now }
{
    let (front, _) = text.split_at(text.len().min(word.len()));
    same_letters(front, word)
}

/// The text without so many bytes at its front.
pub(crate) fn behind(text: &[u8], count: usize) -> &[u8]
    ensures rest { result.now ≡ drop count text.now }
    ensures within { length result.now ≤ length text.now }
{
    let (_, rest) = text.split_at(text.len().min(count));
    rest
}
