// Where the first head of some bytes ends. Bytes come in pieces of any length, so the search goes on where
// it stopped, but for three bytes: an empty line may have begun in the last of those that were searched.
ghost use Rattle.std.specs.Prelude.{◌≤◌, length};
ghost use Rattle.http_heads.specs.Cutting.{Cuts, NoEndWithin};

use memchr::memmem;

/// The most bytes that a request head has, with the empty line at its end.
pub const HEAD_BYTES: usize = 8192;

/// The end of a line, and an empty line.
const BLANK: &[u8] = b"\r\n\r\n";

/// Where the first head of some bytes ends.
#[derive(Clone, Copy, Debug, PartialEq, Eq)]
pub enum Cut {
    /// The first head has so many bytes, with the empty line at its end: at most [`HEAD_BYTES`].
    Head(usize),
    /// There are [`HEAD_BYTES`] bytes or more, and none of the first so many ends an empty line.
    TooLong,
    /// There are fewer bytes, and none of them ends an empty line.
    Partial,
}

/// Where the first head of the bytes ends: behind the first CR LF CR LF. The caller knows that none ends
/// within the first `searched` bytes, as from an earlier call that answered [`Cut::Partial`] with so many.
/// It takes time linear in the bytes that weren't searched.
pub fn find_head(bytes: &[u8], searched: usize) -> Cut
    requires searched { NoEndWithin bytes.now searched }
    ensures { Cuts bytes.now result }
{
    let limit = bytes.len().min(HEAD_BYTES);
    let window = &bytes[..limit];
    let from = searched.saturating_sub(3).min(limit);
    match memmem::find(&window[from..], BLANK) {
        Some(at) => Cut::Head(from + at + BLANK.len()),
        None if limit == HEAD_BYTES => Cut::TooLong,
        None => Cut::Partial,
    }
}
