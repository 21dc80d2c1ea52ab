// Paths of files as names of modules. A byte that names don't have is written as `.-` and its two
// hexadecimal digits, and so is a `.` before a `-`, so that `.-` begins an escape and nothing else.
ghost use Rattle.std.specs.Prelude.{◌≡◌, ◌<◌, ◌++◌, All, IfOk, IfSome, IsErrOf, ℕ, List, [], ◌∷◌};
ghost use Rattle.std.specs.Prelude.{MatchOption, OnOk, false, length};
ghost use Rattle.hmr_types.specs.ModName.{is_name, is_segment_byte};
ghost use Rattle.file_names.specs.FileNames.{IsPlain, SplitsEscape, decoded, encoded, encoded_byte};
ghost use Rattle.file_names.specs.FileNames.{hex_digit, stands};

use hmr_types::{ModName, NameFault};
use std::alloc::{AllocError, Global};

/// The name of the module that stands for the file at a path, which begins with a slash and has one between
/// each two of its segments: `/lib/@scope/my file.js` is `/lib/.-40scope/my.-20file.js`.
///
/// [`NameFault::NotAName`] comes where that is no name of a module: the path doesn't begin with a slash, a
/// segment is empty, `.` or `..`, or the name has more than 255 bytes. It takes time and memory linear in the
/// path.
pub fn module_name(alloc: Global, path: &[u8]) -> Result<ModName, NameFault>
    ensures name { IfOk result (λ name. name ≡ encoded path.now) }
    ensures not_a_name { IsErrOf result NameFault.NotAName → is_name (encoded path.now) ≡ false }
{
    let text = encoded(alloc, path)?;
    ModName::read(alloc, &text)
}

/// The path of the file that a module stands for, for people and for URLs: each escape of the name as its
/// byte. It takes time and memory linear in the name.
pub fn file_path(alloc: Global, name: &ModName) -> Result<Vec<u8>, AllocError>
    ensures { IfOk result (λ path. path.items ≡ decoded name.now) }
{
    let mut path = Vec::new(alloc);
    let mut rest = name.as_bytes();
    while let Some((byte, behind)) = split_byte(rest) {
        path.push(byte)?;
        rest = behind;
    }
    Ok(path)
}

/// A name tells its file: what is encoded is decoded as it was, so no two paths have one name; and a path of
/// the bytes of names, without a `.` before a `-`, is its own name.
pub fn names_tell_their_files()
    ensures back { (path : List ℕ) → All (λ b. b < 256) path → decoded (encoded path) ≡ path }
    ensures apart { (path other : List ℕ) → All (λ b. b < 256) path → All (λ b. b < 256) other
        → encoded path ≡ encoded other → path ≡ other }
    ensures plain { (path : List ℕ) → IsPlain path → encoded path ≡ path }
{}

/// The bytes of the name of a path.
pub(crate) fn encoded(alloc: Global, path: &[u8]) -> Result<Vec<u8>, AllocError>
    ensures { IfOk result (λ text. text.items ≡ encoded path.now) }
{
    let mut text = Vec::new(alloc);
    for i in 0..path.len() {
        put_encoded(&mut text, path[i], &path[i + 1..])?;
    }
    Ok(text)
}

/// Puts a byte of a path, before the bytes that follow it.
fn put_encoded(text: &mut Vec<u8>, byte: u8, rest: &[u8]) -> Result<(), AllocError>
    ensures { OnOk result (text.new.items ≡ text.old.items ++ encoded_byte byte rest.now) }
{
    if stands(byte, rest) {
        text.extend_from_slice(&[byte])
    } else {
        text.extend_from_slice(&[b'.', b'-', hex_digit(byte / 16), hex_digit(byte % 16)])
    }
}

/// Whether a byte of a path stands for itself, before the bytes that follow it.
fn stands(byte: u8, rest: &[u8]) -> bool
    ensures { result ≡ stands byte rest.now }
{
    let begins_escape = byte == b'.' && rest.starts_with(b"-");
    byte == b'/' || is_segment_byte(byte) && !begins_escape
}

#[tactic(auto, unfolding(hmr_types::specs::ModName::is_segment_byte))]
fn is_segment_byte(b: u8) -> bool
    ensures { result ≡ is_segment_byte b }
{
    matches!(b, b'A'..=b'Z' | b'a'..=b'z' | b'0'..=b'9' | b'_' | b'.' | b'-')
}

/// The hexadecimal digit of a number below 16.
fn hex_digit(value: u8) -> u8
    requires { value < 16 }
    ensures { result ≡ hex_digit value }
{
    if value < 10 {
        b'0' + value
    } else {
        b'A' + (value - 10)
    }
}

/// The first byte of the path that the text stands for, and what follows it in the text.
fn split_byte(text: &[u8]) -> Option<(u8, &[u8])>
    ensures first { MatchOption result (text.now ≡ []) (λ x. decoded text.now ≡ x.0 ∷ decoded x.1.now) }
    ensures shorter { IfSome result (λ x. length x.1.now < length text.now) }
{
    if let Some(split) = split_escape(text) {
        return Some(split);
    }
    let (byte, rest) = text.split_first()?;
    Some((*byte, rest))
}

/// The byte of the escape at the front, and what follows it.
fn split_escape(text: &[u8]) -> Option<(u8, &[u8])>
    ensures splits { SplitsEscape text.now result }
    ensures shorter { IfSome result (λ x. length x.1.now < length text.now) }
{
    let [b'.', b'-', high, low, rest @ ..] = text else {
        return None;
    };
    let high = char::from(*high).to_digit(16)?;
    let low = char::from(*low).to_digit(16)?;
    Some((high as u8 * 16 + low as u8, rest))
}
