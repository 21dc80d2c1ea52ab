// Which paths are served, and which file stands at one.
ghost use Rattle.std.specs.Prelude.{◌≡◌, ◌++◌, IfOk, option_map, true};
ghost use Rattle.percent_encoding.specs.Percent.{percent_decode};
ghost use Rattle.live_answers.specs.Paths.{are_open, ends_with_slash, file_at, hides_slash, is_closed};
ghost use Rattle.live_answers.specs.Paths.{is_open_path, open_path};

use crate::writing::{begins, behind};
use percent_encoding::percent_decode;
use std::alloc::{AllocError, Global};

/// The path at a target, of no query, with its escapes read, and with the page of the folder where it ends
/// in a slash. None where it isn't served: it is no slash and parts, or one is empty or begins with a dot,
/// or an escape stands for a slash.
pub(crate) fn open_path(alloc: Global, target: &[u8]) -> Result<Option<Vec<u8>>, AllocError>
    ensures { IfOk result (λ path. option_map (λ p. p.items) path ≡ open_path target.now) }
{
    let path = decoded(alloc, target)?;
    if hides_slash(target) || !is_open_path(&path) {
        return Ok(None);
    }
    Ok(Some(file_at(path)?))
}

// Whether an escape stands for a slash.
#[tactic(auto, using(crate::proofs::Steps::slash_there))]
fn hides_slash(target: &[u8]) -> bool
    ensures { result ≡ hides_slash target.now }
{
    for at in 0..target.len() {
        let here = behind(target, at);
        if begins(here, b"%2f") {
            return true;
        }
    }
    false
}

// The target with its escapes read.
fn decoded(alloc: Global, target: &[u8]) -> Result<Vec<u8>, AllocError>
    ensures { IfOk result (λ path. path.items ≡ percent_decode target.now) }
{
    let mut path = Vec::new(alloc);
    percent_decode(target).append_to(&mut path)?;
    Ok(path)
}

// Whether the path is a slash and parts, none of which is hidden.
fn is_open_path(path: &[u8]) -> bool
    ensures { result ≡ is_open_path path.now }
{
    match path {
        [] => false,
        [first, rest @ ..] => *first == b'/' && are_open(rest),
    }
}

// Whether no part is empty, begins with a dot or has a byte 0.
fn are_open(path: &[u8]) -> bool
    ensures { result ≡ are_open true path.now }
{
    let mut starts = true;
    for b in path {
        if is_closed(starts, *b) {
            return false;
        }
        starts = *b == b'/';
    }
    true
}

// Whether no part may have this byte there.
fn is_closed(starts: bool, b: u8) -> bool
    ensures { result ≡ is_closed starts b }
{
    starts && (b == b'.' || b == b'/') || b == 0
}

fn ends_with_slash(path: &[u8]) -> bool
    ensures { result ≡ ends_with_slash path.now }
{
    match path {
        [] => false,
        [.., last] => *last == b'/',
    }
}

// The file of a path: at a slash the page of the folder.
fn file_at(path: Vec<u8>) -> Result<Vec<u8>, AllocError>
    ensures { IfOk result (λ file. file.items ≡ file_at path.items) }
{
    let mut file = path;
    if ends_with_slash(&file) {
        file.extend_from_slice(b"index.html")?;
    }
    Ok(file)
}
