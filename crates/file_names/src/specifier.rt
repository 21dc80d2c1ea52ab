// Which module of a folder a specifier of JavaScript leads to. Names are encoded throughout, so the parts of
// a path are those of a name.
ghost use Rattle.std.specs.List.{list_all};
ghost use Rattle.std.specs.Prelude.{◌≡◌, IfOk, OnOk, map};
ghost use Rattle.hmr_types.specs.ModName.{parts};
ghost use Rattle.hmr_types.specs.Specifier.{segments, spelled, without_last};
ghost use Rattle.percent_encoding.specs.Percent.{percent_decode};
ghost use Rattle.file_names.specs.Specifiers.{is_folder, is_path, is_path_byte, is_relative, module_at, named};
ghost use Rattle.file_names.specs.Specifiers.{resolved, step, walk};

use crate::file_name::encoded;
use hmr_types::{ModName, NameFault};
use percent_encoding::percent_decode;
use std::alloc::{AllocError, Global};

/// The module of the folder that a specifier leads to from the module `base`, read as browsers read URLs.
///
/// A specifier that begins with `/`, `./` or `../` is a path: its escapes `%20` are bytes, `.` and `..` are the
/// folder and the one above, and above the top there is the top again. It leads to no module of the folder
/// where it begins otherwise, so that it is a bare one or a URL of its own, or with `//`; where it has a query
/// or a fragment, a backslash or a control character, or a space at its end, which URLs leave out; and where
/// what it leads to has no name of a module, as a folder or a path that is too long.
///
/// It takes time and memory linear in `base` and the specifier.
#[tactic(auto, unfolding(crate::specs::Specifiers::resolved))]
pub fn resolve_specifier(
    alloc: Global,
    base: &ModName,
    specifier: &[u8],
) -> Result<Option<ModName>, AllocError>
    ensures { IfOk result (λ found. found ≡ resolved base.now specifier.now) }
{
    if !is_path(specifier) {
        return Ok(None);
    }
    let path = percent_decoded(alloc, specifier)?;
    if is_folder(&path) {
        return Ok(None);
    }
    let text = encoded(alloc, &path)?;
    module_at(alloc, base, &text)
}

/// Whether a specifier is a path and nothing else.
fn is_path(specifier: &[u8]) -> bool
    ensures { result ≡ is_path specifier.now }
{
    is_relative(specifier) && has_path_bytes(specifier) && !specifier.ends_with(b" ")
}

/// Whether a specifier is relative, so neither a bare one nor a URL of its own.
fn is_relative(specifier: &[u8]) -> bool
    ensures { result ≡ is_relative specifier.now }
{
    let is_absolute = specifier.starts_with(b"/") && !specifier.starts_with(b"//");
    is_absolute || specifier.starts_with(b"./") || specifier.starts_with(b"../")
}

fn has_path_bytes(specifier: &[u8]) -> bool
    ensures { result ≡ list_all is_path_byte specifier.now }
{
    specifier.iter().all(|b| is_path_byte(*b))
}

fn is_path_byte(byte: u8) -> bool
    ensures { result ≡ is_path_byte byte }
{
    byte >= b' ' && byte != b'#' && byte != b'?' && byte != b'\\'
}

/// Whether a path names a folder.
fn is_folder(path: &[u8]) -> bool
    ensures { result ≡ is_folder path.now }
{
    path.ends_with(b"/.") || path.ends_with(b"/..")
}

fn percent_decoded(alloc: Global, text: &[u8]) -> Result<Vec<u8>, AllocError>
    ensures { IfOk result (λ bytes. bytes.items ≡ percent_decode text.now) }
{
    let mut bytes = Vec::new(alloc);
    percent_decode(text).append_to(&mut bytes)?;
    Ok(bytes)
}

/// The module at a path, to the module `base`.
fn module_at(alloc: Global, base: &ModName, text: &[u8]) -> Result<Option<ModName>, AllocError>
    ensures { IfOk result (λ found. found ≡ module_at base.now text.now) }
{
    if text.starts_with(b"/") {
        let segments = walked(Vec::new(alloc), &text[1..])?;
        return named(alloc, &segments);
    }
    let segments = walked(folder_of(alloc, base)?, text)?;
    named(alloc, &segments)
}

/// The name that these segments spell, where they spell one.
fn named(alloc: Global, segments: &[&[u8]]) -> Result<Option<ModName>, AllocError>
    ensures { IfOk result (λ found. found ≡ named (spelled (map (λ s. s.now) segments.now))) }
{
    let text = spelled(alloc, segments)?;
    name_of(alloc, &text)
}

/// The name of these bytes, where they are one.
fn name_of(alloc: Global, text: &[u8]) -> Result<Option<ModName>, AllocError>
    ensures { IfOk result (λ found. found ≡ named text.now) }
{
    match ModName::read(alloc, text) {
        Ok(name) => Ok(Some(name)),
        Err(NameFault::NotAName) => Ok(None),
        Err(NameFault::NoMemory) => Err(AllocError),
    }
}

/// The segments of a name without its last.
fn folder_of(alloc: Global, base: &ModName) -> Result<Vec<&[u8]>, AllocError>
    ensures { IfOk result (λ v. map (λ s. s.now) v.items ≡ without_last (segments base.now)) }
{
    let mut segments = segments_of(alloc, base)?;
    segments.pop();
    Ok(segments)
}

/// The segments of a name.
fn segments_of(alloc: Global, name: &ModName) -> Result<Vec<&[u8]>, AllocError>
    ensures { IfOk result (λ v. map (λ s. s.now) v.items ≡ segments name.now) }
{
    let rest = &name.as_bytes()[1..];
    rest.split(|b| *b == b'/').collect(alloc)
}

/// Where the parts of `rest` lead from these segments.
fn walked<'a>(from: Vec<&'a [u8]>, rest: &'a [u8]) -> Result<Vec<&'a [u8]>, AllocError>
    ensures { IfOk result
        (λ v. map (λ s. s.now) v.items ≡ walk (map (λ s. s.now) from.entry.items) (parts rest.now)) }
{
    let mut segments = from;
    for part in rest.split(|b| *b == b'/') {
        take_part(&mut segments, part)?;
    }
    Ok(segments)
}

/// One part of a path.
fn take_part<'a>(segments: &mut Vec<&'a [u8]>, part: &'a [u8]) -> Result<(), AllocError>
    ensures { OnOk result
        (map (λ s. s.now) segments.new.items ≡ step (map (λ s. s.now) segments.old.items) part.now) }
{
    match part {
        [b'.'] => Ok(()),
        [b'.', b'.'] => {
            segments.pop();
            Ok(())
        }
        _ => Ok(segments.push(part)?),
    }
}

/// A slash before each segment.
fn spelled(alloc: Global, segments: &[&[u8]]) -> Result<Vec<u8>, AllocError>
    ensures { IfOk result (λ text. text.items ≡ spelled (map (λ s. s.now) segments.now)) }
{
    let mut text = Vec::new(alloc);
    for segment in segments {
        text.push(b'/')?;
        text.extend_from_slice(segment)?;
    }
    Ok(text)
}
