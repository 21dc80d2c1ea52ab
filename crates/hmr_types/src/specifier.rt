// What a specifier means. Its parts between slashes are taken from left to right over a list of
// segments: `.` changes nothing, `..` takes the last segment away, and a segment is added. A leading
// slash starts from no segments, `./` and `../` from those of the importing module without its last.
ghost use Rattle.std.specs.List.{list_all};
ghost use Rattle.std.specs.Prelude.{◌≡◌, IfOk, IsTrue, map};
ghost use Rattle.hmr_types.specs.ModName.{is_segment};
ghost use Rattle.hmr_types.specs.Specifier.{Gives, led_to, name_of, resolve, segments};
ghost use Rattle.hmr_types.specs.Specifier.{spelled, step, without_last};

use crate::ModName;
use crate::limits::NAME_BYTES;
use crate::mod_name::is_segment;
use std::alloc::{AllocError, AllocFailed, Global};

/// Why [`resolve`] refuses.
#[derive(Clone, Copy, Debug, PartialEq, Eq)]
pub enum SpecFault {
    /// The specifier begins with none of `/`, `./` and `../`.
    Bare,
    /// A `..` stands where no segment is left.
    Climbs,
    /// The specifier is empty, or no segment is left at its end.
    Empty,
    /// The name would have more than 255 bytes.
    TooLong,
    /// A part is empty, or has a byte that no segment has.
    BadSegment,
    /// There is no memory for the name.
    NoMemory,
}

impl From<AllocError> for SpecFault {
    ghost use Rattle.hmr_types.specs.declared.specifier.SpecFault.TheVariants.{NoMemory};

    ghost from_gives = { λ _ fault. fault ≡ NoMemory };

    fn from(_refused: AllocError) -> SpecFault {
        SpecFault::NoMemory
    }
}

impl<T: Drop> From<AllocFailed<T>> for SpecFault {
    ghost use Rattle.hmr_types.specs.declared.specifier.SpecFault.TheVariants.{NoMemory};

    ghost from_gives = { λ _ fault. fault ≡ NoMemory };

    fn from(_refused: AllocFailed<T>) -> SpecFault {
        SpecFault::NoMemory
    }
}

/// The module that `spec` means to the module `base`. The refusals come in the order of the
/// specifier's parts: [`SpecFault::Bare`] and an empty specifier first, then the first part that
/// climbs too far or is no segment, then that there is no segment, then the length of the name.
/// Memory is asked for on the way. It takes time and memory in proportion to `base` and `spec`.
pub fn resolve(alloc: Global, base: &ModName, spec: &[u8]) -> Result<ModName, SpecFault>
    ensures { Gives (λ name. name) result (resolve base.now spec.now) }
{
    match spec {
        [] => Err(SpecFault::Empty),
        [b'/', rest @ ..] => walked(alloc, Vec::new(alloc), rest),
        [b'.', b'/', ..] | [b'.', b'.', b'/', ..] => {
            walked(alloc, folder_of(alloc, base)?, spec)
        }
        _ => Err(SpecFault::Bare),
    }
}

/// The segments of a name without its last.
fn folder_of(alloc: Global, base: &ModName) -> Result<Vec<&[u8]>, AllocError>
    ensures folder { IfOk result (λ v. map (λ s. s.now) v.items ≡ without_last (segments base.now)) }
    ensures segments { IfOk result (λ v. IsTrue (list_all is_segment (map (λ s. s.now) v.items))) }
{
    let mut segments = segments_of(alloc, base)?;
    segments.pop();
    Ok(segments)
}

/// The segments of a name.
fn segments_of(alloc: Global, name: &ModName) -> Result<Vec<&[u8]>, AllocError>
    ensures value { IfOk result (λ v. map (λ s. s.now) v.items ≡ segments name.now) }
    ensures segments { IsTrue (list_all is_segment (segments name.now)) }
{
    let rest = &name.as_bytes()[1..];
    rest.split(|b| *b == b'/').collect(alloc)
}

/// The name that the parts of `rest` lead to from these segments.
fn walked<'a>(alloc: Global, from: Vec<&'a [u8]>, rest: &'a [u8]) -> Result<ModName, SpecFault>
    requires { IsTrue (list_all is_segment (map (λ s. s.now) from.items)) }
    ensures { Gives (λ name. name) result (led_to (map (λ s. s.now) from.entry.items) rest.now) }
{
    let mut segments = from;
    for part in rest.split(|b| *b == b'/') {
        take_part(&mut segments, part)?;
    }
    named(alloc, &segments)
}

/// One part of a specifier.
fn take_part<'a>(segments: &mut Vec<&'a [u8]>, part: &'a [u8]) -> Result<(), SpecFault>
    ensures { Gives
        (λ _. map (λ s. s.now) segments.new.items)
        result (step (map (λ s. s.now) segments.old.items) part.now) }
{
    match part {
        [b'.'] => Ok(()),
        [b'.', b'.'] => match segments.pop() {
            Some(_) => Ok(()),
            None => Err(SpecFault::Climbs),
        },
        _ if is_segment(part) => Ok(segments.push(part)?),
        _ => Err(SpecFault::BadSegment),
    }
}

/// The name of these segments.
fn named(alloc: Global, segments: &[&[u8]]) -> Result<ModName, SpecFault>
    requires { IsTrue (list_all is_segment (map (λ s. s.now) segments.now)) }
    ensures { Gives (λ name. name) result (name_of (map (λ s. s.now) segments.now)) }
{
    let text = spelled(alloc, segments)?;
    if text.is_empty() {
        return Err(SpecFault::Empty);
    }
    if text.len() > NAME_BYTES {
        return Err(SpecFault::TooLong);
    }
    Ok(ModName::from_name(text))
}

/// A slash before each segment.
fn spelled(alloc: Global, segments: &[&[u8]]) -> Result<Vec<u8>, AllocError>
    ensures { IfOk result (λ text. text.items ≡ spelled (map (λ s. s.now) segments.now)) }
{
    let mut text = Vec::new(alloc);
    for segment in segments {
        text.push(b'/')?;
        text.extend_from_slice(segment)?;
    }
    Ok(text)
}
