// Names of modules: a slash, and segments with a slash between each two. A segment has one or more of
// the bytes `A-Z a-z 0-9 _ . -` and isn't `.` or `..`; a name has at most 255 bytes.
ghost use Rattle.std.specs.List.{list_all};
ghost use Rattle.std.specs.Prelude.{◌≡◌, ◌↔◌, IfOk, IsErrOf, Some, false, true};
ghost use Rattle.hmr_types.specs.ModName.{is_name, is_segment, is_segment_byte, parts};

use crate::Text;
use crate::limits::NAME_BYTES;
use std::alloc::{AllocError, Global};
use std::fmt::{self, Display, Formatter, Write};
use std::marker::Model;

/// The name of a module, which contracts see as its bytes. Names are equal where their bytes are,
/// and their order is that of their bytes.
#[derive(Clone, Debug, Drop, Eq, Hash, Ord, PartialEq, PartialOrd)]
pub struct ModName {
    text: Text,
}

impl Model for ModName {
    ghost use Rattle.std.specs.Prelude.{◌≡◌, ℕ, List, true};
    ghost use Rattle.hmr_types.specs.ModName.{is_name};

    ghost Value = { List ℕ };

    ghost view = { λ n. n.text };

    ghost invariant = { λ n. is_name n.text ≡ true };

    ghost inverse = { λ bytes. record { text = bytes } };
}

/// Why [`ModName::read`] refuses.
#[derive(Clone, Copy, Debug, PartialEq, Eq)]
pub enum NameFault {
    /// The bytes are no name of a module.
    NotAName,
    /// There is no memory for the name.
    NoMemory,
}

impl From<AllocError> for NameFault {
    ghost use Rattle.hmr_types.specs.declared.mod_name.NameFault.TheVariants.{NoMemory};

    ghost from_gives = { λ _ fault. fault ≡ NoMemory };

    fn from(_refused: AllocError) -> NameFault {
        NameFault::NoMemory
    }
}

/// Whether bytes are the name of a module. It takes time in proportion to the bytes.
pub fn is_name(text: &[u8]) -> bool
    ensures { result ≡ is_name text.now }
{
    match text {
        [b'/', rest @ ..] => rest.len() < NAME_BYTES && are_segments(rest),
        _ => false,
    }
}

fn are_segments(text: &[u8]) -> bool
    ensures { result ≡ list_all is_segment (parts text.now) }
{
    text.split(|b| *b == b'/').all(is_segment)
}

/// Whether bytes are a segment of a name.
pub(crate) fn is_segment(part: &[u8]) -> bool
    ensures { result ≡ is_segment part.now }
{
    !matches!(part, [] | [b'.'] | [b'.', b'.']) && has_segment_bytes(part)
}

fn has_segment_bytes(part: &[u8]) -> bool
    ensures { result ≡ list_all is_segment_byte part.now }
{
    part.iter().all(|b| is_segment_byte(*b))
}

#[tactic(auto, unfolding(crate::specs::ModName::is_segment_byte))]
fn is_segment_byte(b: u8) -> bool
    ensures { result ≡ is_segment_byte b }
{
    matches!(b, b'A'..=b'Z' | b'a'..=b'z' | b'0'..=b'9' | b'_' | b'.' | b'-')
}

impl ModName {
    /// The name whose bytes are `text`. [`NameFault::NotAName`] comes exactly where [`is_name`]
    /// refuses them.
    pub fn read(alloc: Global, text: &[u8]) -> Result<ModName, NameFault>
        ensures ok { IfOk result (λ name. name ≡ text.now) }
        ensures not_a_name { IsErrOf result NameFault.NotAName ↔ (is_name text.now ≡ false) }
    {
        if !is_name(text) {
            return Err(NameFault::NotAName);
        }
        Ok(ModName::from_name(Vec::from_slice(alloc, text)?))
    }

    /// The name of these bytes.
    pub(crate) fn from_name(name: Vec<u8>) -> ModName
        requires { is_name name.items ≡ true }
        ensures { result ≡ name.items }
    {
        // A name is ASCII.
        let text = String::from_utf8(name).unwrap();
        ModName {
            text: Text::from_string(text),
        }
    }

    /// The characters of the name.
    pub fn as_str(&self) -> &str
        ensures value { result.now ≡ self.now }
        ensures name { is_name self.now ≡ true }
    {
        self.text.as_str()
    }

    /// The bytes of the name.
    pub fn as_bytes(&self) -> &[u8]
        ensures value { result.now ≡ self.now }
        ensures name { is_name self.now ≡ true }
    {
        self.text.as_str().as_bytes()
    }
}

impl Display for ModName {
    ghost output = { λ name. Some name };

    fn fmt<W: Write>(&self, f: &mut Formatter<W>) -> fmt::Result {
        self.text.fmt(f)
    }
}
