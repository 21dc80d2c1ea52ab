// What a look at a folder shows.
ghost use Rattle.std.specs.Prelude.{◌≡◌, ◌≤◌, None, Some, length, true};
ghost use Rattle.hmr_types.specs.ModName.{is_name, is_text};
ghost use Rattle.std.specs.Option.{ForSome, is_none};
ghost use Rattle.live_folder.specs.Texts.{IsShort};

use hmr_types::{ModName, Text};
use std::alloc::Global;

/// A module that has a new text, or that is gone.
#[derive(Drop)]
pub struct Change {
    name: ModName,
    text: Option<Vec<u8>>,
    ghost short: { ForSome text IsShort },
}

impl Change {
    /// A module with a new text of at most 64 MiB.
    pub fn saved(name: ModName, text: Vec<u8>) -> Change
        requires short { IsShort text }
        ensures { (result.name ≡ name) × (result.text ≡ Some text) }
    {
        Change {
            name,
            text: Some(text),
        }
    }

    /// A module that is gone.
    pub fn removed(name: ModName) -> Change
        ensures { (result.name ≡ name) × (result.text ≡ None) }
    {
        Change { name, text: None }
    }

    /// Whether it is of this module.
    pub fn is_of(&self, name: &ModName) -> bool
        ensures { result ≡ is_text self.now.name name.now }
    {
        self.name == *name
    }

    /// Whether the module is gone.
    pub fn is_removal(&self) -> bool
        ensures { result ≡ is_none self.now.text }
    {
        self.text.is_none()
    }

    /// The name, and the new text; None where the module is gone.
    pub fn into_parts(self) -> (ModName, Option<Vec<u8>>)
        ensures name { result.0 ≡ self.name }
        ensures text { result.1 ≡ self.text }
        ensures is_name { is_name result.0 ≡ true }
        ensures short { ForSome result.1 IsShort }
    {
        let Change { name, text } = self;
        let _ = name.as_bytes();
        (name, text)
    }
}

/// Why a file was passed over.
#[derive(Clone, Copy, Debug, PartialEq, Eq)]
pub enum SkipCause {
    /// It has more than 64 MiB.
    TextTooLong,
    /// No module can have its name.
    BadName,
    /// It couldn't be read.
    Unreadable,
    /// It is a link to a file outside of the folder.
    Outside,
}

/// A file that was passed over: its path from the folder on, and why.
#[derive(Debug, Drop)]
pub struct PassedOver {
    pub path: Text,
    pub cause: SkipCause,
}

/// What changed since the look before.
#[derive(Drop)]
pub struct Look {
    /// The modules that have a new text or are gone.
    pub changes: Vec<Change>,
    /// The files that changed and were passed over. What they were before stays.
    pub passed: Vec<PassedOver>,
    /// Whether the folder couldn't be looked at. Nothing is then known to have changed.
    pub away: bool,
}

impl Look {
    /// A look that shows no change.
    pub fn of_nothing(alloc: Global, away: bool) -> Look {
        Look {
            changes: Vec::new(alloc),
            passed: Vec::new(alloc),
            away,
        }
    }
}
