// The modules of a folder: their names, which rise strictly, each with its text, which is within the limit.
ghost use Rattle.std.specs.Prelude.{◌≡◌, ◌≤◌, ◌+◌, [], List, ℕ, Some, OnOk, OnErr, length, cond};
ghost use Rattle.std.specs.Option.{option_copied};
ghost use Rattle.hmr_types.specs.ModName.{is_text};
ghost use Rattle.folders.specs.Files.{text_at};
ghost use Rattle.folder_watch.specs.Listings.{AreShort, Rises, text_bytes};

use hmr_types::{ModName, Sequence};
use std::alloc::{AllocError, Global};
use std::collections::BTreeMap;
use std::marker::Model;

/// The names of modules with their texts, which contracts see as the list of the pairs. The names rise
/// strictly by bytes, and a text has at most 131,072 bytes.
#[derive(Debug, Drop)]
pub struct Listing {
    files: BTreeMap<ModName, Sequence<u8>>,
}

impl Model for Listing {
    ghost use Rattle.std.specs.Prelude.{ℕ, List};
    ghost use Rattle.std.specs.BTreeMap.{IsOrdered};
    ghost use Rattle.std.specs.Cmp.Lexicographic.{slice_cmp};
    ghost use Rattle.std.specs.Ordering.{nat_cmp};
    ghost use Rattle.folder_watch.specs.Listings.{AreShort};

    ghost Value = { List (List ℕ × List ℕ) };

    ghost view = { λ l. l.files.entries };

    ghost invariant = { λ l. IsOrdered (slice_cmp nat_cmp) l.files × AreShort l.files.entries };
}

impl Listing {
    /// The listing of no module.
    pub fn new(alloc: Global) -> Listing
        ensures { result ≡ [] }
    {
        Listing {
            files: BTreeMap::new(alloc),
        }
    }

    /// How many modules it has.
    pub fn len(&self) -> usize
        ensures len { result ≡ length self.now }
        ensures rising { Rises self.now }
        ensures short { AreShort self.now }
    {
        self.files.len()
    }

    /// The text of a module, or None where the listing has no module of this name. It takes time in the
    /// logarithm of the names.
    pub fn text(&self, name: &ModName) -> Option<&[u8]>
        ensures { option_copied result ≡ text_at self.now name.now }
    {
        match self.files.get(name) {
            Some(text) => Some(text.as_slice()),
            None => None,
        }
    }

    /// Adds a module. In place of another text of the name the new one stands.
    pub(crate) fn add(&mut self, name: ModName, text: Vec<u8>) -> Result<(), AllocError>
        requires short { length text.items ≤ text_bytes }
        ensures added { OnOk result ((other : List ℕ) → text_at self.new other
            ≡ cond (is_text name other) (Some text.items) (text_at self.old other)) }
    {
        self.files.insert(name, Sequence::from_vec(text))?;
        Ok(())
    }

    /// The modules in order of their names.
    pub(crate) fn files(&self) -> &BTreeMap<ModName, Sequence<u8>>
        ensures { result.now.entries ≡ self.now }
    {
        &self.files
    }
}
