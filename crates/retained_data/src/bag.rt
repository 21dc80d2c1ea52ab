// A bag: the keys that a module's `import.meta.hot.data` has, each with its value. A value at a key
// that is there takes its place; a new key stands last.
ghost use Rattle.std.specs.Prelude.{◌≡◌, ◌↔◌, [], true, false, OnOk, OnErr, IsErrOf, IfOk};
ghost use Rattle.std.specs.Option.{option_map};
ghost use Rattle.module_semantics.specs.Entries.{entry_at, with_entry, has_room, is_bag};

use crate::entries::{entry_at, put_entry};
use hmr_types::limits::BAG_KEYS;
use hmr_types::{Name, Value};
use std::alloc::Global;
use std::marker::Model;

/// The retained data of one name, which contracts see as its keys with their values, in the order in
/// which the keys came.
#[derive(Debug, Drop)]
pub struct Bag {
    entries: Vec<(Name, Value)>,
}

impl Model for Bag {
    ghost use Rattle.std.specs.Prelude.{◌≡◌, true};
    ghost use Rattle.module_semantics.specs.Entries.{is_bag, Kept};

    ghost Value = { Kept };

    ghost view = { λ b. b.entries.items };

    ghost invariant = { λ b. is_bag b.entries.items ≡ true };
}

/// Why a bag refused a value.
#[derive(Clone, Copy, Debug, PartialEq, Eq)]
pub enum BagFault {
    /// The key is new, and the bag holds 64.
    Full,
    /// Memory ran out.
    NoMemory,
}

impl Bag {
    /// The empty bag.
    pub fn new(alloc: Global) -> Self
        ensures { result ≡ [] }
    {
        Bag {
            entries: Vec::new(alloc),
        }
    }

    /// The entries, in the order in which their keys came.
    pub fn as_slice(&self) -> &[(Name, Value)]
        ensures value { result.now ≡ self.now }
        ensures bag { is_bag self.now ≡ true }
    {
        &self.entries
    }

    /// The value at a key, None where the bag lacks it.
    pub fn get(&self, key: &Name) -> Option<&Value>
        ensures { option_map (λ v. v.now) result ≡ entry_at key.now self.now }
    {
        entry_at(&self.entries, key)
    }

    /// Keeps a value at a key: a key that is there keeps its place, a new one stands last. Full exactly
    /// where the key is new and 64 are held. A bag that refused is unchanged.
    pub fn set(&mut self, key: Name, value: Value) -> Result<(), BagFault>
        ensures ok { OnOk result (self.new ≡ with_entry key value self.old) }
        ensures err { OnErr result (self.new ≡ self.old) }
        ensures full { IsErrOf result BagFault.Full ↔ (has_room key self.old ≡ false) }
    {
        if !self.has_room(&key) {
            return Err(BagFault::Full);
        }
        match put_entry(&mut self.entries, key, value) {
            Ok(()) => Ok(()),
            Err(_) => Err(BagFault::NoMemory),
        }
    }

    /// Whether a value would be taken at this key: the bag has it, or holds fewer than 64.
    pub fn has_room(&self, key: &Name) -> bool
        ensures { result ≡ has_room key.now self.now }
    {
        self.entries.len() < BAG_KEYS || entry_at(&self.entries, key).is_some()
    }
}
