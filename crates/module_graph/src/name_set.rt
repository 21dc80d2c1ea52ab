// Sets of names, in which a name is looked up in the time of the logarithm of their number.
ghost use Rattle.std.specs.Prelude.{◌≡◌, ◌<◌, ◌+◌, ◌^◌, ◌||◌, [], length, not, if◌then◌else◌};
ghost use Rattle.std.specs.Prelude.{IfOk, OnErr, OnOk};
ghost use Rattle.core_model.specs.Names.{Name, has, same_name};

use crate::reverse_index::names_in;
use hmr_types::ModName;
use std::alloc::{AllocError, Global};
use std::collections::BTreeSet;
use std::marker::Model;

/// A set of names. Contracts see a list of them, and ask whether it has a name.
#[derive(Drop)]
pub struct NameSet {
    names: BTreeSet<ModName>,
}

impl Model for NameSet {
    ghost use Rattle.std.specs.Prelude.{List};
    ghost use Rattle.core_model.specs.Names.{Name};

    ghost Value = { List Name };

    ghost view = { λ s. s.names.keys };
}

impl NameSet {
    /// The empty set.
    pub fn new(alloc: Global) -> NameSet
        ensures { result ≡ [] }
    {
        NameSet {
            names: BTreeSet::new(alloc),
        }
    }

    /// The set of the names of a list.
    pub fn of(alloc: Global, names: &[ModName]) -> Result<NameSet, AllocError>
        ensures { (n : Name) → IfOk result (λ set. has set n ≡ has names.now n) }
    {
        let mut set = NameSet::new(alloc);
        for name in names {
            set.add(name.clone()?)?;
        }
        Ok(set)
    }

    /// Whether the set has the name.
    pub fn has(&self, name: &ModName) -> bool
        ensures { result ≡ has self.now name.now }
    {
        self.names.contains(name)
    }

    /// The names of the set, rising by bytes. It takes time in proportion to their number.
    pub fn names(&self, alloc: Global) -> Result<Vec<ModName>, AllocError>
        ensures { IfOk result (λ names. names.items ≡ self.now) }
    {
        let names = names_in(alloc, &self.names)?;
        Ok(names)
    }

    /// Adds a name, and tells whether it is new. A refusal changes nothing.
    pub fn add(&mut self, name: ModName) -> Result<bool, AllocError>
        ensures new { IfOk result (λ new. new ≡ not (has self.old name)) }
        ensures ok { (n : Name) → OnOk result (has self.new n ≡ (same_name name n || has self.old n)) }
        ensures more { IfOk result (λ new. length self.new ≡ length self.old + (if new then 1 else 0)) }
        ensures few { length self.old < 2 ^ 63 }
        ensures err { OnErr result (self.new ≡ self.old) }
    {
        let _count = self.names.len();
        let new = self.names.insert(name)?;
        Ok(new)
    }
}
