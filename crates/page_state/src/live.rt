// The numbers of live instances, by name. A name has at most one.
ghost use Rattle.std.specs.Prelude.{◌≡◌, [], Some, None, OnOk, OnErr};
ghost use Rattle.page_state.specs.Live.{number_of, HasNumber, LosesNumber};

use hmr_types::ModName;
use std::alloc::{AllocError, Global};
use std::collections::BTreeMap;
use std::marker::Model;

/// The numbers of live instances. Contracts see the names with their numbers, and ask for the number of one
/// name.
#[derive(Drop)]
pub struct LiveNumbers {
    numbers: BTreeMap<ModName, u32>,
}

impl Model for LiveNumbers {
    ghost use Rattle.page_state.specs.Live.{Numbers};

    ghost Value = { Numbers };

    ghost view = { λ l. l.numbers.entries };
}

impl LiveNumbers {
    /// No numbers.
    pub fn new(alloc: Global) -> Self
        ensures { result ≡ [] }
    {
        LiveNumbers {
            numbers: BTreeMap::new(alloc),
        }
    }

    /// The number of a name, None where it has none. It takes time in proportion to the logarithm of the
    /// number of names.
    pub fn get(&self, name: &ModName) -> Option<u32>
        ensures { result ≡ number_of self.now name.now }
    {
        self.numbers.get(name).copied()
    }

    /// Gives a name a number, in place of an earlier one. It fails only where memory runs out; the numbers
    /// are then as before. It takes time as `get` does.
    pub fn put(&mut self, name: ModName, number: u32) -> Result<(), AllocError>
        ensures ok { OnOk result (HasNumber name (Some number) self.old self.new) }
        ensures err { OnErr result (self.new ≡ self.old) }
    {
        self.numbers.insert(name, number)?;
        Ok(())
    }

    /// Leaves a name without a number. It takes time as `get` does.
    pub fn remove(&mut self, name: &ModName)
        ensures { HasNumber name.now None self.old self.new }
    {
        self.numbers.remove(name);
    }

    /// Leaves a name without a number where it has this one. It takes time as `get` does.
    pub fn end(&mut self, name: &ModName, number: usize)
        ensures { LosesNumber name.now number self.old self.new }
    {
        if let Some(live) = self.get(name) {
            if live as usize == number {
                self.remove(name);
            }
        }
    }
}
