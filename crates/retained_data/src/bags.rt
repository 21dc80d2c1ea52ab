// The bags of the names of a page, by name. A name for which none is kept has the empty bag.
ghost use Rattle.std.specs.Prelude.{◌≡◌, [], OnOk, OnErr};
ghost use Rattle.retained_data.specs.Bags.{bag_of, bag_or_empty, HasBag};

use crate::bag::Bag;
use hmr_types::ModName;
use std::alloc::{AllocError, Global};
use std::collections::BTreeMap;
use std::marker::Model;

/// The bags of names. Contracts see the names with the bags that are kept for them, and mostly ask for
/// the bag of one name.
#[derive(Drop)]
pub struct Bags {
    bags: BTreeMap<ModName, Bag>,
}

impl Model for Bags {
    ghost use Rattle.retained_data.specs.Bags.{KeptBags};

    ghost Value = { KeptBags };

    ghost view = { λ b. b.bags.entries };
}

impl Bags {
    /// No bags.
    pub fn new(alloc: Global) -> Self
        ensures { result ≡ [] }
    {
        Bags {
            bags: BTreeMap::new(alloc),
        }
    }

    /// Hands out the bag of a name, the empty one where none is kept; then none is kept. It takes time
    /// in proportion to the logarithm of the number of names.
    pub fn take(&mut self, alloc: Global, name: &ModName) -> Bag
        ensures bag { result ≡ bag_of self.old name.now }
        ensures taken { HasBag name.now [] self.old self.new }
    {
        let kept = self.bags.remove(name);
        or_empty(alloc, kept)
    }

    /// Keeps a bag for a name, in place of an earlier one. It fails only where memory runs out; the bag
    /// given is then gone, and those that are kept are as before. It takes time in proportion to the
    /// logarithm of the number of names.
    pub fn put(&mut self, name: ModName, bag: Bag) -> Result<(), AllocError>
        ensures ok { OnOk result (HasBag name bag self.old self.new) }
        ensures err { OnErr result (self.new ≡ self.old) }
    {
        self.bags.insert(name, bag)?;
        Ok(())
    }

    /// Keeps no bag for a name. It takes time as `take` does.
    pub fn forget(&mut self, name: &ModName)
        ensures { HasBag name.now [] self.old self.new }
    {
        self.bags.remove(name);
    }
}

fn or_empty(alloc: Global, kept: Option<Bag>) -> Bag
    ensures { result ≡ bag_or_empty kept }
{
    match kept {
        Some(bag) => bag,
        None => Bag::new(alloc),
    }
}
