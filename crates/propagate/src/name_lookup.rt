// A list of names with its set, for lists in which names are looked up again and again.
ghost use Rattle.std.specs.Prelude.{◌≡◌, IfOk};
ghost use Rattle.core_model.specs.Names.{has};

use hmr_types::ModName;
use module_graph::NameSet;
use std::alloc::{AllocError, Global};
use std::marker::Model;

/// A list of names, in which a name is looked up in the time of the logarithm of their number. Contracts
/// see the list.
#[derive(Drop)]
pub(crate) struct NameLookup<'a> {
    names: &'a [ModName],
    set: NameSet,
}

impl<'a> Model for NameLookup<'a> {
    ghost use Rattle.std.specs.Prelude.{List};
    ghost use Rattle.core_model.specs.Names.{Name};
    ghost use Rattle.propagate.specs.NameLookup.{IsSetOf};

    ghost Value = { List Name };

    ghost view = { λ l. l.names.now };

    ghost invariant = { λ l. IsSetOf l.names.now l.set };
}

impl<'a> NameLookup<'a> {
    /// The list with its set, which is made in the time of a sort.
    pub(crate) fn of(alloc: Global, names: &'a [ModName]) -> Result<NameLookup<'a>, AllocError>
        ensures { IfOk result (λ lookup. lookup ≡ names.now) }
    {
        let set = NameSet::of(alloc, names)?;
        Ok(NameLookup { names, set })
    }

    /// Whether the list has the name.
    pub(crate) fn has(&self, name: &ModName) -> bool
        ensures { result ≡ has self.now name.now }
    {
        self.set.has(name)
    }
}
