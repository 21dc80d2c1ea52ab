// What the modules of a view list, turned round: who imports a name, and who accepts it. A module's lists
// change in both together: it first comes under all new names, which may be refused and is then
// undone, and then leaves the others, which can't fail.
ghost use Rattle.std.specs.Prelude.{◌≡◌, [], false, OnOk, OnErr, IfOk};
ghost use Rattle.core_model.specs.Names.{Name, has};
ghost use Rattle.module_graph.specs.ReverseIndex.{Leaves, Places, is_under};

use crate::reverse_index::ReverseIndex;
use hmr_types::ModName;
use std::alloc::{AllocError, Global};

/// What a module lists: its imports, and what it accepts by name.
#[derive(Clone, Copy)]
pub(crate) struct Lists<'a> {
    pub(crate) imports: &'a [ModName],
    pub(crate) accepted: &'a [ModName],
}

/// The importers and the acceptors of each name.
#[derive(Drop)]
pub(crate) struct Indexes {
    pub(crate) importers: ReverseIndex,
    pub(crate) acceptors: ReverseIndex,
}

impl Indexes {
    /// No module lists a name.
    pub(crate) fn new(alloc: Global) -> Indexes
        ensures importers { (n m : Name) → is_under result.importers.sets.entries n m ≡ false }
        ensures acceptors { (n m : Name) → is_under result.acceptors.sets.entries n m ≡ false }
    {
        Indexes {
            importers: ReverseIndex::new(alloc),
            acceptors: ReverseIndex::new(alloc),
        }
    }

    /// Equal indexes.
    pub(crate) fn copy(&self) -> Result<Indexes, AllocError>
        ensures importers { let was = is_under self.now.importers.sets.entries in
            IfOk result (λ copy. (n m : Name) → is_under copy.importers.sets.entries n m ≡ was n m) }
        ensures acceptors { let was = is_under self.now.acceptors.sets.entries in
            IfOk result (λ copy. (n m : Name) → is_under copy.acceptors.sets.entries n m ≡ was n m) }
    {
        let importers = self.importers.copy()?;
        let acceptors = self.acceptors.copy()?;
        Ok(Indexes {
            importers,
            acceptors,
        })
    }

    /// The module, whose lists are the old ones, has the new ones from now on. A refusal changes nothing.
    pub(crate) fn replace(
        &mut self,
        name: &ModName,
        old: Lists,
        new: Lists,
    ) -> Result<(), AllocError>
        requires imports { (n : Name) →
            is_under self.old.importers.sets.entries n name.now ≡ has old.imports.now n }
        requires accepted { (n : Name) →
            is_under self.old.acceptors.sets.entries n name.now ≡ has old.accepted.now n }
        ensures imports { let places = Places name.now (has new.entry.imports.now) in
            OnOk result (places self.old.importers.sets.entries self.new.importers.sets.entries) }
        ensures accepted { let places = Places name.now (has new.entry.accepted.now) in
            OnOk result (places self.old.acceptors.sets.entries self.new.acceptors.sets.entries) }
        ensures imports_err { let places = Places name.now (has old.entry.imports.now) in
            OnErr result (places self.old.importers.sets.entries self.new.importers.sets.entries) }
        ensures accepted_err { let places = Places name.now (has old.entry.accepted.now) in
            OnErr result (places self.old.acceptors.sets.entries self.new.acceptors.sets.entries) }
    {
        self.importers.enter(name, old.imports, new.imports)?;
        match self.acceptors.enter(name, old.accepted, new.accepted) {
            Ok(()) => {
                self.importers.leave(name, old.imports, new.imports);
                self.acceptors.leave(name, old.accepted, new.accepted);
                Ok(())
            }
            Err(refused) => {
                self.importers.leave(name, new.imports, old.imports);
                Err(refused)
            }
        }
    }

    /// Takes the module, whose lists these are, out of both.
    pub(crate) fn remove(&mut self, name: &ModName, lists: Lists)
        ensures imports { let leaves = Leaves name.now lists.entry.imports.now [] in
            leaves self.old.importers.sets.entries self.new.importers.sets.entries }
        ensures accepted { let leaves = Leaves name.now lists.entry.accepted.now [] in
            leaves self.old.acceptors.sets.entries self.new.acceptors.sets.entries }
    {
        self.importers.leave(name, lists.imports, &[]);
        self.acceptors.leave(name, lists.accepted, &[]);
    }
}
