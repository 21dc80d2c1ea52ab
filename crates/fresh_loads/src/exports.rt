// What served modules export, by look-up: a set of names for each.
ghost use Rattle.std.specs.Prelude.{◌≡◌, ◌∷◌, ◌||◌, IfOk, List, OnOk, Some, if◌then◌else◌};
ghost use Rattle.std.specs.Option.{option_copied};
ghost use Rattle.core_model.specs.Names.{Name, at, has, same_name};
ghost use Rattle.fresh_loads.specs.Searching.{AreExports, AreMarks};

use hmr_types::{ModName, Name};
use std::alloc::{AllocError, Global};
use std::collections::{BTreeMap, BTreeSet};
use std::marker::Model;
use version_map::VersionMap;

/// The names that a module exports. Contracts see a list of them, and ask whether it has a name.
#[derive(Drop)]
pub(crate) struct ExportSet {
    names: BTreeSet<Name>,
}

impl Model for ExportSet {
    ghost use Rattle.std.specs.Prelude.{List};
    ghost use Rattle.core_model.specs.Names.{Name};

    ghost Value = { List Name };

    ghost view = { λ s. s.names.keys };
}

impl ExportSet {
    /// The set of the names of a list.
    pub(crate) fn of(alloc: Global, names: &[Name]) -> Result<ExportSet, AllocError>
        ensures { IfOk result (λ set. AreMarks set names.now) }
    {
        let mut set = ExportSet {
            names: BTreeSet::new(alloc),
        };
        for name in names {
            set.add(name.clone()?)?;
        }
        Ok(set)
    }

    /// Whether the name is exported.
    pub(crate) fn has(&self, name: &Name) -> bool
        ensures { result ≡ has self.now name.now }
    {
        self.names.contains(name)
    }

    fn add(&mut self, name: Name) -> Result<(), AllocError>
        ensures { (m : Name) → OnOk result (has self.new m ≡ (same_name name m || has self.old m)) }
    {
        self.names.insert(name)?;
        Ok(())
    }
}

/// The exported names of modules, for those that are served. Contracts see the sets by name.
#[derive(Drop)]
pub(crate) struct Exports {
    sets: BTreeMap<ModName, ExportSet>,
}

impl Model for Exports {
    ghost use Rattle.std.specs.Prelude.{List};
    ghost use Rattle.core_model.specs.Names.{Name};

    ghost Value = { List (Name × List Name) };

    ghost view = { λ e. e.sets.entries };
}

impl Exports {
    /// What these modules export, where they are served. It reads each list of exports once.
    pub(crate) fn of(
        alloc: Global,
        versions: &VersionMap,
        names: &[ModName],
    ) -> Result<Exports, AllocError>
        ensures { IfOk result (λ sets. AreExports versions.now.served names.now sets) }
    {
        let mut exports = Exports {
            sets: BTreeMap::new(alloc),
        };
        for name in names {
            exports.add(alloc, versions, name)?;
        }
        Ok(exports)
    }

    fn add(
        &mut self,
        alloc: Global,
        versions: &VersionMap,
        name: &ModName,
    ) -> Result<(), AllocError>
        ensures { (done : List Name) → AreExports versions.now.served done self.old
            → OnOk result (AreExports versions.now.served (name.now ∷ done) self.new) }
    {
        let Some(served) = versions.served(name) else {
            return Ok(());
        };
        let set = ExportSet::of(alloc, served.analysis.exports.as_slice())?;
        self.put(name.clone()?, set)?;
        Ok(())
    }

    fn put(&mut self, name: ModName, set: ExportSet) -> Result<(), AllocError>
        ensures { (m : Name) → OnOk result
            (at self.new m ≡ (if same_name name m then Some set else at self.old m)) }
    {
        self.sets.insert(name, set)?;
        Ok(())
    }

    /// What the module exports, if it is served.
    pub(crate) fn get(&self, name: &ModName) -> Option<&ExportSet>
        ensures { option_copied result ≡ at self.now name.now }
    {
        self.sets.get(name)
    }
}
