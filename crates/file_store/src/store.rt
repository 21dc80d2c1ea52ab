// Files by version, and the plans that name them.
ghost use Rattle.std.specs.Prelude.{◌≡◌, ◌++◌, ◌∷◌, [], IfOk, OnErr, OnOk};
ghost use Rattle.std.specs.Option.{option_copied};

use hmr_types::{ModName, Ver};
use instance_urls::PlanId;
use std::alloc::{AllocError, Global};
use std::collections::{BTreeMap, VecDeque};
use std::marker::Model;
use told_plans::ToldPlan;

/// A version of a file.
#[derive(Drop)]
pub struct Stored<T> {
    /// The name of its module.
    pub name: ModName,
    /// How many bytes it takes.
    pub size: usize,
    /// What is stored of it.
    pub file: T,
}

/// Files by version, which versions are served now, and the plans that pages told, the oldest first. A version
/// is that of one edit, so of one name.
#[derive(Drop)]
pub struct FileStore<T> {
    alloc: Global,
    pub(crate) files: BTreeMap<Ver, Stored<T>>,
    pub(crate) served: BTreeMap<ModName, Ver>,
    pub(crate) plans: VecDeque<ToldPlan>,
}

impl<T> Model for FileStore<T> {
    ghost use Rattle.file_store.specs.Stores.{Store};

    ghost Value = { Store T };

    ghost view = { λ s. record {
      files = s.files.entries;
      served = s.served.entries;
      plans = s.plans.items;
    } };
}

impl<T: Drop> FileStore<T> {
    ghost use Rattle.file_store.specs.Stores.{file_at, plan_at, served_at, with_file, with_served, without};

    /// A store of nothing.
    pub fn new(alloc: Global) -> FileStore<T>
        ensures files { result.files ≡ [] }
        ensures served { result.served ≡ [] }
        ensures plans { result.plans ≡ [] }
    {
        FileStore {
            alloc,
            files: BTreeMap::new(alloc),
            served: BTreeMap::new(alloc),
            plans: VecDeque::new(alloc),
        }
    }

    /// Puts the file of a version, which is served from now on. Where memory runs out the file may be there, but
    /// what is served is what was. It takes time in the logarithm of the files.
    pub fn put(&mut self, version: Ver, stored: Stored<T>) -> Result<(), AllocError>
        ensures files { OnOk result (self.new.files ≡ with_file self.old.files version stored) }
        ensures served { OnOk result (self.new.served ≡ with_served self.old.served stored.name version) }
        ensures refused { OnErr result (self.new.served ≡ self.old.served) }
        ensures plans { self.new.plans ≡ self.old.plans }
    {
        let name = stored.name.clone()?;
        self.files.insert(version, stored)?;
        self.served.insert(name, version)?;
        Ok(())
    }

    /// A file isn't served any more. Its versions stay for the plans that name them.
    pub fn remove(&mut self, name: &ModName)
        ensures served { self.new.served ≡ without self.old.served name.now }
        ensures files { self.new.files ≡ self.old.files }
        ensures plans { self.new.plans ≡ self.old.plans }
    {
        self.served.remove(name);
    }

    /// The version of a file that is served; None where it is served at none.
    pub fn served(&self, name: &ModName) -> Option<Ver>
        ensures { result ≡ served_at self.now.served name.now }
    {
        self.served.get(name).copied()
    }

    /// The file of a name at a version; None where it isn't there, or the version is another's.
    pub fn get(&self, name: &ModName, version: Ver) -> Option<&T>
        ensures { option_copied result ≡ file_at self.now.files name.now version }
    {
        match self.files.get(&version) {
            Some(stored) if stored.name == *name => Some(&stored.file),
            _ => None,
        }
    }

    /// Takes up a plan, whose files are kept while there is room. Where memory runs out nothing changes.
    pub fn keep_for(&mut self, plan: ToldPlan) -> Result<(), AllocError>
        ensures plans { OnOk result (self.new.plans ≡ self.old.plans ++ plan ∷ []) }
        ensures err { OnErr result (self.new.plans ≡ self.old.plans) }
        ensures files { self.new.files ≡ self.old.files }
        ensures served { self.new.served ≡ self.old.served }
    {
        self.plans.push_back(plan)?;
        Ok(())
    }

    /// The plan of this number, the first that was told; None where none is there. It takes time linear in the
    /// plans.
    pub fn plan(&self, id: PlanId) -> Option<&ToldPlan>
        ensures { option_copied result ≡ plan_at self.now.plans id }
    {
        self.plans.iter().find(|plan| plan.id() == id)
    }
}
