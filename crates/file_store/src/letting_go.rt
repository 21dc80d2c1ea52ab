// What is let go where files take more memory than they may.
ghost use Rattle.std.specs.Prelude.{◌≡◌};
ghost use Rattle.file_store.specs.LettingGo.{is_at, is_named, is_needed, is_over, needed_files};

use crate::store::{FileStore, Stored};
use hmr_types::{ModName, Ver};
use instance_urls::PlanId;
use std::collections::{BTreeMap, VecDeque};
use told_plans::ToldPlan;

/// How many bytes the files of a server may take: 256 MiB.
pub const MOST_BYTES: usize = 268_435_456;

impl<T: Drop> FileStore<T> {
    ghost use Rattle.file_store.specs.LettingGo.{IsOldest, is_over, needed_files};

    /// Whether the files take more bytes than this. It takes time linear in the files.
    pub fn is_over(&self, most: usize) -> bool
        ensures { result ≡ is_over most self.now.files }
    {
        is_over(&self.files, most)
    }

    /// Lets go the files that aren't served and that no plan names. It takes time linear in the files and the
    /// plans together, but for the logarithms of their names.
    pub fn sweep(&mut self)
        ensures files { self.new.files ≡ needed_files self.old.served self.old.plans self.old.files }
        ensures served { self.new.served ≡ self.old.served }
        ensures plans { self.new.plans ≡ self.old.plans }
    {
        sweep(&mut self.files, &self.served, &self.plans);
    }

    /// Lets go the oldest plan, whose page is to be loaded again; None where there is no plan.
    pub fn let_go_oldest(&mut self) -> Option<PlanId>
        ensures plan { IsOldest result self.old.plans self.new.plans }
        ensures files { self.new.files ≡ self.old.files }
        ensures served { self.new.served ≡ self.old.served }
    {
        match self.plans.pop_front() {
            Some(plan) => Some(plan.id()),
            None => None,
        }
    }
}

fn is_over<T>(files: &BTreeMap<Ver, Stored<T>>, most: usize) -> bool
    ensures { result ≡ is_over most files.now.entries }
{
    let mut left = most;
    for (_version, stored) in files.iter() {
        if stored.size > left {
            return true;
        }
        left -= stored.size;
    }
    false
}

fn sweep<T: Drop>(
    files: &mut BTreeMap<Ver, Stored<T>>,
    served: &BTreeMap<ModName, Ver>,
    plans: &VecDeque<ToldPlan>,
)
    ensures { files.new.entries ≡ needed_files served.now.entries plans.now.items files.old.entries }
{
    files.retain(|version, stored| is_needed(served, plans, &stored.name, *version));
}

/// Whether a version is served, or a plan names it.
fn is_needed(
    served: &BTreeMap<ModName, Ver>,
    plans: &VecDeque<ToldPlan>,
    name: &ModName,
    version: Ver,
) -> bool
    ensures { result ≡ is_needed served.now.entries plans.now.items name.now version }
{
    is_at(served.get(name).copied(), version) || is_named(plans, name, version)
}

fn is_named(plans: &VecDeque<ToldPlan>, name: &ModName, version: Ver) -> bool
    ensures { result ≡ is_named plans.now.items name.now version }
{
    plans.iter().any(|plan| is_at(plan.version(name), version))
}

fn is_at(found: Option<Ver>, version: Ver) -> bool
    ensures { result ≡ is_at found version }
{
    match found {
        Some(other) => other == version,
        None => false,
    }
}
