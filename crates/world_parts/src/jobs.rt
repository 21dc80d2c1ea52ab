// The jobs that were issued and whose results haven't come, by version.
ghost use Rattle.std.specs.Prelude.{◌≡◌, ◌<◌, [], ◌∷◌};
ghost use Rattle.std.specs.Prelude.{IfOk, None, OnOk, Some, filter, find, if◌then◌else◌, is_some, map, not};
ghost use Rattle.std.specs.Prelude.{option_map, reverse};
ghost use Rattle.std.specs.List.{AllByRecursion};
ghost use Rattle.world_model.specs.Editing.{is_job};
ghost use Rattle.world_parts.specs.Jobs.{job_of, key_of};

use hmr_types::{ModName, Ver};
use std::alloc::{AllocError, Global};
use std::collections::BTreeMap;
use std::marker::Model;

/// A text that is to be transformed, of the module of this name.
#[derive(Drop)]
pub(crate) struct Job {
    pub name: ModName,
    pub text: Vec<u8>,
}

/// The jobs under way. Contracts see them as the definitions do, the newest first.
#[derive(Drop)]
pub struct Jobs {
    rows: BTreeMap<Ver, Job>,
}

impl Model for Jobs {
    ghost use Rattle.std.specs.Prelude.{List};
    ghost use Rattle.std.specs.BTreeMap.{IsOrdered};
    ghost use Rattle.std.specs.Ordering.{nat_cmp};
    ghost use Rattle.world_model.specs.World.{Job};
    ghost use Rattle.world_parts.specs.Jobs.{issued_of};

    ghost Value = { List Job };

    ghost view = { λ j. issued_of j.rows.entries };

    ghost invariant = { λ j. IsOrdered nat_cmp j.rows };
}

impl Jobs {
    /// No job. It takes constant time.
    pub fn new(alloc: Global) -> Jobs
        ensures { result ≡ [] }
    {
        Jobs {
            rows: BTreeMap::new(alloc),
        }
    }

    /// Adds a job, of a version above all others. [`AllocError`] comes where memory runs out; then no clause
    /// says which jobs there are. It takes time in the logarithm of the jobs.
    pub fn add(&mut self, version: Ver, name: ModName, text: Vec<u8>) -> Result<(), AllocError>
        ensures { AllByRecursion (λ j. j.version < version) self.old
            → OnOk result
            (self.new ≡ record { name = name; version = version; text = text.items } ∷ self.old) }
    {
        self.rows.insert(version, Job { name, text })?;
        Ok(())
    }

    /// Takes the job of this name and version out, and gives its text: None where there is no such job. It
    /// takes time in the logarithm of the jobs.
    pub fn take(&mut self, name: &ModName, version: Ver) -> Option<Vec<u8>>
        ensures text { option_map (λ t. t.items) result
            ≡ option_map (λ j. j.text) (find (is_job name.now version) self.old) }
        ensures left { self.new ≡ filter (λ j. not (is_job name.now version j)) self.old }
    {
        if !self.has(name, version) {
            return None;
        }
        text_of(self.rows.remove(&version))
    }

    /// The text of the job of this name and version: None where there is no such job. It takes time in the
    /// logarithm of the jobs.
    pub fn text(&self, name: &ModName, version: Ver) -> Option<&[u8]>
        ensures { option_map (λ t. t.now) result
            ≡ option_map (λ j. j.text) (find (is_job name.now version) self.now) }
    {
        match self.rows.get(&version) {
            Some(job) => text_if(job.name == *name, job),
            None => None,
        }
    }

    fn has(&self, name: &ModName, version: Ver) -> bool
        ensures { result ≡ is_some (find (is_job name.now version) self.now) }
    {
        match self.rows.get(&version) {
            Some(job) => job.name == *name,
            None => false,
        }
    }

    /// The names and versions of the jobs, by rising version. [`AllocError`] comes where memory runs out. It
    /// takes time in the number of jobs.
    pub fn keys(&self, alloc: Global) -> Result<Vec<(ModName, Ver)>, AllocError>
        ensures { IfOk result (λ keys. keys.items ≡ map key_of (reverse self.now)) }
    {
        keys_in(alloc, &self.rows)
    }
}

// The text of a job that is meant.
fn text_if(meant: bool, job: &Job) -> Option<&[u8]>
    ensures { option_map (λ t. t.now) result ≡ (if meant then Some job.now.text.items else None) }
{
    if meant { Some(&job.text) } else { None }
}

fn text_of(job: Option<Job>) -> Option<Vec<u8>>
    ensures { option_map (λ t. t.items) result ≡ option_map (λ j. j.text.items) job }
{
    match job {
        Some(job) => Some(job.text),
        None => None,
    }
}

fn keys_in(alloc: Global, rows: &BTreeMap<Ver, Job>) -> Result<Vec<(ModName, Ver)>, AllocError>
    ensures { IfOk result (λ keys. keys.items ≡ map (λ row. key_of (job_of row)) rows.now.entries) }
{
    let mut keys = Vec::new(alloc);
    for (version, job) in rows.iter() {
        keys.push((job.name.clone()?, *version))?;
    }
    Ok(keys)
}
