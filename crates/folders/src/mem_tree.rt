// A folder in memory. What it has at each `open` is given when it is made; a folder below it is there where
// a path leads through it. No call waits.
ghost use Rattle.std.specs.Prelude.{◌≡◌, ◌≤◌, ◌∷◌, [], ◌++◌, List, ℕ, Option, Some, None};
ghost use Rattle.std.specs.Prelude.{true, false, IfSome, IfOk, OnOk, IfNone, IsNone, MatchOption};
ghost use Rattle.std.specs.Prelude.{is_some, map, string_bytes};
ghost use Rattle.std.specs.List.{list_any};
ghost use Rattle.std.specs.Option.{option_map, option_copied};
ghost use Rattle.hmr_base.specs.Plans.{faults_of, fresh_plan, plan_of};
ghost use Rattle.folders.specs.Entries.{IsListed, has_slash, is_there, leads_to, path_of};
ghost use Rattle.folders.specs.Files.{below, files_after, has_file};
ghost use Rattle.folders.specs.Files.{next_files, rest_after, text_at};
ghost use Rattle.folders.specs.Memory.{IfDir, IfFile, IsEntryFor, IsOneMore, dir_path_of, file_path_of};
ghost use Rattle.folders.specs.Memory.{files_to_come, held_by, open_files, told_file};
ghost use Rattle.folders.specs.Readings.{HasRead};
ghost use Rattle.hmr_types.specs.ModName.{is_text};

use crate::{Entry, Node, OutFault, Reading, Tree};
use hmr_base::FaultPlan;
use std::alloc::{AllocError, Global};
use std::collections::VecDeque;

/// A file in memory.
#[derive(Debug, Drop)]
pub struct MemFile {
    /// The path from the folder on: a slash, and names with a slash between each two.
    pub path: String,
    /// The bytes.
    pub text: Vec<u8>,
}

/// A folder that a [`MemTree`] gave.
#[derive(Debug, Drop)]
pub struct MemDir {
    path: String,
}

/// A file that a [`MemTree`] gave.
#[derive(Debug, Drop)]
pub struct MemPlace {
    path: String,
}

/// A folder in memory, whatever name it is asked for by.
#[derive(Debug, Drop)]
pub struct MemTree {
    folders: VecDeque<Vec<MemFile>>,
    is_open: bool,
    asked: Option<String>,
    plan: FaultPlan,
}

impl MemTree {
    /// A folder that has at its n-th `open` the n-th files of `folders`, of which the last stay; with no
    /// files at all it is always empty. Its calls fail where their numbers, from 0, stand in `failing`, and
    /// a `read` of a file that the folder has no more fails too. The files of one folder stand side by side;
    /// otherwise a folder is listed once for each run of them.
    pub fn new(folders: VecDeque<Vec<MemFile>>, failing: Vec<u64>) -> Self
        ensures folders { result.folders ≡ folders }
        ensures unopened { (result.is_open ≡ false) × (result.asked ≡ None) }
        ensures plan { plan_of result.plan ≡ fresh_plan failing.items }
        ensures faults { faults_of result.plan ≡ 0 }
    {
        MemTree {
            folders,
            is_open: false,
            asked: None,
            plan: FaultPlan::new(failing),
        }
    }

    // Opens the folder once more.
    fn advance(&mut self)
        ensures files { open_files self.new.is_open (held_by self.new)
            ≡ next_files (files_to_come self.old.is_open (held_by self.old)) }
        ensures coming { files_to_come self.new.is_open (held_by self.new)
            ≡ files_after (files_to_come self.old.is_open (held_by self.old)) }
        ensures plan { self.new.plan ≡ self.old.plan }
        ensures asked { self.new.asked ≡ self.old.asked }
    {
        if self.is_open && self.folders.len() > 1 {
            self.folders.pop_front();
        }
        self.is_open = true;
    }

    // The files of the folder that is open.
    fn files(&self) -> &[MemFile]
        ensures { map told_file result.now ≡ open_files self.now.is_open (held_by self.now) }
    {
        match self.folders.front() {
            Some(files) if self.is_open => files,
            _ => &[],
        }
    }
}

impl Tree for MemTree {
    type Dir = MemDir;

    type File = MemPlace;

    ghost faults = { λ s. faults_of s.plan };

    ghost plan = { λ s. Some (plan_of s.plan) };

    ghost asked = { λ s. option_map string_bytes s.asked };

    ghost coming = { λ s. Some (files_to_come s.is_open (held_by s)) };

    ghost files = { λ s. Some (open_files s.is_open (held_by s)) };

    ghost dir_path = { dir_path_of };

    ghost file_path = { file_path_of };

    fn open(&mut self, alloc: Global, folder: &str) -> Result<MemDir, OutFault> {
        self.plan.begin()?;
        self.asked = Some(String::from_str(alloc, folder)?);
        self.advance();
        Ok(MemDir {
            path: String::new(alloc),
        })
    }

    fn list(
        &mut self,
        alloc: Global,
        dir: &MemDir,
    ) -> Result<Vec<Entry<MemDir, MemPlace>>, OutFault> {
        self.plan.begin()?;
        Ok(entries_of(alloc, self.files(), &dir.path)?)
    }

    fn read(&mut self, alloc: Global, file: &MemPlace, limit: usize) -> Result<Reading, OutFault> {
        self.plan.begin()?;
        match find(self.files(), &file.path) {
            None => Err(OutFault::from(self.plan.fail())),
            Some(text) if text.len() > limit => Ok(Reading::TooLong),
            Some(text) => Ok(Reading::Text(Vec::from_slice(alloc, text)?)),
        }
    }
}

// The bytes of the first file at a path.
fn find<'a>(files: &'a [MemFile], path: &str) -> Option<&'a [u8]>
    ensures { option_copied result ≡ text_at (map told_file files.now) path.now }
{
    for file in files {
        if path.as_bytes() == file.path.as_bytes() {
            return Some(&file.text);
        }
    }
    None
}

// What the folder has, by the files that are below it.
fn entries_of(
    alloc: Global,
    files: &[MemFile],
    folder: &str,
) -> Result<Vec<Entry<MemDir, MemPlace>>, AllocError>
    ensures { IfOk result
        (λ entries. IsListed dir_path_of file_path_of (map told_file files.now) folder.now entries.items) }
{
    let mut entries = Vec::new(alloc);
    for file in files {
        enter(alloc, &mut entries, &file.path, folder)?;
    }
    Ok(entries)
}

// Adds the entry that a path goes by, if it isn't there.
fn enter(
    alloc: Global,
    entries: &mut Vec<Entry<MemDir, MemPlace>>,
    path: &str,
    folder: &str,
) -> Result<(), AllocError>
    ensures { OnOk result (IsOneMore folder.now path.now entries.old.items entries.new.items) }
{
    if is_entered(entries, path) {
        return Ok(());
    }
    if let Some(entry) = entry_of(alloc, path, folder)? {
        entries.push(entry)?;
    }
    Ok(())
}

// Whether the last entry is a folder that the path leads through.
fn is_entered(entries: &[Entry<MemDir, MemPlace>], path: &str) -> bool
    ensures { result ≡ true
        → list_any (λ entry. leads_to dir_path_of file_path_of path.now entry.node) entries.now ≡ true }
{
    match entries.last() {
        Some(entry) => match &entry.node {
            Node::Dir(dir) => rest_after(path, &dir.path).is_some(),
            Node::File(_) => false,
        },
        None => false,
    }
}

// The entry of a folder that a path goes by, or None where it doesn't lead through the folder.
fn entry_of(
    alloc: Global,
    path: &str,
    folder: &str,
) -> Result<Option<Entry<MemDir, MemPlace>>, AllocError>
    ensures entry { IfOk result (λ got. IfSome got (λ entry. IsEntryFor folder.now path.now entry)) }
    ensures away { IfOk result (λ got. got ≡ None → rest_after folder.now path.now ≡ None) }
{
    let Some(rest) = rest_after(path, folder) else {
        return Ok(None);
    };
    match rest.split_once('/') {
        Some((name, _)) => Ok(Some(dir_entry(alloc, folder, name)?)),
        None => Ok(Some(file_entry(alloc, path, rest)?)),
    }
}

fn dir_entry(alloc: Global, folder: &str, name: &str) -> Result<Entry<MemDir, MemPlace>, AllocError>
    ensures name { IfOk result (λ entry. string_bytes entry.name ≡ name.now) }
    ensures node { IfOk result
        (λ entry. IfDir (λ dir. dir_path_of dir ≡ below folder.now name.now) entry.node) }
{
    let mut path = String::from_str(alloc, folder)?;
    path.push('/')?;
    path.push_str(name)?;
    Ok(Entry {
        name: String::from_str(alloc, name)?,
        node: Node::Dir(MemDir { path }),
    })
}

fn file_entry(alloc: Global, path: &str, name: &str) -> Result<Entry<MemDir, MemPlace>, AllocError>
    ensures name { IfOk result (λ entry. string_bytes entry.name ≡ name.now) }
    ensures node { IfOk result (λ entry. IfFile (λ file. file_path_of file ≡ path.now) entry.node) }
{
    let place = MemPlace {
        path: String::from_str(alloc, path)?,
    };
    Ok(Entry {
        name: String::from_str(alloc, name)?,
        node: Node::File(place),
    })
}

// What a path says after a folder and a slash, where it leads through the folder.
fn rest_after<'a>(path: &'a str, folder: &str) -> Option<&'a str>
    ensures { option_copied result ≡ rest_after folder.now path.now }
{
    let below = path.strip_prefix(folder)?;
    below.strip_prefix('/')
}
