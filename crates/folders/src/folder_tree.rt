// The file system of std as a tree. A folder is its path, and a listing is kept by names, lengths and times
// of change, so that a later `open` can wait until a look at the same folders shows something else.
ghost use Rattle.std.specs.Prelude.{◌≡◌, ◌≤◌, [], None, string_bytes};
ghost use Rattle.std.specs.Option.{option_map};
ghost use Rattle.hmr_base.specs.Causes.{Rose};
ghost use Rattle.hmr_base.specs.OutCauses.{HasOutCause, is_failed};
ghost use Rattle.hmr_base.specs.declared.out_fault.OutFault.{OutFault};

use crate::{Entry, Node, OutFault, Reading, Tree};
use hmr_base::{ReadFault, StdSource, read_all};
use std::alloc::{AllocError, Global};
use std::fs::{DirEntry, File};
use std::io::ErrorKind;
use std::rt::Files;
use std::sync::Wait;
use std::thread::Parker;
use std::time::{Duration, SystemTime};
use std::{fs, io};

/// How often the folders are looked at while an `open` waits: a minute at 50 ms each.
const LOOKS: u32 = 1_200;

/// A folder that a [`FolderTree`] gave.
#[derive(Debug, Drop)]
pub struct FolderDir {
    path: String,
}

/// A file that a [`FolderTree`] gave.
#[derive(Debug, Drop)]
pub struct FolderFile {
    path: String,
}

/// A folder of the file system. Links to files are read and links to folders aren't followed; names that
/// aren't UTF-8, and what is neither file nor folder, are left out. A file that was removed since it was
/// listed is gone, and so is a link that leads nowhere.
///
/// Each `open` but the first waits until a look at the folders that were listed since the `open` before it
/// shows a name, a length or a time of change that wasn't listed, and for at most a minute. It doesn't wait
/// where none was listed, as after a refused `open`.
#[derive(Drop)]
pub struct FolderTree<R: Drop> {
    rt: R,
    asked: Option<String>,
    seen: Vec<Seen>,
    faults: u64,
}

/// What was listed of a folder.
#[derive(Drop)]
struct Seen {
    path: String,
    marks: Vec<Mark>,
}

/// A name that was listed, and that by which a change of it shows.
#[derive(Drop, PartialEq)]
struct Mark {
    name: String,
    state: State,
}

#[derive(Clone, Copy, PartialEq, Eq)]
enum State {
    Dir,
    File(u64, Option<SystemTime>),
}

impl<R: Files + AllocGlobal + Wait + Clone + Drop> FolderTree<R> {
    /// The folders of the runtime's file system, of which none is asked for so far.
    pub fn new(rt: R) -> Self
        ensures unasked { result.asked ≡ None }
        ensures faults { result.faults ≡ 0 }
    {
        let alloc = rt.alloc();
        FolderTree {
            rt,
            asked: None,
            seen: Vec::new(alloc),
            faults: 0,
        }
    }

    fn fail(&mut self) -> OutFault
        ensures failed { result ≡ OutFault.Failed }
        ensures asked { self.new.asked ≡ self.old.asked }
        ensures later { self.old.faults ≤ self.new.faults }
        ensures rose { Rose self.old.faults self.new.faults }
    {
        self.faults = self.faults.saturating_add(1);
        OutFault::Failed
    }

    // What an error of std is, counted where it is a fault.
    fn fault(&mut self, error: io::Error) -> OutFault
        ensures asked { self.new.asked ≡ self.old.asked }
        ensures later { self.old.faults ≤ self.new.faults }
        ensures rose { result ≡ OutFault.Failed → Rose self.old.faults self.new.faults }
    {
        if error.kind() == ErrorKind::OutOfMemory {
            return OutFault::NoMemory;
        }
        self.fail()
    }

    fn remember(&mut self, path: String, marks: Vec<Mark>) -> Result<(), AllocError>
        ensures asked { self.new.asked ≡ self.old.asked }
        ensures faults { self.new.faults ≡ self.old.faults }
    {
        self.seen.push(Seen { path, marks })?;
        Ok(())
    }

    fn wait_for_change(&self, alloc: Global) {
        let parker = Parker::new();
        for _ in 0..LOOKS {
            if self.has_changed(alloc) {
                return;
            }
            parker.park_timeout(&self.rt, Duration::from_millis(50));
        }
    }

    // Whether what was listed is no more what a look shows. Where nothing was listed, there is nothing to
    // wait for.
    fn has_changed(&self, alloc: Global) -> bool {
        if self.seen.is_empty() {
            return true;
        }
        for seen in &self.seen {
            match look(&self.rt, alloc, &seen.path) {
                Ok(marks) if marks == seen.marks => {}
                _ => return true,
            }
        }
        false
    }
}

impl<R: Files + AllocGlobal + Wait + Clone + Drop> Tree for FolderTree<R> {
    type Dir = FolderDir;

    type File = FolderFile;

    ghost faults = { λ s. s.faults };

    ghost plan = { λ _. None };

    ghost asked = { λ s. option_map string_bytes s.asked };

    ghost coming = { λ _. None };

    ghost files = { λ _. None };

    ghost dir_path = { λ _. [] };

    ghost file_path = { λ _. [] };

    fn open(&mut self, alloc: Global, folder: &str) -> Result<FolderDir, OutFault> {
        if self.asked.is_some() {
            self.wait_for_change(alloc);
        }
        self.asked = Some(String::from_str(alloc, folder)?);
        self.seen.clear();
        match fs::metadata(&self.rt, folder) {
            Ok(data) if data.is_dir() => Ok(FolderDir {
                path: String::from_str(alloc, folder)?,
            }),
            Ok(_) => Err(self.fail()),
            Err(error) => Err(self.fault(error)),
        }
    }

    fn list(
        &mut self,
        alloc: Global,
        dir: &FolderDir,
    ) -> Result<Vec<Entry<FolderDir, FolderFile>>, OutFault> {
        match look(&self.rt, alloc, &dir.path) {
            Ok(marks) => {
                let entries = entries_of(alloc, &dir.path, &marks)?;
                self.remember(dir.path.clone()?, marks)?;
                Ok(entries)
            }
            Err(error) => Err(self.fault(error)),
        }
    }

    fn read(
        &mut self,
        alloc: Global,
        file: &FolderFile,
        limit: usize,
    ) -> Result<Reading, OutFault> {
        let opened = match File::open(&self.rt, &file.path) {
            Ok(opened) => opened,
            Err(error) if error.kind() == ErrorKind::NotFound => return Ok(Reading::Gone),
            Err(error) => return Err(self.fault(error)),
        };
        match read_all(alloc, &mut StdSource::new(opened), limit) {
            Ok(text) => Ok(Reading::Text(text)),
            Err(ReadFault::TooLong) => Ok(Reading::TooLong),
            Err(ReadFault::Failed) => Err(self.fail()),
            Err(ReadFault::NoMemory) => Err(OutFault::NoMemory),
        }
    }
}

// The names in a folder of the file system.
fn look<R: Files + AllocGlobal + Clone + Drop>(
    rt: &R,
    alloc: Global,
    path: &str,
) -> io::Result<Vec<Mark>> {
    let mut marks = Vec::new(alloc);
    for entry in fs::read_dir(rt, path)? {
        match entry {
            Ok(entry) => {
                if let Some(state) = state_of(rt, &entry)? {
                    let name = String::from_str(alloc, entry.file_name())?;
                    marks.push(Mark { name, state })?;
                }
            }
            Err(error) if error.kind() == ErrorKind::InvalidFilename => {}
            Err(error) => return Err(error),
        }
    }
    Ok(marks)
}

// What a name in a folder stands for, or None where it is gone by now or stands for neither. A link that
// leads nowhere is a file that is gone.
fn state_of<R: Files + AllocGlobal + Clone + Drop>(
    rt: &R,
    entry: &DirEntry<R, Global>,
) -> io::Result<Option<State>> {
    let data = match entry.metadata() {
        Ok(data) => data,
        Err(error) if error.kind() == ErrorKind::NotFound => return Ok(None),
        Err(error) => return Err(error),
    };
    if data.is_dir() {
        return Ok(Some(State::Dir));
    }
    let data = match fs::metadata(rt, entry.path()) {
        Ok(target) => target,
        Err(_) => data,
    };
    if data.is_file() || data.is_symlink() {
        return Ok(Some(State::File(data.len(), data.modified().ok())));
    }
    Ok(None)
}

fn entries_of(
    alloc: Global,
    folder: &str,
    marks: &[Mark],
) -> Result<Vec<Entry<FolderDir, FolderFile>>, AllocError> {
    let mut entries = Vec::new(alloc);
    for mark in marks {
        let path = format!(in alloc; "{folder}/{}", mark.name)?;
        let node = match mark.state {
            State::Dir => Node::Dir(FolderDir { path }),
            State::File(_, _) => Node::File(FolderFile { path }),
        };
        let name = mark.name.clone()?;
        entries.push(Entry { name, node })?;
    }
    Ok(entries)
}
