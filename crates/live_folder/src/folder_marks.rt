// A folder of the file system that is looked at by the marks of its files.
ghost use Rattle.std.specs.Prelude.{IfOk};
ghost use Rattle.live_folder.specs.Readings.{IsShortRead};

use crate::glances::{Glances, are_known};
use crate::look::{Change, Look, PassedOver, SkipCause};
use crate::marks::{Mark, Marks, NoMarks, marks_below};
use crate::watched::Watched;
use file_names::module_name;
use hmr_base::{ReadFault, StdSource, read_all};
use hmr_types::{NameFault, Text};
use std::alloc::{AllocError, Global};
use std::fs::File;
use std::io;
use std::io::ErrorKind;
use std::path::Path;
use std::rt::Files;
use std::sync::Wait;
use std::thread::Parker;
use std::time::Duration;

/// How long the files must be still before those that changed are read, in milliseconds.
const STILL_MILLIS: u64 = 20;

/// How often it is looked for that.
const LOOKS: u32 = 10;

/// The most bytes of a file.
const FILE_BYTES: usize = 67_108_864;

/// A folder of the file system. A file is read where its length or its time of change is another than at the
/// look before. Most looks are glances: a file that is made, taken away or put in another's place is seen at
/// once, and so is a change of one of the 64 files that changed last; of another one the change is seen
/// after one look for each 256 files. Of the files those are looked at whose names end in `.js`, `.mjs`,
/// `.css`, `.json`, `.html` or `.htm`; folders that begin with a dot, those named `node_modules` and links
/// to folders are left out, and links to files outside of the folder are passed over. A look shows first the
/// modules that have a new text and then those that are gone, in the order of their paths.
#[derive(Drop)]
pub struct FolderMarks<R: Drop> {
    rt: R,
    folder: String,
    known: Marks,
    glances: Glances,
    begun: bool,
}

/// What reading a file gave.
#[derive(Drop)]
pub(crate) enum Read {
    Text(Vec<u8>),
    Skip(SkipCause),
    Gone,
}

impl<R: Drop> FolderMarks<R> {
    /// The folder at this path, of which nothing was looked at. `AllocError` where memory ran out.
    pub fn new(alloc: Global, rt: R, folder: &str) -> Result<Self, AllocError> {
        Ok(FolderMarks {
            rt,
            folder: String::from_str(alloc, folder)?,
            known: Marks::new(alloc),
            glances: Glances::new(alloc),
            begun: false,
        })
    }
}

impl<R: Files + AllocGlobal + Wait + Clone + Drop> FolderMarks<R> {
    // The marks once the files that changed are still, and the paths of these. At the first look all files
    // have changed, and are taken as they are.
    fn still_marks(&self, alloc: Global) -> Result<(Marks, Vec<String>), NoMarks> {
        let folder = self.folder.as_str();
        let mut marks = marks_below(&self.rt, alloc, folder)?;
        let mut changed = changed_paths(alloc, &self.known, &marks)?;
        if !self.begun {
            return Ok((marks, changed));
        }
        let parker = Parker::new();
        for _ in 0..LOOKS {
            if changed.is_empty() {
                return Ok((marks, changed));
            }
            parker.park_timeout(&self.rt, Duration::from_millis(STILL_MILLIS));
            if are_known(&self.rt, alloc, folder, &marks, &changed)? {
                return Ok((marks, changed));
            }
            marks = marks_below(&self.rt, alloc, folder)?;
            changed = changed_paths(alloc, &self.known, &marks)?;
        }
        Ok((marks, changed))
    }

    // What changed between the known marks and these.
    fn look_by(&self, alloc: Global, marks: &Marks) -> Result<Look, AllocError> {
        let mut look = Look::of_nothing(alloc, false);
        for (path, mark) in &marks.files {
            if self.known.files.get(path) != Some(mark) {
                self.take_file(alloc, path.as_str(), *mark, &mut look)?;
            }
        }
        for (path, _) in &self.known.files {
            if marks.files.get(path).is_none() {
                take_removed(alloc, path.as_str(), &mut look)?;
            }
        }
        Ok(look)
    }

    // Takes a file that is new or has changed.
    fn take_file(
        &self,
        alloc: Global,
        path: &str,
        mark: Mark,
        look: &mut Look,
    ) -> Result<(), AllocError> {
        let name = match module_name(alloc, path.as_bytes()) {
            Ok(name) => name,
            Err(NameFault::NotAName) => return skip(alloc, path, SkipCause::BadName, look),
            Err(NameFault::NoMemory) => return Err(AllocError),
        };
        match self.read_marked(alloc, path, mark)? {
            Read::Text(text) => {
                look.changes.push(Change::saved(name, text))?;
                Ok(())
            }
            Read::Skip(cause) => skip(alloc, path, cause, look),
            Read::Gone => Ok(()),
        }
    }

    // The text of a file that has this mark.
    fn read_marked(&self, alloc: Global, path: &str, mark: Mark) -> Result<Read, AllocError>
        ensures short { IfOk result IsShortRead }
    {
        if mark.is_link && leads_out(&self.rt, alloc, self.folder.as_str(), path)? {
            return Ok(Read::Skip(SkipCause::Outside));
        }
        self.read(alloc, path)
    }

    // The text of a file.
    fn read(&self, alloc: Global, path: &str) -> Result<Read, AllocError>
        ensures short { IfOk result IsShortRead }
    {
        let place = format!(in alloc; "{}{path}", self.folder)?;
        let opened = match File::open(&self.rt, place.as_str()) {
            Ok(opened) => opened,
            Err(error) if error.kind() == ErrorKind::NotFound => return Ok(Read::Gone),
            Err(_) => return Ok(Read::Skip(SkipCause::Unreadable)),
        };
        match read_all(alloc, &mut StdSource::new(opened), FILE_BYTES) {
            Ok(text) => Ok(Read::Text(text)),
            Err(ReadFault::TooLong) => Ok(Read::Skip(SkipCause::TextTooLong)),
            Err(ReadFault::Failed) => Ok(Read::Skip(SkipCause::Unreadable)),
            Err(ReadFault::NoMemory) => Err(AllocError),
        }
    }
}

// Whether what is at a path of the folder is outside of it. What can't be found is not.
fn leads_out<R: Files + AllocGlobal>(
    rt: &R,
    alloc: Global,
    folder: &str,
    path: &str,
) -> Result<bool, AllocError> {
    let place = format!(in alloc; "{folder}{path}")?;
    match is_outside(rt, folder, place.as_str()) {
        Ok(outside) => Ok(outside),
        Err(error) if error.kind() == ErrorKind::OutOfMemory => Err(AllocError),
        Err(_) => Ok(false),
    }
}

fn is_outside<R: Files + AllocGlobal>(rt: &R, folder: &str, place: &str) -> io::Result<bool> {
    let folder = Path::new(folder).canonicalize(rt)?;
    let place = Path::new(place).canonicalize(rt)?;
    Ok(!place.starts_with(&folder))
}

// The paths of the files that are new, have another mark, or are gone.
fn changed_paths(alloc: Global, known: &Marks, marks: &Marks) -> Result<Vec<String>, AllocError> {
    let mut changed = Vec::new(alloc);
    for (path, mark) in &marks.files {
        if known.files.get(path) != Some(mark) {
            changed.push(String::from_str(alloc, path.as_str())?)?;
        }
    }
    for (path, _) in &known.files {
        if marks.files.get(path).is_none() {
            changed.push(String::from_str(alloc, path.as_str())?)?;
        }
    }
    Ok(changed)
}

// Takes a file that is gone.
fn take_removed(alloc: Global, path: &str, look: &mut Look) -> Result<(), AllocError> {
    match module_name(alloc, path.as_bytes()) {
        Ok(name) => {
            look.changes.push(Change::removed(name))?;
            Ok(())
        }
        Err(NameFault::NotAName) => Ok(()),
        Err(NameFault::NoMemory) => Err(AllocError),
    }
}

// Passes a file over.
fn skip(alloc: Global, path: &str, cause: SkipCause, look: &mut Look) -> Result<(), AllocError> {
    let path = Text::from_string(String::from_str(alloc, path)?);
    look.passed.push(PassedOver { path, cause })?;
    Ok(())
}

impl<R: Files + AllocGlobal + Wait + Clone + Drop> Watched for FolderMarks<R> {
    fn look(&mut self, alloc: Global) -> Result<Look, AllocError> {
        let folder = self.folder.as_str();
        if self
            .glances
            .are_quiet(&self.rt, alloc, folder, &self.known)?
        {
            return Ok(Look::of_nothing(alloc, false));
        }
        self.glances.end();
        let (marks, changed) = match self.still_marks(alloc) {
            Ok(found) => found,
            Err(NoMarks::Away) => return Ok(Look::of_nothing(alloc, true)),
            Err(NoMarks::NoMemory) => return Err(AllocError),
        };
        let look = self.look_by(alloc, &marks)?;
        self.glances.note_look(alloc, &changed)?;
        self.known = marks;
        self.begun = true;
        Ok(look)
    }
}
