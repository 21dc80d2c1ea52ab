// The marks of all files below a folder that may be modules, and of the folders that they are in. The folder
// is gone through level by level; a path has at most 255 bytes, so that there are no more levels.
use std::alloc::{AllocError, AllocFailed, Global};
use std::collections::BTreeMap;
use std::fs::{DirEntry, Metadata};
use std::io::ErrorKind;
use std::rt::Files;
use std::time::SystemTime;
use std::{fs, io};

/// The most levels of folders.
const LEVELS: usize = 256;

/// The longest path, in bytes.
const PATH_BYTES: usize = 255;

/// That by which a change of a file shows: its length and the time of its last change, and whether it is a
/// link.
#[derive(Clone, Copy, PartialEq, Eq)]
pub(crate) struct Mark {
    length: u64,
    changed: Option<SystemTime>,
    pub is_link: bool,
}

/// What is known of a folder, by paths from the folder on.
#[derive(Drop)]
pub(crate) struct Marks {
    /// The files that may be modules.
    pub files: BTreeMap<String, Mark>,
    /// The folder itself, whose path is of no bytes, and those below it that were looked into, each with the
    /// time of its last change: a file was made there, taken away, or put in another's place.
    pub folders: BTreeMap<String, Option<SystemTime>>,
}

impl Marks {
    /// What is known of a folder that wasn't looked at.
    pub fn new(alloc: Global) -> Marks {
        Marks {
            files: BTreeMap::new(alloc),
            folders: BTreeMap::new(alloc),
        }
    }
}

/// Why a folder has no marks now.
#[derive(Clone, Copy, PartialEq, Eq)]
pub(crate) enum NoMarks {
    /// It, or a folder in it, couldn't be listed.
    Away,
    /// Memory ran out.
    NoMemory,
}

impl From<AllocError> for NoMarks {
    fn from(_refused: AllocError) -> NoMarks {
        NoMarks::NoMemory
    }
}

impl<T: Drop> From<AllocFailed<T>> for NoMarks {
    fn from(_refused: AllocFailed<T>) -> NoMarks {
        NoMarks::NoMemory
    }
}

impl From<io::Error> for NoMarks {
    fn from(error: io::Error) -> NoMarks {
        if error.kind() == ErrorKind::OutOfMemory {
            NoMarks::NoMemory
        } else {
            NoMarks::Away
        }
    }
}

/// The marks of the files below a folder that pages are made of. Folders that begin with a dot, and those
/// named `node_modules`, are left out, as are links to folders, and folders that may not be read.
pub(crate) fn marks_below<R: Files + AllocGlobal + Clone + Drop>(
    rt: &R,
    alloc: Global,
    folder: &str,
) -> Result<Marks, NoMarks> {
    let mut found = Marks::new(alloc);
    let mut level = Vec::new(alloc);
    list_folder(rt, alloc, folder, "", &mut found, &mut level)?;
    for _ in 0..LEVELS {
        level = list_level(rt, alloc, folder, level, &mut found)?;
    }
    Ok(found)
}

// Lists the folders of a level, and gives those of the next.
fn list_level<R: Files + AllocGlobal + Clone + Drop>(
    rt: &R,
    alloc: Global,
    folder: &str,
    level: Vec<String>,
    found: &mut Marks,
) -> Result<Vec<String>, NoMarks> {
    let mut next = Vec::new(alloc);
    for path in &level {
        match list_folder(rt, alloc, folder, path.as_str(), found, &mut next) {
            Ok(()) => {}
            Err(fault) => skip_gone(rt, alloc, folder, path.as_str(), fault)?,
        }
    }
    Ok(next)
}

// A folder that is gone by now, or that may not be read, has no files; for another fault there are no marks.
fn skip_gone<R: Files + AllocGlobal + Clone + Drop>(
    rt: &R,
    alloc: Global,
    folder: &str,
    path: &str,
    fault: NoMarks,
) -> Result<(), NoMarks> {
    if fault == NoMarks::NoMemory {
        return Err(NoMarks::NoMemory);
    }
    let place = format!(in alloc; "{folder}{path}")?;
    match fs::read_dir(rt, place.as_str()) {
        Err(error)
            if error.kind() == ErrorKind::NotFound || error.kind() == ErrorKind::PermissionDenied =>
            { Ok(()) }
        _ => Err(NoMarks::Away),
    }
}

// Lists a folder: its files go to what was found, the folders in it to the next level.
fn list_folder<R: Files + AllocGlobal + Clone + Drop>(
    rt: &R,
    alloc: Global,
    folder: &str,
    path: &str,
    found: &mut Marks,
    next: &mut Vec<String>,
) -> Result<(), NoMarks> {
    let place = format!(in alloc; "{folder}{path}")?;
    // The time comes before the list, so that a change within it shows at the next glance.
    let changed = fs::metadata(rt, place.as_str())?.modified().ok();
    found
        .folders
        .insert(String::from_str(alloc, path)?, changed)?;
    for entry in fs::read_dir(rt, place.as_str())? {
        match entry {
            Ok(entry) => take_entry(rt, alloc, path, &entry, found, next)?,
            Err(error) if error.kind() == ErrorKind::InvalidFilename => {}
            Err(error) => return Err(NoMarks::from(error)),
        }
    }
    Ok(())
}

// Takes what a name in a folder stands for.
fn take_entry<R: Files + AllocGlobal + Clone + Drop>(
    rt: &R,
    alloc: Global,
    path: &str,
    entry: &DirEntry<R, Global>,
    found: &mut Marks,
    next: &mut Vec<String>,
) -> Result<(), NoMarks> {
    let name = entry.file_name();
    if is_passed(name) {
        return Ok(());
    }
    let data = match entry.metadata() {
        Ok(data) => data,
        Err(error) if error.kind() == ErrorKind::NotFound => return Ok(()),
        Err(error) => return Err(NoMarks::from(error)),
    };
    if data.is_dir() {
        let path = format!(in alloc; "{path}/{name}")?;
        if path.len() <= PATH_BYTES {
            next.push(path)?;
        }
        return Ok(());
    }
    if !is_followed(name) {
        return Ok(());
    }
    if let Some(mark) = mark_of(rt, entry.path().as_str(), data) {
        let path = format!(in alloc; "{path}/{name}")?;
        found.files.insert(path, mark)?;
    }
    Ok(())
}

// The mark of what has this metadata at a place, where that is a file or a link to one.
fn mark_of<R: Files>(rt: &R, place: &str, data: Metadata) -> Option<Mark> {
    let is_link = data.is_symlink();
    let data = if is_link {
        match fs::metadata(rt, place) {
            Ok(target) => target,
            Err(_) => data,
        }
    } else {
        data
    };
    if !data.is_file() {
        return None;
    }
    Some(Mark {
        length: data.len(),
        changed: data.modified().ok(),
        is_link,
    })
}

/// The mark of the file at a path of the folder; None where there is no file now.
pub(crate) fn mark_at<R: Files>(
    rt: &R,
    alloc: Global,
    folder: &str,
    path: &str,
) -> Result<Option<Mark>, AllocError> {
    let place = format!(in alloc; "{folder}{path}")?;
    match fs::symlink_metadata(rt, place.as_str()) {
        Ok(data) => Ok(mark_of(rt, place.as_str(), data)),
        Err(error) if error.kind() == ErrorKind::OutOfMemory => Err(AllocError),
        Err(_) => Ok(None),
    }
}

/// The time of the last change of the folder at a path; None where there is none now.
pub(crate) fn folder_change<R: Files>(
    rt: &R,
    alloc: Global,
    folder: &str,
    path: &str,
) -> Result<Option<SystemTime>, AllocError> {
    let place = format!(in alloc; "{folder}{path}")?;
    match fs::metadata(rt, place.as_str()) {
        Ok(data) => Ok(data.modified().ok()),
        Err(error) if error.kind() == ErrorKind::OutOfMemory => Err(AllocError),
        Err(_) => Ok(None),
    }
}

// Whether a file of this name is one that pages are made of.
fn is_followed(name: &str) -> bool {
    name.ends_with(".js")
        || name.ends_with(".mjs")
        || name.ends_with(".css")
        || name.ends_with(".json")
        || name.ends_with(".html")
        || name.ends_with(".htm")
}

// Whether what has this name is never looked at.
fn is_passed(name: &str) -> bool {
    name.starts_with('.') || name == "node_modules"
}
