// The files of a folder of the file system.
ghost use Rattle.std.specs.Prelude.{⊤};

use crate::files::{FILE_BYTES, Files};
use crate::found::Found;
use hmr_base::{ReadFault, StdSource, read_all};
use std::alloc::{AllocError, Global};
use std::fs::File;
use std::io::ErrorKind;
use std::path::Path;
use std::{fs, io, rt};

/// The files in a folder of the file system, and below it. A link is followed where what it leads to is in
/// the folder too; what is outside of the folder, or neither file nor folder, isn't there. It tells nothing
/// of them.
#[derive(Clone, Debug, Drop)]
pub struct FolderFiles<R: Drop> {
    rt: R,
    folder: String,
}

impl<R: rt::Files + AllocGlobal + Drop> FolderFiles<R> {
    /// The files in this folder, which is looked at anew for each path.
    pub fn new(rt: R, folder: String) -> Self {
        FolderFiles { rt, folder }
    }
}

impl<R: rt::Files + AllocGlobal + Drop> Files for FolderFiles<R> {
    ghost gives = { λ _ _ _. ⊤ };

    fn find(&self, alloc: Global, path: &[u8]) -> Result<Found, AllocError> {
        let Ok(path) = str::from_utf8(path) else {
            return Ok(Found::Missing);
        };
        let whole = format!(in alloc; "{}{path}", self.folder)?;
        match look(&self.rt, alloc, &self.folder, &whole) {
            Ok(found) => Ok(found),
            Err(error) => found_at(error),
        }
    }
}

// What is at a path, where it is in the folder.
fn look<R: rt::Files + AllocGlobal>(
    rt: &R,
    alloc: Global,
    folder: &str,
    path: &str,
) -> io::Result<Found> {
    let folder = Path::new(folder).canonicalize(rt)?;
    let place = Path::new(path).canonicalize(rt)?;
    if !place.starts_with(&folder) {
        return Ok(Found::Missing);
    }
    let data = fs::metadata(rt, &place)?;
    if data.is_dir() {
        return Ok(Found::Folder);
    }
    if !data.is_file() {
        return Ok(Found::Missing);
    }
    let file = File::open(rt, &place)?;
    match read_all(alloc, &mut StdSource::new(file), FILE_BYTES) {
        Ok(text) => Ok(Found::File(text)),
        Err(ReadFault::NoMemory) => Err(io::Error::from(ErrorKind::OutOfMemory)),
        Err(_) => Ok(Found::Unread),
    }
}

// What is found where the file system answers by an error.
fn found_at(error: io::Error) -> Result<Found, AllocError> {
    match error.kind() {
        ErrorKind::OutOfMemory => Err(AllocError),
        ErrorKind::NotFound | ErrorKind::NotADirectory => Ok(Found::Missing),
        _ => Ok(Found::Unread),
    }
}
