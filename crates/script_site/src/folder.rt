// Which files a folder has.
use file_names::file_path;
use hmr_types::ModName;
use live_answers::{Files, Found};
use page_skeletons::Folder;
use std::alloc::{AllocError, Global};

/// The files of a folder, by the names of their modules. At the first look at a folder a page is read
/// before the files behind it in the order of names, so what a page may import is asked of the files
/// themselves.
#[derive(Drop)]
pub(crate) struct NamedFiles<'a, F: Drop> {
    pub alloc: Global,
    pub files: &'a F,
}

impl<F: Files + Drop> Folder for NamedFiles<'_, F> {
    /// Whether the file is there. Where memory runs out it isn't. It takes the memory of the file.
    fn has(&self, name: &ModName) -> bool {
        matches!(found(self.alloc, self.files, name), Ok(Found::File(_)))
    }
}

fn found<F: Files>(alloc: Global, files: &F, name: &ModName) -> Result<Found, AllocError> {
    let path = file_path(alloc, name)?;
    if is_open(&path) {
        files.find(alloc, &path)
    } else {
        Ok(Found::Missing)
    }
}

// Whether no part of a path is empty or begins with a dot.
fn is_open(path: &[u8]) -> bool {
    let mut before = 0u8;
    for byte in path {
        if before == b'/' && (*byte == b'/' || *byte == b'.') {
            return false;
        }
        before = *byte;
    }
    before != b'/'
}
