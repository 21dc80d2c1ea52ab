// Glances at a folder: whether anything may have changed, told by a part of what is known of it.
//
// A whole look asks the file system of each file, which takes milliseconds where there are thousands. A
// glance asks of the folders, of the files that changed lately, and of the next few of all files in turn: so
// it sees at once whatever is made, taken away or put in another's place, and what changes again, and any
// other change once its file's turn has come.
use crate::marks::{Marks, folder_change, mark_at};
use std::alloc::{AllocError, Global};
use std::rt::Files;

/// How many files are looked at in turn.
const FILES_AT_ONCE: usize = 128;

/// How many files that changed lately are looked at.
const LATE_FILES: usize = 64;

/// How many glances there are before a whole look, and before one that follows a change: a folder that is
/// changed twice within a tick of the file system's clock may look as if it were changed once.
const MOST_GLANCES: u32 = 100;

const GLANCES_AFTER_CHANGE: u32 = 10;

/// Where the glances at a folder are.
#[derive(Drop)]
pub(crate) struct Glances {
    // How many more there may be before a whole look.
    left: u32,
    // How many of the files were looked at in turn.
    turn: usize,
    // The paths of files that changed lately, the last first.
    late: Vec<String>,
}

impl Glances {
    /// No glance comes before a whole look.
    pub fn new(alloc: Global) -> Glances {
        Glances {
            left: 0,
            turn: 0,
            late: Vec::new(alloc),
        }
    }

    /// There was a whole look, at which the files of these paths had changed.
    pub fn note_look(&mut self, alloc: Global, changed: &[String]) -> Result<(), AllocError> {
        if changed.is_empty() {
            self.left = MOST_GLANCES;
            return Ok(());
        }
        self.late = later_files(alloc, changed, &self.late)?;
        self.left = GLANCES_AFTER_CHANGE;
        Ok(())
    }

    /// The next look is a whole one.
    pub fn end(&mut self) {
        self.left = 0;
    }

    /// Whether a glance shows all as it is known; false where a whole look is due.
    pub fn are_quiet<R: Files>(
        &mut self,
        rt: &R,
        alloc: Global,
        folder: &str,
        known: &Marks,
    ) -> Result<bool, AllocError> {
        if self.left == 0 {
            return Ok(false);
        }
        self.left -= 1;
        let from = self.turn;
        self.turn = next_turn(from, known.files.len());
        Ok(
            are_known(rt, alloc, folder, known, &self.late)?
                && are_next_known(rt, alloc, folder, known, from)?,
        )
    }
}

// The place of the next file whose turn it is, behind those from this place on.
fn next_turn(from: usize, files: usize) -> usize {
    let next = from.saturating_add(FILES_AT_ONCE);
    if next < files { next } else { 0 }
}

// The paths of files that changed now, and then of those that changed before.
fn later_files(
    alloc: Global,
    changed: &[String],
    before: &[String],
) -> Result<Vec<String>, AllocError> {
    let mut late = Vec::new(alloc);
    for path in changed.iter().take(LATE_FILES) {
        late.push(String::from_str(alloc, path.as_str())?)?;
    }
    for path in before {
        if late.len() >= LATE_FILES {
            return Ok(late);
        }
        if !late.contains(path) {
            late.push(String::from_str(alloc, path.as_str())?)?;
        }
    }
    Ok(late)
}

/// Whether the folders, and the files of these paths, are as they are known.
pub(crate) fn are_known<R: Files>(
    rt: &R,
    alloc: Global,
    folder: &str,
    known: &Marks,
    paths: &[String],
) -> Result<bool, AllocError> {
    Ok(
        are_folders_known(rt, alloc, folder, known)?
            && are_files_known(rt, alloc, folder, known, paths)?,
    )
}

fn are_folders_known<R: Files>(
    rt: &R,
    alloc: Global,
    folder: &str,
    known: &Marks,
) -> Result<bool, AllocError> {
    for (path, changed) in &known.folders {
        if folder_change(rt, alloc, folder, path.as_str())? != *changed {
            return Ok(false);
        }
    }
    Ok(true)
}

fn are_files_known<R: Files>(
    rt: &R,
    alloc: Global,
    folder: &str,
    known: &Marks,
    paths: &[String],
) -> Result<bool, AllocError> {
    for path in paths {
        if mark_at(rt, alloc, folder, path.as_str())? != known.files.get(path).copied() {
            return Ok(false);
        }
    }
    Ok(true)
}

// Whether the files from this place on, in the order of their paths, are as they are known.
fn are_next_known<R: Files>(
    rt: &R,
    alloc: Global,
    folder: &str,
    known: &Marks,
    from: usize,
) -> Result<bool, AllocError> {
    for (path, mark) in known.files.iter().skip(from).take(FILES_AT_ONCE) {
        if mark_at(rt, alloc, folder, path.as_str())? != Some(*mark) {
            return Ok(false);
        }
    }
    Ok(true)
}
