// A folder and all below it. Contracts see which folder was asked for, how often a call failed and, where
// the tree tells them, the files that the folder has: each path, from the folder on, with its bytes.
ghost use Rattle.std.specs.Prelude.{◌≡◌, ◌≤◌, [], List, ℕ, Option, Some, false};
ghost use Rattle.std.specs.Prelude.{IfOk, IfSome, OnOk, OnErr, MatchOption, IfNone};
ghost use Rattle.std.specs.Option.{option_map};
ghost use Rattle.hmr_base.specs.OutCauses.{HasOutCause, is_failed};
ghost use Rattle.hmr_base.specs.Plans.{AsPlanned, Plan};
ghost use Rattle.folders.specs.Entries.{IsListed};
ghost use Rattle.folders.specs.Files.{MayOpen, files_after, is_gone, next_files};
ghost use Rattle.folders.specs.Readings.{HasRead, IsWithin};

use crate::OutFault;
use std::alloc::Global;

/// What a name in a folder stands for.
#[derive(Debug, Drop)]
pub enum Node<D, F> {
    /// A folder.
    Dir(D),
    /// A file.
    File(F),
}

/// A name in a folder, with what it stands for.
#[derive(Debug, Drop)]
pub struct Entry<D, F> {
    /// The name, which has no slash.
    pub name: String,
    /// The folder or the file of this name.
    pub node: Node<D, F>,
}

/// What reading a file gives.
#[derive(Debug, Drop)]
pub enum Reading {
    /// Its bytes.
    Text(Vec<u8>),
    /// It has more bytes than the limit.
    TooLong,
    /// It was listed, and is gone by now.
    Gone,
}

/// A folder and all below it.
pub trait Tree {
    /// A folder that the tree gave.
    type Dir: Drop;

    /// A file that the tree gave.
    type File: Drop;

    // How often it has failed.
    ghost faults: { Self → ℕ };
    // Which calls are to fail, where it tells that.
    ghost plan: { Self → Option Plan };
    // The folder of each `open` so far.
    ghost asked: { Self → Option (List ℕ) };
    // Where it tells them, the files at the next `open` and at each after it, the last of which stays.
    ghost coming: { Self → Option (List (List (List ℕ × List ℕ))) };
    // Where it tells them, the files of the folder that is open.
    ghost files: { Self → Option (List (List ℕ × List ℕ)) };
    // The path of a folder, empty for the one that was opened.
    ghost dir_path: { Self.Dir → List ℕ };
    // The path of a file, which begins with a slash.
    ghost file_path: { Self.File → List ℕ };

    /// Opens the folder, which is the same at each call. It may wait.
    ///
    /// `Failed` comes only where the count of faults rose in this call, `NoMemory` where memory ran out.
    fn open(&mut self, alloc: Global, folder: &str) -> Result<Self::Dir, OutFault>
        requires may { MayOpen (asked self.old) folder.now }
        ensures asked { OnOk result (asked self.new ≡ Some folder.now) }
        ensures no_other { MayOpen (asked self.new) folder.now }
        ensures root { IfOk result (λ dir. dir_path dir ≡ []) }
        ensures files { OnOk result (files self.new ≡ option_map next_files (coming self.old)) }
        ensures coming { OnOk result (coming self.new ≡ option_map files_after (coming self.old)) }
        ensures files_stay { OnErr result (files self.new ≡ files self.old) }
        ensures coming_stays { OnErr result (coming self.new ≡ coming self.old) }
        ensures cause { HasOutCause (faults self.old) (faults self.new) result }
        ensures planned { AsPlanned (plan self.old) (plan self.new) (is_failed result) false };

    /// What is in a folder. A file whose name or kind can't be told is left out.
    ///
    /// `Failed` comes only where the count of faults rose in this call, `NoMemory` where memory ran out.
    fn list(
        &mut self,
        alloc: Global,
        dir: &Self::Dir,
    ) -> Result<Vec<Entry<Self::Dir, Self::File>>, OutFault>
        ensures listed { IfOk result
            (λ entries. IfSome (files self.old)
            (λ files. IsListed dir_path file_path files (dir_path dir.now) entries.items)) }
        ensures asked { asked self.new ≡ asked self.old }
        ensures files { files self.new ≡ files self.old }
        ensures coming { coming self.new ≡ coming self.old }
        ensures cause { HasOutCause (faults self.old) (faults self.new) result }
        ensures planned { AsPlanned (plan self.old) (plan self.new) (is_failed result) false };

    /// The bytes of a file, where it has at most `limit` bytes and is still there. A tree that tells its
    /// files never says that one is gone: there a file that isn't among them is a fault.
    ///
    /// `Failed` comes only where the count of faults rose in this call, and `NoMemory` where memory ran out.
    fn read(&mut self, alloc: Global, file: &Self::File, limit: usize) -> Result<Reading, OutFault>
        ensures bound { IfOk result (IsWithin limit) }
        ensures told { IfOk result
            (λ reading. IfSome (files self.old)
            (λ files. HasRead files (file_path file.now) limit reading)) }
        ensures asked { asked self.new ≡ asked self.old }
        ensures files { files self.new ≡ files self.old }
        ensures coming { coming self.new ≡ coming self.old }
        ensures cause { HasOutCause (faults self.old) (faults self.new) result }
        ensures planned { AsPlanned (plan self.old) (plan self.new) (is_failed result)
            (is_gone (files self.old) (file_path file.now)) };
}
