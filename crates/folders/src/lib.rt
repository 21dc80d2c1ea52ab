//! Folders of files: a folder is opened, what is in it and below it is listed, and its files are read.
//!
//! A [`Tree`] gives the folder, its [`Entry`]s and the bytes of its files. [`FolderTree`] is the file system
//! of std, whose later `open`s wait until something changed. [`MemTree`] holds in memory what the folder
//! has at each `open`, and tells it to contracts.
//!
//! Stands on `hmr_base` for refusals, for the plan of failing calls and for what is read of a file. Keeps: a
//! tree fails only where its count of faults rises, the form in memory exactly where its plan says; a folder
//! or a file that is asked for was given by the tree. A call takes memory only where its result can say that
//! memory ran out. Knows nothing of modules, of which files are wanted, nor of versions.
#![tactic(auto)]

mod folder_tree;
mod mem_tree;
mod tree;

pub use folder_tree::{FolderDir, FolderFile, FolderTree};
pub use hmr_base::OutFault;
pub use mem_tree::{MemDir, MemFile, MemPlace, MemTree};
pub use tree::{Entry, Node, Reading, Tree};
