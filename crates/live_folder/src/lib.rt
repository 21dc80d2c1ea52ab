//! The files of a folder that pages are made of, as modules, as they change while a server runs.
//!
//! A [`Watched`] is looked at again and again, and each [`Look`] has what changed since the one before: the
//! modules with their new texts, the modules that are gone, and the files that were passed over, with the
//! cause. One file that can't be had doesn't keep the others. [`FolderMarks`] looks at a folder of the file
//! system, mostly by glances, [`MadePage`] puts a page to what another shows, and [`ToldLooks`] gives looks
//! that were made before.
//!
//! Stands on `file_names` for the modules that stand for files and on `hmr_base` for reading files. Keeps:
//! each text has at most 64 MiB. A call takes memory only where its result can say that memory ran out.
//! Knows nothing of edits, of hubs or of what a page has.
#![tactic(auto)]

mod folder_marks;
mod glances;
mod look;
mod made_page;
mod marks;
mod told_looks;
mod watched;

pub use folder_marks::FolderMarks;
pub use look::{Change, Look, PassedOver, SkipCause};
pub use made_page::MadePage;
pub use told_looks::ToldLooks;
pub use watched::Watched;
