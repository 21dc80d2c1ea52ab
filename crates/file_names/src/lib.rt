//! Files of a folder as modules: the name of the module that stands for a file, and the module that a
//! specifier of a real JavaScript module leads to.
//!
//! Names of modules have few bytes, so those of files are encoded: [`module_name`] and [`file_path`] are each
//! other's way back. A specifier is read as browsers read URLs: [`resolve_specifier`] says which it leads to of
//! the modules of the folder, and that it leads to none where it is a bare one or a URL of its own.
//!
//! Stands on `hmr_types`, for names, and on `percent_encoding`. Keeps: no two paths have one name, and a path
//! of the bytes of names alone is its own name. Knows nothing of what is in a folder, nor of how JavaScript is
//! read.
#![tactic(auto)]

mod file_name;
mod specifier;

pub use file_name::{file_path, module_name, names_tell_their_files};
pub use specifier::resolve_specifier;
