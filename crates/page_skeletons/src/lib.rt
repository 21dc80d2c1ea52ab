//! Pages, stylesheets and data as modules: the skeletons by which the core plans them.
//!
//! A page imports its module scripts, what its inline modules import, its classic scripts, the targets of its
//! import map that are files of the folder, and its stylesheets; these it accepts, so that a saved stylesheet is
//! exchanged in place. A stylesheet imports those of its `@import` rules. Stands on `html_scan`, `css_scan` and
//! `es_scan` for what stands in the texts, on `page_addresses` for where addresses lead, and on `skeletons`, whose
//! clauses say what the core learns of each. Keeps: nothing. Knows nothing of versions, requests and URLs of
//! instances.
#![tactic(auto)]

mod addresses;
mod folder;
mod import_map;
mod page;
mod style;

pub use folder::Folder;
pub use import_map::import_targets;
pub use page::page_skeleton;
pub use style::{data_skeleton, style_skeleton};
