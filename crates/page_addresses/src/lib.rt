//! Where the addresses of pages and stylesheets lead: what stands in a `src`, in a `href`, in an `@import`.
//!
//! Stands on `hmr_types`, for names, and on `file_names`, for where specifiers lead. Keeps: an address leads to
//! the module to which the specifier leads that it stands for ([`resolve_address`]). Knows nothing of HTML and
//! CSS, nor of what is in a folder.
#![tactic(auto)]

mod address;

pub use address::resolve_address;
