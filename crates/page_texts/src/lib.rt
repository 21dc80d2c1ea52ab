//! What a browser is sent of a page: its HTML, but for the client's tag and for a statement in inline modules.
//!
//! Stands on `hmr_types`, for names, on `text_splices` and on `itoa`. Keeps: nothing but these is put in, and
//! nothing is taken away. Knows nothing of how HTML is read: the places come from its outline.
#![tactic(auto)]

mod client_tag;
mod page;

pub use client_tag::{ClientTag, write_tag};
pub use page::page_text;
