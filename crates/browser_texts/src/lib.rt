//! What a browser is sent of a file: the file's own text, but for a few ranges.
//!
//! A module is linked to the instances that a plan tells, so its specifiers lead to their URLs; what it does
//! by `import.meta.hot` and `import(..)` goes through the page's client; so is a stylesheet by its `@import`s.
//! All else is byte for byte the file's.
//!
//! Stands on `es_scan` and `css_scan`, for the outlines of texts, on `file_names` and `page_addresses`, for where
//! specifiers and addresses lead, on `instance_urls` and on `text_splices`. Keeps: nothing but the ranges of
//! [`script_splices`] is changed, and of a stylesheet nothing but addresses. Only a call that can return
//! `AllocError` takes memory. Knows nothing of versions, requests and of what a module does.
#![tactic(auto)]

mod calls;
mod script;
mod specifiers;
mod style;
mod words;

pub use script::{is_plain, script_splices, script_text};
pub use style::style_text;
