//! What a stylesheet imports, read off its text alone: the addresses of its `@import` rules with their
//! places.
//!
//! One pass over the head of the text by the tokens of CSS Syntax, up to the first rule behind which no
//! `@import` counts; no tree is made. Stands on nothing. Keeps: each address is what stands between the
//! quotes or the parentheses at its place, and addresses rise. Knows nothing of what addresses mean.
#![tactic(auto)]

mod address;
mod bytes;
mod components;
mod escapes;
mod outline;
mod rules;
mod scanning;
mod skipping;
mod words;

pub use outline::{Quoting, Span, StyleImport, StyleOutline};
pub use scanning::scan_style;
