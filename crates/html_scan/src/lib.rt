//! What a page of HTML loads and holds, read off its text alone: its module scripts, classic scripts, import
//! maps and stylesheets with their places, and where a first script goes.
//!
//! One pass over the bytes by the tokens of the HTML standard; no tree is made. Stands on nothing. Keeps: tags,
//! values and contents are what stands at their places, and they rise. Knows nothing of what addresses mean,
//! nor of what stands in scripts.
#![tactic(auto)]

mod attributes;
mod bytes;
mod comments;
mod context;
mod elements;
mod links;
mod outline;
mod raw_text;
mod scanning;
mod script_types;
mod tokens;
mod values;

pub use outline::{Attribute, PageItem, PageOutline, PagePart, Quoting, Span};
pub use scanning::scan_page;
pub use values::attribute_value;
