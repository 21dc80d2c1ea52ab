//! What an ECMAScript module says to its importers and to a hot-reload server, read off its text alone: the
//! module specifiers with their places, the names that it imports and exports, its calls of
//! `import.meta.hot`, and where a bracket, literal or comment isn't closed.
//!
//! One pass over the bytes, by what may come next and a stack of what is open; no tree is made. Stands on
//! nothing. Keeps: each module specifier is a string literal of the text at its place, and they rise. Only
//! [`scan`] takes memory. Knows nothing of what specifiers mean, nor of how names are bound.
#![tactic(auto)]

mod blanks;
mod brackets;
mod bytes;
mod context;
mod export_declaration;
mod fault;
mod finding;
mod frames;
mod from_clause;
mod hot_calls;
mod identifiers;
mod import_call;
mod import_declaration;
mod keyword;
mod literals;
mod outline;
mod place;
mod punctuators;
mod scanning;
mod state;
mod string_literal;
mod tokens;
mod word_roles;
mod words;

pub use fault::{Fault, FaultKind};
pub use outline::{
    Accept, Accepted, ExportedName, ImportBinding, Imported, ModuleSpecifier, Outline, Phase,
    Purpose, Rows, Span,
};
pub use place::{Place, place_of};
pub use scanning::scan;
