//! The result of a transform: a module's name, its text and its outcome.
//!
//! Who transforms a text and who uses the result both stand on this crate, so that the server's core needs
//! no parser. Stands on `module_semantics` for the definition `transformed`. Keeps: the outcome of a
//! [`Transformed`] is always the definition's value of its name and text; a caller can't make one with
//! another. A call takes memory only where its result can say that memory ran out. Knows nothing of how a
//! text is read.
#![tactic(auto)]

mod transformed;

pub use transformed::Transformed;
