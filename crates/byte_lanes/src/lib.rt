//! Classes of bytes and runs of them, 64 bytes at a time.
//!
//! A block of 64 bytes is compared in one go, and the answer is a mask with a bit for each byte. What
//! is left at a text's end, fewer than 64 bytes, goes byte by byte. No call takes memory or refuses.
//!
//! Stands on `module_semantics`, whose classes of bytes and line feeds these are. Keeps: each call is
//! its plain definition over the list of bytes, at every length. Knows nothing of tokens.
#![tactic(auto)]

mod class;
mod lines;
mod masks;
mod search;

pub use class::Class;
pub use lines::{count_newlines, line_starts};
pub use masks::{ClassMasks, classes};
pub use search::{first_not, first_of};
