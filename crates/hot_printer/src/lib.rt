//! The printer: the canonical text of a module's tree.
//!
//! [`print`] writes the items one after the other into one buffer. Each production has a function of
//! its own, which puts its text behind what was written before.
//!
//! Stands on `hmr_types`, for the tree, and on `module_semantics`, whose `canon` it computes; the laws
//! there say what a canonical text is. Keeps: what is written is never changed again. Knows nothing of
//! how a text is read.
#![tactic(auto)]

mod expression;
mod handler;
mod item;
mod module;
mod names;
mod statement;
mod text;

pub use module::print;
