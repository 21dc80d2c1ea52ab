//! One instance of a module: what a client keeps of it, and how handlers come to it and leave it.
//!
//! It stands on the model of a client, on the tables of handlers and on the evaluator. Keeps: what is held
//! of an instance is always seen as one of the model's, and each step here as the model's step of the same
//! name; the text of a module is never kept. Only a call that can return `AllocError` takes memory. Knows
//! nothing of a page, of messages or of lines.
#![tactic(auto)]

mod hold;
mod instance;
mod leave;
mod marks;
mod module;
mod scope;
mod showing;
mod take;
mod values;

pub use instance::{Bound, Instance};
pub use marks::Mark;
pub use module::exports_in;
pub use scope::{imports_in, instance_at, slots_bound};
pub use showing::{tell_fate, tell_values};
pub use values::assign_all;
