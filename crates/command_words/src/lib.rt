//! The words of the command line: which of them are a command, and which command they are.
//!
//! The first word names the command, and those behind it are read by `clap` as the words of one simple
//! command without help and version. Stands on `hmr_types` for names of modules and on `core_model` for
//! what the roots of a page may be. Keeps: [`read_words`] is the definition `command_of`, unless memory
//! runs out. Knows nothing of what a command does.
#![tactic(auto)]

mod command;
mod found;
mod grammars;
mod plain;
mod reading;
mod roots;
mod serving;
mod usage_line;

pub use command::{Command, ServePlan, WordsFault};
pub use plain::plain_words;
pub use reading::read_words;
pub use usage_line::usage;
