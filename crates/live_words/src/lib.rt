//! The words of `hmr dev`: what they ask for, what is wrong with them, and what is said of it.
//!
//! [`read_words`] reads them, [`fault_text`] says what is wrong with them, and [`help_text`] is the help. Stands
//! on `hmr_types` for names of modules and on `strsim` for the nearest of some words. Keeps: what is read can be
//! served, with 1 to 16 workers and with at most 16 modules of a made page, no two of which are equal; of the
//! options none is nearer to an unknown one than the one that is told. Knows nothing of folders and ports
//! themselves.
#![tactic(auto)]

mod dev_plan;
mod help;
mod nearest;
mod numbers;
mod option;
mod reading;
mod said;
mod words_fault;

pub use dev_plan::{DevPlan, Wanted};
pub use help::help_text;
pub use nearest::nearest_option;
pub use option::DevOption;
pub use reading::read_words;
pub use said::fault_text;
pub use words_fault::WordsFault;
