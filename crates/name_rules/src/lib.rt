//! The rules on names, and what each name means: of a module text that has the grammar, the first place that
//! breaks a rule, and its tree.
//!
//! [`first_broken`] goes over a text's items once. [`module_tree`] gives each name its meaning, which hangs on
//! where it stands. Stands on `raw_trees`, for the items, on `module_tree`, for the tree, and on
//! `module_semantics`, whose `first_broken` and `module_tree` they compute. Keeps: a name is looked up in a
//! table, so that many names take no more than their number and its logarithm. Knows nothing of tokens, of
//! the grammar, of lines or of faults of a text.
#![tactic(auto)]

mod alone;
mod name_table;
mod names;
mod resolving;
mod within;

pub use names::{Broken, NameRule, first_broken};
pub use resolving::module_tree;
