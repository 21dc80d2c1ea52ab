//! The tree of a module text: what a parser gives, a printer writes and an evaluator runs, with copies
//! of each of its parts.
//!
//! Stands on `hmr_types`. Keeps: a tree is read by contracts as plain data (`module_of` and the folds of
//! its parts), so no clause compares pointers; what is long is copied and dropped by loops, and only what
//! is nested costs stack. Knows nothing of tokens, of evaluation or of clients.
#![tactic(auto)]

mod tree;

pub use tree::{Cond, Expr, HandlerCode, ImportName, Item, Module, Once, Op, Stmt, copy_stmts};
