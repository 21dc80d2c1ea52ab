//! The first fault of a module text, with its line and column.
//!
//! Stands on `hmr_types`, for the words of faults, on `byte_lanes`, for the line of a fault, and on
//! `module_semantics`, whose `fault_at` it computes; by the laws there it says what a fault means of the
//! whole text (`proofs/Meant.antt`). Keeps: out of memory is told apart from the faults of a text, and has no
//! place. A call takes no memory. Knows nothing of how a text is read.
#![tactic(auto)]

mod syntax_fault;

pub use syntax_fault::{SyntaxFault, SyntaxKind, fault_at};
