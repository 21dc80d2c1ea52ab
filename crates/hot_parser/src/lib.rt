//! The parser: the tree of a module text, or its first fault.
//!
//! A text is lexed, then read by the grammar, then the rules on names are asked, and then each name
//! gets its meaning. [`print`], the way back, is handed on from `hot_printer`, and the faults from
//! `syntax_faults`.
//!
//! Stands on `module_tree`, for trees, on `module_semantics`, whose `parsing` it computes, on `hot_lexer`,
//! `token_lines` and `hot_grammar`, for the tokens and what the grammar tells of them (`token_kinds`,
//! `raw_trees`), and on `name_rules`, for what names mean. Keeps: the fault told is the first of the text. A
//! call takes memory only where its result can say that memory ran out. Knows nothing of files, of specifiers
//! or of evaluation.
#![tactic(auto)]

mod parsing;

pub use hot_printer::print;
pub use parsing::parse;
pub use syntax_faults::{SyntaxFault, SyntaxKind};
