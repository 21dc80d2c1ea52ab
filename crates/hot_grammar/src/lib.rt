//! The reader of module texts: what the grammar tells of the tokens of a text, or where they leave it.
//!
//! [`read_items`] reads items, statements and expressions by recursive descent, one token ahead. What it
//! gives has each name where it stands; what a name means isn't asked.
//!
//! Stands on `hmr_types`, for names and texts, on `module_tree`, for operators, on `token_kinds`, for the
//! tokens, on `raw_trees`, for what it gives, and on `module_semantics`, whose `reading` it computes; the laws
//! there say that this is the grammar. Keeps: a fault stands at the first token that can't stand there. Knows
//! nothing of lexing, of name rules or of module trees.
#![tactic(auto)]

mod act;
mod block;
mod callback;
mod expression;
mod grammar_fault;
mod hot;
mod hot_call;
mod import;
mod item;
mod kinds;
mod level;
mod module_items;
mod tokens;

pub use grammar_fault::GrammarFault;
pub use module_items::read_items;
