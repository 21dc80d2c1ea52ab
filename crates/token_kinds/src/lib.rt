//! Tokens as the grammar takes them: each with its kind, what it tells, its place, and whether it begins a
//! line.
//!
//! Stands on `hmr_types`, for texts, and on `module_semantics`, whose `kind` it tells. Keeps: the kind of a
//! token is that of what it tells; a caller can't make one with another. Knows nothing of how a text is cut
//! into tokens, or of the grammar.
#![tactic(auto)]

mod kind;
mod line_token;
mod token_value;

pub use kind::Kind;
pub use line_token::LineToken;
pub use token_value::TokenValue;
