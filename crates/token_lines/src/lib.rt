//! The tokens of a text as the grammar takes them.
//!
//! [`line_tokens`] tells each token's kind, and whether it begins a line. Stands on `hot_lexer`, for the
//! tokens, on `token_kinds`, for what it makes of them, on `byte_lanes`, for the line feeds between them, and
//! on `module_semantics`, whose `line_tokens` it computes. Keeps: the kind of a token is that of its word.
//! Knows nothing of how a text is cut into tokens, or of the grammar.
#![tactic(auto)]

mod line_token;
mod token_kind;

pub use line_token::line_tokens;
