//! Request heads: where one ends, and what it asks.
//!
//! Stands on `httparse`, whose grammar says what a head is, and on `memchr`. Keeps: bytes ask one thing at
//! most (`asks_are_unique`), the refusals come in a fixed order, and a search of bytes that come in pieces
//! never begins anew. No call takes memory. Knows nothing of modules, of answers or of where bytes come
//! from.
#![tactic(auto)]

mod asked;
mod cutting;
mod fields;
mod laws;
mod whole;

pub use asked::{Asked, TARGET_BYTES, judge};
pub use cutting::{Cut, HEAD_BYTES, find_head};
pub use laws::asks_are_unique;
