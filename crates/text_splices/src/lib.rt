//! A text with something else in the place of some of its ranges, and where its other bytes stand then.
//!
//! Stands on `hmr_types`. Keeps: the bytes outside the ranges are those of the text, in their order, and on their
//! lines where no replacement has more or fewer line feeds than its range ([`splices_change_nothing_else`]).
//! Knows nothing of what a text means.
#![tactic(auto)]

mod laws;
mod splice;
mod splicing;

pub use laws::splices_change_nothing_else;
pub use splice::Splice;
pub use splicing::spliced;
