//! Analysis and transforms: what a module imports, exports and accepts, and the result of a text.
//!
//! [`analyse`] tells it of a tree. [`transform`] parses a text and analyses its module; the result is
//! a `Transformed` of `transforms`.
//!
//! Stands on `hot_parser`, on `transforms`, and on `module_semantics` for the definitions `analysed` and
//! `transformed`. Keeps: each call gives the definition's value. A call takes memory only where its result
//! can say that memory ran out. Knows nothing of versions, of other modules or of clients.
#![tactic(auto)]

mod analysis;
mod specifiers;
mod transforming;

pub use analysis::analyse;
pub use module_semantics::ScanFault;
pub use transforming::transform;
