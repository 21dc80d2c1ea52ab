//! Modules over HTTP: what is served of a version map, with the versions of imports in their specifiers.
//!
//! Stands on the sources of modules (`version_map`), on the parser and the printer, and on `http_exchange`,
//! which reads heads and writes answers. Keeps: a body is the canonical text of the rewritten module of what
//! is served, and reads as it (`rewritten_reads_back`). Knows nothing of folders, of clients or of what
//! carries the bytes.
#![tactic(auto)]

mod laws;
mod modules;
mod rewriting;
mod serving;

pub use http_exchange::HttpEnd;
pub use laws::rewritten_reads_back;
pub use modules::Modules;
pub use rewriting::rewrite;
pub use serving::{answer_to, serve_http};
