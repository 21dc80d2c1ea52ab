//! The module language of this repository as a client's language: the five functions that the
//! definitions of a client take, each made of the definitions of `module_semantics`.
//!
//! Stands on `module_semantics` and `client_model`, and adds nothing to what a text means: it reads a
//! text by `parsing`, and hands the answers over in the client's own records. Nothing here runs.
//! Keeps: each binding of a module's text is from one of the module's imports, and a bag stays a bag.
//! Knows nothing of the code that reads texts, of instances or of versions.
#![tactic(auto)]

pub mod examples;
pub mod laws;
