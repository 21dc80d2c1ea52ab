//! That the check of records says yes of every record that is written: of the record of whatever events, as
//! the code has them, that have their places in a transcript.
//!
//! Stands on the agreement of the core and the check, and on the types of events, which keep what that
//! supposes: that names are names, that tables are tables, that a client's number has 32 bits and a version
//! 64, and that the outcome of a result is that of transforming its text. Keeps: nothing is supposed of roots
//! and events but what writing their record needs. No call takes memory. Knows nothing of how a record is
//! written or checked.
#![tactic(auto)]

mod confirming;
mod noting;

pub use confirming::records_are_confirmed;
