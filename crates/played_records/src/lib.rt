//! That `audit` says yes of what `record` writes, as one law: of the record of every script, whatever its
//! clients do.
//!
//! Stands on the definitions of the commands, on the laws of the world and of records, and on the agreement of
//! the core and the check. Nothing here runs: the law is the clauses of a public function that only calls
//! another law. Keeps: no clause supposes anything of a script but that it is one, has a root and is recorded
//! with status 0. Knows nothing of how a record is written or checked.
#![tactic(auto)]

mod scripts;

pub use scripts::records_of_scripts_are_confirmed;
