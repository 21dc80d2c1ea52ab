//! That the core and the check of records agree, as one law: of the record of whatever a core was told, the
//! check says yes.
//!
//! Stands on the laws of the core and of records, and on the texts of messages. Nothing here runs: the law is
//! the clauses of a public function with an empty body, and the words that it needs beyond those stand in
//! specs/. Keeps: no clause supposes anything of a line or of a reply; the roots and the events are all that
//! is spoken of. Knows nothing of how a record is written or checked.
#![tactic(auto)]

mod agreement;

pub use agreement::records_are_confirmed;
