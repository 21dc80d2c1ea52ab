//! The client runtime at each answer: what a client's page becomes by what its server tells it.
//!
//! Stands on which messages answer a request (`answer_kinds`), on where a plan begins (`plan_starts`) and goes on
//! (`plan_steps`), and on what a runtime does at other answers (`runtime_answers`) and outside a plan
//! (`runtime_events`). Keeps: a runtime takes each answer to its request as the definitions' client does, and its
//! lines are theirs. A call takes memory only where its result can say that memory ran out. Knows nothing of
//! links, of bytes or of other clients.
#![tactic(auto)]

mod answering;
mod taking;

pub use taking::take;
