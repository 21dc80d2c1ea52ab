//! What the server keeps of one client, and what each request and each change of the sources makes of
//! it.
//!
//! Stands on the modules of a page and their marks, on plans, on how far a change spreads, on what a
//! client has in store, and on the sources. Keeps: a [`ClientRecord`] is what the definitions of the
//! core have of its client, before and after each call; where memory runs out it stays as it was. Only a
//! call that can return `AllocError` takes memory. Knows nothing of other clients, of numbers given to
//! clients or of bytes on a wire.
#![tactic(auto)]

mod abort;
mod answer;
mod apply;
mod ask;
mod begin;
mod client_record;
mod fetch;
mod invalidate;
mod notices;
mod prune;
mod renew;
mod row;

pub use answer::Answer;
pub use client_record::ClientRecord;
