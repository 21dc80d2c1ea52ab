//! A server of a folder: its modules are edits of one hub, and so is what changes in it; sessions answer
//! clients over a net, and workers transform the texts.
//!
//! [`serve`] is the whole of a task, from the first scan to the report, over an [`Outside`]. Stands on
//! `folder_edits` for the edits and the report, whose definitions say what it did and wrote, and on
//! `serve_crew` for the jobs in threads. Keeps: what is written is the report of one transcript, which
//! begins with the first scan and has each later edit once and in order; a status of failure comes only where
//! the count of what failed rose. A call takes memory only where its result can say that memory ran out.
//! Knows nothing of the command line, nor of what carries a connection.
#![tactic(auto)]

mod outside;
mod plan;
mod running;
mod top;

pub use folder_edits::ServeStop;
pub use outside::Outside;
pub use plan::{Plan, ServeTask};
pub use top::serve;
