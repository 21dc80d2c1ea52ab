//! The editor of a server: who makes all edits, and sees that each has its result.
//!
//! [`open_sources`] makes the first edits of a hub and settles their jobs. An [`Editor`] makes later edits
//! while workers run, calling the hub as a [`HubCaller`] says: it puts the job of each into their queue, and
//! works itself what the queue has no place for, what it hands back and what is left at the end. Stands on
//! `hmr_hub`, whose pass with the number 0 it uses, and on `transform_pool`. Keeps: under the editor's number
//! the transcript has each edit once and in order, and at most one result of each job; at the end each name's
//! last job has its result. A call takes memory only where its result can say that memory ran out. Knows
//! nothing of folders, scripts or threads.
#![tactic(auto)]

mod caller;
mod editing;
mod editor;
mod opening;
mod stop;
mod telling;
mod work;
mod worked;
mod working;

pub use caller::HubCaller;
pub use editor::Editor;
pub use opening::open_sources;
pub use stop::EditStop;
