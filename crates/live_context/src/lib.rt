//! What a live server is given, what its threads share while it runs, and how it ends.
//!
//! A [`LivePlan`] says what is to be done, a [`Folder`] and a [`Supply`] are what there is of the outside,
//! and a [`Terminal`] is where news are told and keys come from. A [`Context`] is what each part of a running
//! server is passed. In it is a [`Shared`], which each of its threads has: the site and the port, the
//! [`Bell`] at which whoever waits for a change of the hub waits, and a [`NewsBoard`], from which one thread
//! takes what there is to tell. A [`LiveReport`] says how the server ended, and why: a [`LiveEnd`], as which
//! the faults of its parts are read.
//!
//! Stands on `hmr_hub` and `transform_pool` for the hub and the queue of a server, on `doors` for the fault
//! of a door, on `live_lines` for news and on `live_site` for the site. Keeps: each wait at a bell ends by
//! itself, but the one for a job; where memory runs out news are lost, and nothing else is. A call takes
//! memory only where its result or its comment says that memory can run out. Knows nothing of links, of how
//! a folder is looked at, of how news are written, nor of the command line.
#![tactic(auto)]

mod bell;
mod context;
mod news_board;
mod outside;
mod plan;
mod shared;
mod terminal;

pub use bell::Bell;
pub use context::Context;
pub use news_board::NewsBoard;
pub use outside::{Folder, Supply};
pub use plan::{LiveEnd, LivePlan, LiveReport};
pub use shared::Shared;
pub use terminal::{Key, Terminal};
