//! The desk of a page that stays open, and the board of a worker whose results pages wait for.
//!
//! A [`LiveDesk`] stands round a desk of the hub: an ask to which there is nothing to say waits until a bell
//! rings, or for 25 seconds, and is then dealt again. What each exchange shows of the page goes to the news.
//! A [`LiveBoard`] stands round a board of the hub: it waits until there is a job for it, and rings for each
//! result. The fault of a text that it tells the hub goes to the news.
//!
//! Stands on `session_desks` for desks and boards, on `live_context` for the bell and the news, on
//! `live_lines` for what an exchange shows, and on `live_site` for the names that a text imports. Keeps:
//! each answer is one that the hub's desk dealt, the last where an ask was dealt twice, and the first of the
//! two was idle; over any number of answers a desk's pass goes on by just the events of the messages that
//! were dealt; the pass and the hub are those of the desk and the board within. Where memory runs out what is
//! told is lost, and never an answer. A call takes memory only where its result or its comment says that
//! memory can run out. Knows nothing of links, of folders or of how news are written.
#![tactic(auto)]

mod board;
mod dealings;
mod desk;
mod exchange;

pub use board::LiveBoard;
pub use dealings::Dealings;
pub use desk::LiveDesk;
