//! A session's desk and a worker's board over the hub.
//!
//! A [`HubDesk`] makes each message of a client one event of the hub, and answers by its reply; when the
//! session has ended it tells the hub that the client is gone. A [`HubBoard`] takes jobs from a queue and
//! tells the hub each result. Stands on `hmr_hub`, on `client_exchange`, on the queue of `transform_pool`,
//! and on what desks and boards are. Keeps: each answer but two kinds of refusal, and each post, is one call
//! of the hub; the pass is of the hub beside it; where a desk or a board is full, the transcript that its
//! pass has seen has no place for a message of full size. A call takes memory only where its result can say
//! that memory ran out, or the desk can, as for [`HubDesk::leave`]. Knows nothing of links or of bytes on
//! them, nor of threads.
#![tactic(auto)]

mod board;
mod desk;
mod telling;

pub use board::HubBoard;
pub use desk::HubDesk;
