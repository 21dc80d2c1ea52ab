//! Doors: what gives the ends of connections one after another, and the job that serves them.
//!
//! An [`Entrance`] gives [`Door`]s, each a share of what listens. A door gives [`Visitor`]s: ends that
//! speak HTTP first, heads and the bodies behind them, and that are links once they were upgraded. An
//! [`Attendant`] serves one visitor. [`serve_door`] accepts, lets the attendant serve and gives the end
//! back, again and again, until the door is shut or the attendant is done, and [`DoorJob`] does this in a
//! thread. In memory a [`MemDoor`] gives the ends of any net with bytes that are there from the start.
//!
//! Stands on `transport`, whose ends visitors are, on `http_heads` for where a head ends, and on `jobs`. Keeps:
//! each end that was accepted is served once, shut and given back before the next is accepted; after a door
//! has answered that no more come it is asked for none; a count rises wherever a call fails. A call takes
//! memory only where its result can say that memory ran out, but for [`serve_door`] and a [`DoorJob`] at
//! its work, which take what their door and attendant take. Knows nothing of what is served, of hubs or of
//! sockets.
#![tactic(auto)]

mod attendant;
mod door;
mod entrance;
mod heads;
mod job;
mod mem_door;
mod mem_visitor;
mod serving;
mod visitor;

pub use attendant::Attendant;
pub use door::Door;
pub use entrance::Entrance;
pub use heads::{take_body, take_front};
pub use hmr_base::OutFault;
pub use job::{DoorJob, DoorOut};
pub use mem_door::MemDoor;
pub use mem_visitor::MemVisitor;
pub use serving::{DoorEnd, serve_door};
pub use visitor::{Coming, Visitor};
