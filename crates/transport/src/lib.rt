//! Links that carry messages between two ends, nets that give links, and both in memory.
//!
//! A [`Link`] is one end of a connection: it is opened by a handshake, sends and receives messages, and
//! is closed. A [`Net`] listens and accepts, or connects, gives an end for each connection, and takes the
//! ends back. In memory a [`MemNet`] joins two ends by pipes, for two threads, and a [`TellNet`] gives an
//! end whose messages are there from the start; the ends of both are [`MemLink`]s.
//!
//! Stands on `hmr_base` for refusals and for the plans of failing calls, and on `hmr_types` for the
//! limit on a message. Keeps: an object fails only where its count of faults rises, a form in memory
//! exactly where its plan says, and what an end tells is what it received and sent, in order. A call
//! takes memory only where its result can say that memory ran out, but for [`Link::close`], which may
//! take some to tell the other end. Knows nothing of what messages mean, nor of when a thread gets on.
#![tactic(auto)]

mod feed;
mod link;
mod mem_link;
mod mem_net;
mod net;
mod pipe;
mod port;
mod tell_net;

pub use hmr_base::OutFault;
pub use link::{Link, Phase};
pub use mem_link::MemLink;
pub use mem_net::MemNet;
pub use net::{Asked, Net};
pub use tell_net::TellNet;
