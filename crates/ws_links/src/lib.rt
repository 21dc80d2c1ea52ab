//! Links over the system's network: a WebSocket over any stream, and a net of WebSockets over TCP on this
//! machine alone.
//!
//! Stands on `transport` for the traits, and on the toolchain's `tungstenite` for the protocol. Keeps: a call
//! fails only where the count of faults rises; a message has at most 16,777,216 bytes, both ways. A call
//! takes memory only where it can be refused, but for the close of a link: the frame that tells the other
//! end isn't sent where memory runs out. Knows nothing of what messages mean, nor of who is at the other
//! end.
#![tactic(auto)]

mod tcp_net;
mod ws_link;

pub use tcp_net::TcpNet;
pub use ws_link::WsLink;
