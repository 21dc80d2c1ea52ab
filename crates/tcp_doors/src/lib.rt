//! Doors over TCP on this machine alone, whose visitors speak HTTP and are upgraded to WebSockets.
//!
//! A [`TcpEntrance`] listens at 127.0.0.1, and at ::1 where there is one, and gives a [`TcpDoor`] for each
//! thread. What a door accepts is a [`TcpVisitor`]: heads are taken from it and answers written, within
//! limits of time, until it is opened as a WebSocket; no byte behind its last head is lost.
//!
//! Stands on `doors` for the traits, on `ws_links` for the WebSocket and on `http_heads` for where a head
//! ends. Keeps: a call fails only where the count of faults rises. A call takes memory only where it can
//! be refused, but for the close of a visitor that was upgraded, as in `ws_links`. Knows nothing of what
//! is served.
#![tactic(auto)]

mod http_stream;
mod patient_reads;
mod patient_stream;
mod tcp_door;
mod tcp_entrance;
mod tcp_visitor;

pub use patient_stream::PatientStream;
pub use tcp_door::TcpDoor;
pub use tcp_entrance::TcpEntrance;
pub use tcp_visitor::TcpVisitor;
