//! What a head of HTTP says of its request, beside what it asks and who it is of: its whole target with the
//! query, whether a page is wanted, how long its body is, and whether a page of another server sent it.
//!
//! Stands on `http_heads` for what a head is, on `request_guard` for which origins are this server's. Keeps:
//! what is said of a head is a function of its method, its target, its version and its fields. No call takes
//! memory. Knows nothing of connections, of paths or of answers.
#![tactic(auto)]

mod body;
mod fields;
mod letters;
mod reading;
mod targets;

pub use body::{BODY_BYTES, Body};
pub use reading::{Details, read_details};
pub use targets::{path_of, query_of};
