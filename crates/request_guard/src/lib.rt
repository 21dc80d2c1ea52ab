//! Which requests a server on this machine answers at all, and the media types of files.
//!
//! Any page of the web can send requests to a port of the machine that it is shown on. [`admit`] lets in
//! those that name this server as their host, and upgrades only from its own pages. [`media_type`] says what
//! a file is by its name.
//!
//! Stands on `http_heads` for what a head is. Keeps: what is said of a head is a function of its fields. No
//! call takes memory. Knows nothing of connections or of answers.
#![tactic(auto)]

mod admission;
mod fields;
mod hosts;
mod media;

pub use admission::{Admission, admit};
pub use hosts::{is_own_host, is_own_origin};
pub use media::media_type;
