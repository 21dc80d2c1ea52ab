//! What a live server answers to a head of HTTP: what a site has at its paths, what becomes of what is
//! posted there, and refusals.
//!
//! [`answer_head`] says of a head and its body what is written, and whether the connection goes on, is
//! closed, or becomes a WebSocket; [`body_length`] how many bytes of a body are read before. What is at a
//! path, and what becomes of a body there, is told by a [`Paths`]. A [`FolderFiles`] reads files from a
//! folder of the file system.
//!
//! Stands on `request_guard` for who is let in and for media types, on `http_heads` for what a head asks, on
//! `request_details` for what else it says. Keeps: an answer is a function of the head, the port, the body,
//! and what the site tells of one path; a page of another server posts nothing; a path that has a part which
//! begins with a dot is never looked at. A call takes memory only where its result can say that memory ran
//! out. Knows nothing of connections, of modules' texts or of versions.
#![tactic(auto)]

mod answer;
mod files;
mod folder_files;
mod foreign;
mod found;
mod media;
mod paths;
mod reply;
mod site;
mod status;
mod wanted;
mod writing;

pub use answer::{Answer, Next, answer_head, answer_to_long, body_length, upgrade_query};
pub use files::{FILE_BYTES, Files};
pub use folder_files::FolderFiles;
pub use foreign::foreign_text;
pub use found::Found;
pub use media::Media;
pub use site::{Paths, Posted};
