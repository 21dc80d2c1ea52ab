//! The client of a page that the live server serves.
//!
//! It is one script of the files of the folder page/, written here by tools/embed_page; ./test compares it. Stands
//! on nothing. Keeps: nothing. No call takes memory. Knows nothing of requests.
#![tactic(auto)]

mod script;
mod served;

pub use served::file;
