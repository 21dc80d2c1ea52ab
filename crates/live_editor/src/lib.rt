//! The editor of a live server: the folder is looked at again and again, and what changes in it are edits of
//! the hub.
//!
//! [`run_rounds`] is the whole of it, up to the key or the fault that ends the server. What the core is told
//! of a file a site says; in between two looks news are told to the terminal ([`tell_all`]) and keys are
//! heard. A [`LiveEditor`] has the hub's first pass, and closes the queue of the workers at the end.
//!
//! Stands on `hub_editor` for edits, on `live_folder` for looks, on `live_site` for the site, and on
//! `live_context` for what a server is given and what its threads share. Keeps: what came under the editor's
//! number is just the edits that it made, each once and in order, with their results. Where memory runs out
//! it ends, or a later look shows the same. Knows nothing of doors, of sessions or of how news are written.
#![tactic(auto)]

mod editor;
mod known;
mod live_editor;
mod pace;
mod rounds;

pub use live_editor::LiveEditor;
pub use rounds::{run_rounds, tell_all};
