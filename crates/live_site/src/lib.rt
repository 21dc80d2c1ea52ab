//! What a live server makes of the files of its folder, as a trait: what its core is told of each file, and
//! what is answered by HTTP.
//!
//! A server hands each file that a look at the folder brings to its [`Site`], which says what text its core
//! is told in the file's place, keeps the file once the core took the edit, answers the requests of browsers,
//! and says what people are shown of the file: its lines, and the names that it imports.
//!
//! Stands on `hmr_types` for names and versions, on `live_answers` for answers, and on `live_lines` for
//! imported names. Keeps: what a core is told has at most 131,072 bytes. Only a call that can return
//! `AllocError` takes memory. Knows nothing of how files are read, of hubs or of connections.
#![tactic(auto)]

mod site;

pub use site::Site;
