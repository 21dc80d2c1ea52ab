//! What a server and its clients promise together: when a client is caught up, how far it is from it,
//! and what every step of the world does.
//!
//! Stands on the definitions of the core and of the client. A turn is one request of one client, one
//! step of the core and one effect on the client. Nothing here runs. Keeps: the world's step puts the
//! two sides together and adds nothing to either. Knows nothing of bytes, threads or time.
#![tactic(auto)]

pub mod fetch_scripts;
pub mod handler_scripts;
pub mod laws;
pub mod update_scripts;
