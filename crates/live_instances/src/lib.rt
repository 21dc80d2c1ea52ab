//! The instances of a client in the definitions: by number and, of each name, the live one, as they are made,
//! changed and ended, with the versions of counted edits.
//!
//! Stands on the definitions of a client alone. Nothing here runs. Keeps: instances stand by falling number,
//! a name has at most one that is live, and what a plan, an event or a prune does leaves their versions
//! counted. Knows nothing of how a page keeps its instances, or of messages.
#![tactic(auto)]

pub mod laws;
