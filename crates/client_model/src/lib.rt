//! What the client runtime promises, as definitions over the messages that it took: the instances of
//! modules and all that happened to them, the request that stands, what each answer does, and which
//! edges are stale.
//!
//! Stands on the vocabulary and on the definitions of the core, with which a client shares what both
//! know of its page. What a module text means (its imports, its evaluation, the bodies of its
//! handlers) is a parameter, so that all laws hold for every language. Nothing here runs. Keeps: all
//! that happens to an instance or a handler is in the journal, and the lines that a client writes are
//! read off it. Knows nothing of sources, of served versions or of other clients.
#![tactic(auto)]

pub mod laws;
