//! What a hub answers in order in one thread, threads that meet over one, sessions over its desks, and the
//! tests of these, through their public calls alone.
//!
//! Each file is an area: an event that is told and noted, a transcript that is filled, a module that is
//! served, a client that loads it, a core that is told what a hub was told, two threads with a pass each
//! whose passes are joined again, sessions over desks, and for the tests what they ask, and replies and lines
//! of a report as words. Stands on the hub, its desks and sessions, and no crate stands on it. Keeps: a pass
//! stays one of its hub, whatever is answered, and a joined pass has seen the entries of both. Has no code
//! but tests, and knows nothing of what is private in the hub.
#![tactic(auto)]

#[cfg(test)]
mod asking;
#[cfg(test)]
mod desk_sessions;
#[cfg(test)]
mod desk_tests;
#[cfg(test)]
mod filling;
#[cfg(test)]
mod loading;
#[cfg(test)]
mod meeting;
#[cfg(test)]
mod meeting_tests;
#[cfg(test)]
mod noting;
#[cfg(test)]
mod retelling;
#[cfg(test)]
mod serving;
#[cfg(test)]
mod tests;
#[cfg(test)]
mod words;
