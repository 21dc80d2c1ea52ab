//! The terminal of a live server: what it says goes to an output, as lines or as JSON, and keys come from an
//! input.
//!
//! A [`Screen`] tells news with the time of day at this place ([`offset_here`]), in a [`Manner`]. It hears
//! the keys that a thread of its own reads ([`keys_of`]): what the keys are and which bindings are stale it
//! shows itself, and the server hears of the other keys.
//!
//! Stands on `live_context` for the trait that it is, on `live_lines` for the text of news, on `hmr_base`
//! for the output, and on `jiff` for the time zone. Keeps: what can't be written, or finds no memory, is
//! left out, and nothing waits for a key. Knows nothing of folders, of hubs or of the command line.
#![tactic(auto)]

mod day_time;
mod keys;
mod screen;

pub use day_time::offset_here;
pub use keys::{Keys, keys_of};
pub use screen::{Manner, Screen};
