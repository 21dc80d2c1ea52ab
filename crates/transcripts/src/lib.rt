//! The transcript of what a core was told: entries with the numbers of their passes, within bounds of their
//! number and their bytes.
//!
//! A [`Transcript`] has of each event what [`keep`] keeps, and tells the events again. Stands on
//! `event_facts` for what an entry takes of the room, on `packed_table` for tables and on `import_scan` for
//! the outcome of a result, which is that of transforming its text anew. Keeps: the events that are told
//! again are those that were kept, and no more bytes are left than the bounds leave. A call takes memory
//! only where its result can say that memory ran out. Knows nothing of the core, of its answers, and of who
//! holds a pass.
#![tactic(auto)]

mod events;
mod forming;
mod kept_event;
mod transcript;

pub use forming::{has_version, note_formed};
pub use kept_event::{Entry, KeptEvent, keep};
pub use transcript::Transcript;
