//! The vocabulary of the product: names of modules and events and what a specifier means, tables of
//! versions, texts and values, what an analysis tells of a module text, the words that several crates
//! share, and the limits.
//!
//! Every other crate stands on this one. It stands on nothing but std. Keeps: a [`ModName`] is always
//! a name, a [`Table`] always rises, and contracts see each list and text as the list that it holds,
//! never a pointer or a capacity. A call takes memory only where its result can say that memory ran
//! out. Knows nothing of trees and parsing, of clients, messages or lines.
#![tactic(auto)]

mod analysis;
mod event;
pub mod limits;
mod mod_name;
mod sequence;
mod specifier;
mod table;
mod text;
mod value;
mod words;

pub use analysis::{Analysis, FaultWord, Outcome, TextFault};
pub use event::{event_module, event_path, events_and_modules_tell_each_other, is_event};
pub use mod_name::{ModName, NameFault, is_name};
pub use sequence::Sequence;
pub use specifier::{SpecFault, resolve};
pub use table::Table;
pub use text::{Name, Text};
pub use value::{EvalFault, Slot, Value};
pub use words::{EditRefusal, HandlerKind, PlanKind, ReloadCause};

/// The version of a source: the number of the counted edit that gave it, from 1 to
/// 9007199254740991.
pub type Ver = u64;

/// The number of a client, from 1.
pub type ClientId = u32;
