//! Laws of all that happens in a client: how the handlers of its instances end, what of a module's data
//! reaches which instance, and what variables hold. `headline` has what the product promises, in one place.
//!
//! Each law is the clause of a public function with an empty body; nothing here runs. It holds of what a
//! client is, and of the journal of all that happened in it, whatever came to it, messages and fired
//! events; and so of each open client of the world, after every list of steps. Stands on the models of
//! the core, the client, the module language and the world, and on the laws of the world. Keeps: a law
//! speaks of the journal of the client's own definitions, never of a second account of it. Knows nothing
//! of bytes, threads or time.
#![tactic(auto)]

pub mod data;
pub mod fresh_values;
pub mod handlers;
pub mod headline;
pub mod lives;
pub mod runs;
pub mod texts;
pub mod values;
pub mod worked;
pub mod world;
