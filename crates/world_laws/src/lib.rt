//! Laws of a client and of the world: what a caught-up client holds, and where an import of it isn't
//! exported; of which versions its instances are, what they are linked to and what that exports; at which
//! edges it is stale, and how far it is from caught up.
//!
//! Each law is the clause of a public function with an empty body; nothing here runs. Stands on the
//! models of the core, the client and the world, whose definitions it speaks of, and on the module
//! language. Keeps: no law has a premise that a run of the world can't meet. Knows nothing of bytes,
//! threads or time.
#![tactic(auto)]

pub mod catching_up;
pub mod fresh;
pub mod instances;
pub mod kept;
pub mod modules;
pub mod stale;
pub mod stops;
pub mod turns;
pub mod versions;
