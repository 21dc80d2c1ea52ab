//! The commands that work on their input alone: `play`, `check`, `make`, `record` and `audit`.
//!
//! `play` reads a script, plays it, and writes the lines of each step as the step is made; `make` plays a
//! script that is generated and writes a summary of its run; `record` plays a script and writes the record of
//! what the core was told in its run; `check` is that of `text_commands`, and `audit` that of `audit_command`.
//! Stands on the words, on `text_commands`, `audit_command`, `made_scripts` and `script_runs`, and on worlds.
//! Keeps: what is written is a prefix of the definition's text of the words and of the bytes read, and the whole
//! of it at status 0. A call takes memory only where its result can say that memory ran out. Knows nothing of
//! folders, nets or threads.
#![tactic(auto)]

mod alone;
mod make;
mod play;
mod record;
mod script;

pub use alone::run_alone;
