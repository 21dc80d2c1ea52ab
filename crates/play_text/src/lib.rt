//! The text of the simulator: what a script's bytes say, and the exact bytes of every output line.
//!
//! Scripts are read by `play_script`, whose surface is handed on here. Stands on it, on the
//! vocabulary, on `word_texts` for the words of a line, and on `itoa` for numbers. Keeps: [`render`] is the definition `line_text`, byte for byte.
//! Knows nothing of worlds, clients or versions: a line comes to it as a value.
#![tactic(auto)]

mod line_forms;
mod outcomes;
mod pieces;
mod rendering;

pub use play_script::{
    Commands, Script, ScriptFault, ScriptKind, ScriptLine, read_script, script_word,
    spelling_is_read,
};
pub use rendering::{put_line, render};
pub use word_texts::{cause_str, fault_str};
