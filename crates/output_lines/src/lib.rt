//! The lines that the program writes, as values, and the words in them.
//!
//! Stands on `hmr_types`. Keeps: one variant for each form of line, with the fields that the line shows.
//! Knows nothing of the bytes of a line, which `play_text` writes, or of what makes a line.
#![tactic(auto)]

mod out_line;
mod words;

pub use out_line::OutLine;
pub use words::{
    AbortWord, ClientState, EditWord, EndWord, FaultPlace, Handled, HandlerEnd, InstanceFate,
    InstanceStatus, RemoveWord, SettleWord,
};
