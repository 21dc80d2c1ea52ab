//! Scripts: the roots of a page and its commands, as the bytes of a script say them.
//!
//! Stands on the vocabulary. Keeps: [`read_script`] is the definition `script_of`, the first fault of
//! bytes that are no script included, and a [`Script`] keeps its text and no command: the commands are
//! read from the text, one by one, as [`Commands::next`] is asked for them. [`read_edits`] and [`Edits`]
//! are the same for scripts that have edits and removals alone. Lines, words and numbers are cut by
//! [`first_line`], [`words_of`] and [`number_of`], here and of other texts. A call takes memory only
//! where its result can say that memory ran out. Knows nothing of worlds, clients or versions, and
//! nothing of what a command writes.
#![tactic(auto)]

mod arguments;
mod commands;
mod cutting;
mod draft;
mod edits;
mod fault;
mod form;
mod numbers;
mod reader;
mod script;
mod script_line;
mod spelling;
mod words;

pub use commands::Commands;
pub use cutting::{FirstLine, first_line, words_of};
pub use edits::{Edit, Edits};
pub use fault::{ScriptFault, ScriptKind, ScriptRefusal, script_word};
pub use numbers::number_of;
pub use reader::{read_edits, read_script};
pub use script::Script;
pub use script_line::ScriptLine;
pub use spelling::spelling_is_read;
