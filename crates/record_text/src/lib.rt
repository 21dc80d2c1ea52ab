//! Records: what a server's core was told, what it answered, and which clients are then said to be at rest,
//! as lines of text.
//!
//! Stands on the vocabulary, on `play_script` for the lines and numbers of a text, on `word_texts` for the
//! words of faults, on `message_text` and `message_json` for the messages in replies, and on `itoa` for
//! numbers. Keeps: [`write`] is the definition `record_text`, and [`read_record`] the definition
//! `record_of`, the first bad line of bytes that are no record included. A call takes memory only where its
//! result can say that memory ran out. Knows nothing of what a core answers, and so nothing of whether a
//! record is true.
#![tactic(auto)]

mod arguments;
mod draft;
mod event_text;
mod laws;
mod next;
mod pieces;
mod reading;
mod record;
mod refusal;
mod reply;
mod reply_form;
mod said;
mod writing;

pub use draft::{Draft, with_piece};
pub use laws::text_is_read;
pub use next::{Next, has_text};
pub use reading::read_record;
pub use record::{Record, RecordEvent, RecordLine};
pub use refusal::{RecordFault, Refusal};
pub use reply::{RecordReply, write_reply};
pub use reply_form::is_reply;
pub use said::{Said, read_line};
pub use writing::{put_line, put_roots, write};
