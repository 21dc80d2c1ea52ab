//! The command `page`: HTTP requests answered by the modules of a folder.
//!
//! [`page`] scans the folder once, makes an edit of each module and transforms its text, and then answers
//! the requests of the input on the output. Stands on `folder_watch` for the folder, on `version_map` for
//! what is served of it, and on `http_modules` for the answers. Keeps: what is written is the answers over
//! what the scan serves, and a line only where a limit was met. A call takes memory only where its result
//! can say that memory ran out. Knows nothing of words on a command line, of exit statuses or of what
//! carries the bytes.
#![tactic(auto)]

mod answering;
mod opening;
mod stop;

pub use answering::page;
pub use stop::PageStop;
