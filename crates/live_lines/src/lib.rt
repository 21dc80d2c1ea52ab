//! What a live server has to tell, as values, and how it is told: as lines of a terminal and as JSON.
//!
//! [`PageLog`] is what is known of one page: it takes each exchange of the page with the server and gives
//! what there is to tell of it, among it the imported names that are still bound to an older instance. Which
//! names a module imports is told to it as an [`ImportedName`] for each.
//! [`line_of`] gives the line of a [`News`], [`json_of`] the same as one JSON object.
//!
//! Stands on the messages (`update_msgs`) and on `word_texts` for the words of faults and causes. Keeps: a
//! stale binding is one whose instance isn't the live one of its module; each text is its definition. Only a
//! call that can return `AllocError` takes memory. Knows nothing of sockets, threads or folders, nor of what
//! stands in the text of a module, and no time but the one that it is given.
#![tactic(auto)]

mod applying;
mod asked;
mod boundaries;
mod clock;
mod exchanges;
mod fault_line;
mod fault_text;
mod imported_name;
mod instance;
mod items;
mod json_pieces;
mod json_text;
mod line_text;
mod lists;
mod news;
mod news_text;
mod page_log;
mod page_news;
mod page_text;
mod pieces;
mod stale;

pub use asked::Asked;
pub use clock::Clock;
pub use fault_line::line_at;
pub use imported_name::ImportedName;
pub use json_text::json_of;
pub use line_text::{Style, line_of};
pub use news::{AnewCause, Foreign, News, PassedCause};
pub use page_log::PageLog;
pub use page_news::{PageNews, StaleBinding};
