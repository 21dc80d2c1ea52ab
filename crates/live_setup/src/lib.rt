//! What a live server is begun with: its port, the folder that it looks at, and the site that it answers by.
//!
//! [`listen_next`] finds a port, [`sides_of`] makes the two sides of a folder, and [`page_roots`] are the
//! roots of its hub. Where the folder has no page, one is made of the modules that were named.
//!
//! Stands on `doors` for entrances, on `live_words` for what is wanted, on `live_folder` and `live_answers`
//! for the folder, on `script_site` for the site, on `live_page` for the page's client, and on
//! `instance_urls` for the page that is made. Keeps: an entrance isn't shut by a port that is taken; the
//! roots are those of a page. Knows nothing of hubs, of threads or of the terminal.
#![tactic(auto)]

mod made_text;
mod ports;
mod sides;

pub use ports::listen_next;
pub use sides::{Sides, page_roots, sides_of};
