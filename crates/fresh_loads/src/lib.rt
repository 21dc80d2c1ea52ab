//! What a page would load anew of what is served: the fresh load, that everything else is measured by.
//!
//! [`fresh_load`] tells it for some roots, and [`load_lines`] writes it as lines. Stands on `version_map` for
//! the sources, on `import_links` for which names a text imports, and on the definitions of the fresh load and
//! of its lines. Keeps: each call gives the definition's value, and changes nothing. A call takes memory only
//! where its result can say that memory ran out. Knows nothing of cores, of clients, or of the bytes of a line.
#![tactic(auto)]

mod exports;
mod lines;
mod linked;
mod loading;
mod reach;
mod unlinked;

pub use lines::{add_modules, load_lines};
pub use loading::{Fresh, fresh_load};
