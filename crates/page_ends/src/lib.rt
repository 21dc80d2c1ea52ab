//! The single steps by which instances of a page end, the places of those that are meant, and how boundaries
//! are told of modules.
//!
//! Stands on a page's instances, on the model of a client, on the module language, and on the sets of names and
//! the new numbers of `page_plan`. Keeps: each step follows the model's of its name, and a deed for each of
//! several instances follows the model's for each of them. No handler is run here. Knows nothing of messages,
//! of plans, or of which deed is due.
#![tactic(auto)]

mod boundaries;
mod drops;
mod places;
mod reload;
mod steps;
mod tell;

pub use boundaries::{live_place, tellings};
pub use drops::drop_all;
pub use places::{Whose, falling_places, rising_places};
pub use reload::reload_all;
pub use steps::{drop_held, drop_left_behind, end_instance, give_up_bag};
pub use tell::{Telling, Told};
