// What an event is to the pages of clients.
use hmr_types::{ClientId, Table};

/// A client comes, or the client of this number goes with this page, or no client comes or goes.
#[derive(Drop)]
pub(crate) enum Passage {
    Comes,
    Goes(ClientId, Table),
    Stays,
}
