// The steps of the world.
use hmr_types::{ClientId, ModName, Ver};

/// One step of the world.
#[derive(Drop)]
pub enum Step {
    /// Gives a module a text, or takes its source away.
    Edit(ModName, Option<Vec<u8>>),
    /// The result comes for the job of this name and version.
    Settle(ModName, Ver),
    /// A client comes that speaks this format, 1 or 2, with these roots of its page; with none, the page
    /// has the server's.
    Open(u8, Vec<ModName>),
    /// One request of a client, and its answer.
    Turn(ClientId),
    /// A client goes.
    Close(ClientId),
    /// Shows whether a client is caught up, its modules, and its stale edges.
    Show(ClientId),
    /// Shows what the exports of a client's live modules hold.
    Values(ClientId),
    /// Shows what became of each instance of a client, and of its handlers.
    Fates(ClientId),
    /// Shows what a page of the server's roots would load anew.
    Fresh,
    /// Shows what a client's page would load anew.
    FreshOf(ClientId),
}
