// A record as a value: the roots of a core, and behind them its events with their replies.
use hmr_types::{ClientId, ModName, Sequence, Table, Ver};

/// What a core did, in order.
#[derive(Drop)]
pub struct Record {
    /// The roots of the core.
    pub roots: Sequence<ModName>,
    /// The events with their replies, and the clients at rest.
    pub lines: Sequence<RecordLine>,
}

/// What stands behind the roots of a record.
#[derive(Drop)]
pub enum RecordLine {
    /// An event, and the text of the reply to it.
    Entry(RecordEvent, Sequence<u8>),
    /// Behind an entry: this client is at rest, and its page has these modules.
    Rest(ClientId, Table),
}

/// An event of a core, as a record tells it. What transforming a text gives isn't told, since it is read off
/// the text.
#[derive(Drop)]
pub enum RecordEvent {
    /// A module gets this text.
    Edit(ModName, Sequence<u8>),
    /// The source of a module is taken away.
    Remove(ModName),
    /// The result comes of a module with this text, for this version.
    Settle(ModName, Sequence<u8>, Ver),
    /// A client comes, and names the roots of its page; where it names none, they are the core's.
    Connect(Sequence<ModName>),
    /// A client asks what there is to do.
    Ask(ClientId),
    /// A client fetches a module for the plan under way.
    Fetch(ClientId, ModName),
    /// A client applied the plan under way, and has these modules now.
    Applied(ClientId, Table),
    /// A client gave the plan under way up.
    Aborted(ClientId),
    /// A module of a client's page invalidated itself, at this version.
    Invalidate(ClientId, ModName, Ver),
    /// A client goes.
    Disconnect(ClientId),
}
