// The messages between a server and a client: one variant for each kind, with what it carries.
use hmr_types::{ClientId, FaultWord, ModName, ReloadCause, Sequence, Table, Text, Ver};

/// What a client asks or tells.
#[derive(Drop)]
pub enum ClientMsg {
    /// The first message: the format that the client speaks, 1 or 2, and the roots of its page; with
    /// none, the page has the server's roots.
    Hello {
        format: u8,
        roots: Sequence<ModName>,
    },
    /// What is there to do?
    Ask,
    /// The served source of this module, for the plan under way.
    Fetch {
        path: ModName,
    },
    /// The plan was applied; these are now the modules of the page, with their versions.
    Applied {
        table: Table,
    },
    /// The plan was given up. `path` is the module that couldn't be had; where the cause is a link,
    /// it is the importer, `from` the dependency, and `name` the export that isn't there.
    Aborted {
        cause: AbortCause,
        path: ModName,
        from: Option<ModName>,
        name: Option<Text>,
    },
    /// A callback of this module invalidated it, at this version.
    Invalidate {
        path: ModName,
        version: Ver,
        message: Text,
    },
    /// The last message.
    Bye,
}

/// Why a client gave a plan up.
#[derive(Clone, Copy, Debug, PartialEq, Eq)]
pub enum AbortCause {
    /// A module isn't served.
    Missing,
    /// A module's text can't be read.
    Broken,
    /// A module imports what its dependency doesn't export.
    Link,
}

/// What a server answers.
#[derive(Drop)]
pub enum ServerMsg {
    /// The client's number, and the roots of its page. The page is to be loaded.
    Connected {
        client: ClientId,
        roots: Sequence<ModName>,
    },
    /// These modules are to be replaced, and these callbacks to be called. `batch` counts the reloads
    /// and updates that the client was sent, from 1; `triggered` has the changed and the invalidated
    /// names that this one is for, rising by bytes. A message that was read in format 1 has batch 0
    /// and no triggered names.
    Update {
        replaced: Sequence<ModName>,
        updates: Sequence<JsUpdate>,
        batch: u64,
        triggered: Sequence<ModName>,
    },
    /// These modules aren't imported on the page any more.
    Prune {
        paths: Sequence<ModName>,
    },
    /// The page is to be loaded again, since nothing on this path accepts the change at its start.
    /// `batch` and `triggered` are as in an update.
    FullReload {
        cause: ReloadCause,
        path: Sequence<ModName>,
        batch: u64,
        triggered: Sequence<ModName>,
    },
    /// The newest source of a module can't be read.
    Error {
        path: ModName,
        line: u64,
        column: u64,
        kind: FaultWord,
    },
    /// The module asked for isn't served, since its source can't be read.
    Broken {
        path: ModName,
        line: u64,
        column: u64,
        kind: FaultWord,
    },
    /// There is nothing to do.
    Idle,
    /// What was told is taken note of.
    Done,
    /// The served source of a module.
    Text {
        path: ModName,
        version: Ver,
        text: Text,
    },
    /// The module asked for has no source.
    Missing {
        path: ModName,
    },
    /// The module asked for isn't served yet.
    NotYet {
        path: ModName,
    },
    /// The message was refused: the number of the refusal, from 1 to 7, and what it names.
    Refused {
        code: u8,
        path: Option<ModName>,
        told: Option<u64>,
        kept: Option<u64>,
    },
}

/// A callback to be called: `path` accepts `accepted_path`, whose served version was `timestamp`
/// when the update was planned, 0 for none.
#[derive(Drop)]
pub struct JsUpdate {
    pub path: ModName,
    pub accepted_path: ModName,
    pub timestamp: u64,
}
