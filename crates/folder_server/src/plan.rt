// What a server is to do, and how much of it.
use hmr_types::{ModName, Text};

/// How much a server is to do, and where it listens.
#[derive(Clone, Copy, Debug, PartialEq, Eq)]
pub struct Plan {
    /// The port; at 0 the net chooses one that is free.
    pub port: u16,
    /// How many clients of its own it begins, each with a session, up to 32.
    pub clients: u32,
    /// How many sessions it begins for clients from outside, up to 32.
    pub outside: u32,
    /// How many requests each of its own clients makes.
    pub turns: u32,
    /// How many workers transform texts, from 1 to 16.
    pub workers: u32,
    /// How often the folder is scanned again.
    pub rounds: u32,
    /// Whether the record of the transcript is written behind the report.
    pub recorded: bool,
}

/// What a server is to do, with what.
#[derive(Drop)]
pub struct ServeTask {
    /// How much it does, and where it listens.
    pub plan: Plan,
    /// The path of the folder.
    pub folder: Text,
    /// The roots of the page.
    pub roots: Vec<ModName>,
    /// The edits that it makes last, each of a name and its new text, or none where the module goes.
    pub script: Vec<(ModName, Option<Vec<u8>>)>,
}
