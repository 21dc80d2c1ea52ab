// What the words ask for.
use hmr_types::{ModName, Sequence, Text};

/// What is to be served, and how.
#[derive(Debug, Drop)]
pub struct DevPlan {
    /// The path of the folder.
    pub folder: Text,
    /// The modules of the page that is made where the folder has none: 16 at most, no two equal.
    pub roots: Sequence<ModName>,
    /// The port, 0 for any.
    pub port: u16,
    /// Whether it has to be that port, and not the next free one.
    pub is_strict: bool,
    /// How many workers transform texts, from 1 to 16.
    pub workers: u32,
    /// Whether news are told as JSON.
    pub is_json: bool,
    /// Where the record is written at the end.
    pub record: Option<Text>,
}

/// What the words ask for.
#[derive(Debug, Drop)]
pub enum Wanted {
    /// That a folder is served.
    Serve(DevPlan),
    /// The help.
    Help,
}
