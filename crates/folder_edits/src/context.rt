// What the functions of a server have in common: what stays as it is while it works, what its editor has in
// hand, and what is still to be edited.
use folder_watch::Listing;
use hmr_types::ModName;
use hub_editor::{Editor, HubCaller};
use transform_pool::{JobPass, JobQueue};

/// What stays as it is while a server works: how it calls its hub, and the path of its folder.
#[derive_where(Clone, Copy)]
pub struct ServerContext<'a, R> {
    /// How it calls its hub.
    pub caller: HubCaller<'a, R>,
    /// The path of the folder.
    pub folder: &'a str,
}

/// What the editor has in hand: the queue of the workers, the pass that puts into it, and who makes the
/// edits and keeps them.
#[derive(Drop)]
pub struct Editing<'a> {
    /// The queue of the workers.
    pub queue: &'a JobQueue,
    /// The pass that puts into it.
    pub jobs: JobPass,
    /// Who makes the edits and keeps them.
    pub editor: Editor,
}

/// The edits behind the first ones: those between so many more scans of the folder, the first of them from a
/// listing on, and then those of the script.
#[derive(Drop)]
pub struct LaterEdits {
    /// How often the folder is scanned again.
    pub rounds: u32,
    /// What the last scan listed.
    pub listing: Listing,
    /// The edits that are made last, each of a name and its new text, or none where the module goes.
    pub script: Vec<(ModName, Option<Vec<u8>>)>,
}
