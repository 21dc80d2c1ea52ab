// What a change comes to.
use hmr_types::{ModName, Sequence};

/// Why the page has to be loaded again: the path from a changed or forced module on, each next module
/// one that imports the one before and lets its change pass. The last is a root that can't take the
/// change, or declines.
#[derive(Drop)]
pub enum Reason {
    /// The path ends at a root.
    Root(Sequence<ModName>),
    /// The path ends at a module that declines.
    Declined(Sequence<ModName>),
}

/// How far a change spreads.
#[derive(Drop)]
pub struct Spread {
    /// Why the page has to be loaded again, where it has to be.
    pub reload: Option<Reason>,
    /// The modules that an update replaces, rising by bytes.
    pub replaced: Sequence<ModName>,
    /// Each boundary with the module that it is told of, rising by bytes.
    pub pairs: Sequence<(ModName, ModName)>,
}
