// A module that is about to get an instance.
use hmr_types::{ModName, Name, Sequence, Ver};
use module_tree::Module;

/// A module that is about to get an instance: its version, what it exports, the tree of its text, and
/// the number of the instance that each of its imports is linked to. The instance gets the next number of
/// the page.
#[derive(Drop)]
pub struct Birth {
    pub name: ModName,
    pub version: Ver,
    pub exports: Sequence<Name>,
    pub links: Sequence<(ModName, u32)>,
    /// What its text reads as; a text that reads as no module is one without items.
    pub tree: Module,
}
