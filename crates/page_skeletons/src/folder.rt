// What is asked of the folder of a page.
use hmr_types::ModName;

/// A folder that says which files it has.
pub trait Folder {
    /// Whether there is a file that this module stands for.
    fn has(&self, name: &ModName) -> bool;
}
