// A name that a module imports.
use hmr_types::{ModName, Text};

/// A name that a module imports from another one, as people are shown it: `default`, `*` for all of it, or
/// the exported name, which may be any text.
#[derive(Debug, Drop)]
pub struct ImportedName {
    /// The module that the name is imported from.
    pub from: ModName,
    /// The name.
    pub name: Text,
}
