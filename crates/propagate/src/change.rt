// A change of a page.
use hmr_types::ModName;
use module_graph::View;

/// A change of a page: its modules and its roots, the names whose modules changed, and those that were
/// invalidated.
#[derive(Clone, Copy)]
pub(crate) struct Change<'a> {
    pub view: &'a View,
    pub roots: &'a [ModName],
    pub changed: &'a [ModName],
    pub forced: &'a [ModName],
}
