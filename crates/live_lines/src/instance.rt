// What is known of the instances of a page, and of the plan that is under way on it.
use crate::ImportedName;
use hmr_types::{ModName, PlanKind, Sequence, Text, Ver};

/// A name that an instance imports, and the version of the module that it was bound to.
#[derive(Drop)]
pub(crate) struct Binding {
    pub dependency: ModName,
    pub name: Text,
    pub version: Ver,
}

/// The live instance of a module: its version, the number of the plan that made it, and what it imports.
/// It is bound to what was live when that plan had been applied.
#[derive(Drop)]
pub(crate) struct Instance {
    pub version: Ver,
    pub made: u64,
    pub bindings: Sequence<Binding>,
}

/// A text that was fetched for the plan under way: its version, and what it imports.
#[derive(Drop)]
pub(crate) struct Fetched {
    pub version: Ver,
    pub names: Sequence<ImportedName>,
}

/// A plan that is under way, and for an update who accepts which module.
#[derive(Drop)]
pub(crate) struct Begun {
    pub kind: PlanKind,
    pub accepted: Sequence<(ModName, ModName)>,
}
