// Callbacks on dependencies. Such a callback runs at each change of one of its dependencies, so it is
// plain code that stays in its table until all are dropped.
use hmr_types::{ModName, Sequence};
use module_tree::HandlerCode;

/// A callback on dependencies.
#[derive(Drop)]
pub struct Dep {
    /// The modules that it accepts, one for each of its parameters.
    pub deps: Sequence<ModName>,
    pub code: HandlerCode,
}
