// What an evaluation is given, and what it registers. Contracts see the two lists of a `Registered` and
// its kind as they stand, and its code by the plain data of its tree.
use hmr_types::{HandlerKind, Name, Sequence, Slot, Text};
use module_tree::Once;

/// Names and what they hold: the locals of a module's imports, each with what the export of the linked
/// instance held as the evaluation of the module, or the run of one of its handlers, began.
#[derive(Drop)]
pub struct Env {
    pub vars: Sequence<(Name, Slot)>,
}

/// What a callback is given for one of its parameters.
#[derive(Drop)]
pub enum ModParam {
    /// `undefined`.
    Undef,
    /// A module, by its exports and what they hold.
    Mod(Sequence<(Name, Slot)>),
}

/// A handler that a module's evaluation registered.
#[derive(Drop)]
pub struct Registered {
    pub kind: HandlerKind,
    /// The specifiers of the dependencies that are accepted; none for the other kinds.
    pub deps: Sequence<Text>,
    pub what: Once,
}
