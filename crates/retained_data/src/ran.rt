// What the run of a handler leaves: a body of code, or a closure of the embedding program.
use crate::bag::Bag;
use hmr_types::{EvalFault, Name, Sequence, Text, Value};

/// What a handler leaves, whole: at a fault, all that was made before it.
#[derive(Drop)]
pub struct Ran {
    pub fault: Option<EvalFault>,
    pub lines: Sequence<Text>,
    /// The assignments to variables of the module, in order.
    pub changes: Sequence<(Name, Value)>,
    /// The messages of the invalidations, in order.
    pub invalidations: Sequence<Text>,
    pub bag: Bag,
}
