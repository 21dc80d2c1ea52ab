//! The one evaluator: the evaluation of a module, and the run of a handler's body.
//!
//! It stands on the vocabulary, on the meaning of module texts and on bags. Keeps: every answer is the
//! definition's, whole, with all that stands before a fault. A call takes memory only where its result
//! can say that memory ran out. Knows nothing of clients, of instances or of how a text is read.
#![tactic(auto)]

mod body;
mod expression;
mod lines;
mod mentions;
mod module;
mod scope;
mod slots;
mod state;
mod statements;
mod stop;
mod values;

pub use body::run_body;
pub use hmr_types::{EvalFault, Name, Sequence, Slot, Text, Value};
pub use module::{Evaluated, eval_module};
pub use module_semantics::{Env, ModParam, Registered};
pub use module_tree::{HandlerCode, Module};
pub use retained_data::{Bag, Ran};
