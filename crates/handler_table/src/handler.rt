// Handlers that run at most once: code of a module, or a closure of the embedding program.
use crate::held::Held;
use module_tree::HandlerCode;

/// A handler that runs at most once. It is used up by its run, or by `discard`.
pub enum Handler<F> {
    /// Code of its module.
    Code(HandlerCode),
    /// A closure of the embedding program.
    Host(Held<F>),
}

impl<F: Drop> Handler<F> {
    /// Lets the handler go without a run.
    pub fn discard(self) {
        match self {
            Handler::Code(code) => drop(code),
            Handler::Host(held) => held.discard(),
        }
    }
}
