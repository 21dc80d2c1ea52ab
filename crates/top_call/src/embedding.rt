// What an embedding program gives.
use handler_table::Shelf;

/// What an embedding program gives: the gate that each worker of a server passes with a result, and the
/// closures of each client, in the order in which clients begin.
pub struct Embedding<F, G> {
    pub gate: G,
    pub shelves: Vec<Shelf<F>>,
}
