// What a desk has dealt with so far, as clauses see it.
use std::snapshot::Snapshot;
use update_msgs::{ClientMsg, ServerMsg};

/// The messages that were answered, with their answers, in order. It has no bytes but those of its variant,
/// and a desk keeps of it a snapshot alone, which has none: so it costs nothing, and only clauses read it.
#[derive(Drop)]
pub enum Dealings {
    Nothing,
    More(Snapshot<Dealings>, Snapshot<ClientMsg>, Snapshot<ServerMsg>),
}
