// Why the runtime refuses.

/// Why a message isn't taken, or an event isn't fired.
#[derive(Clone, Copy, Debug, PartialEq, Eq)]
pub enum RuntimeFault {
    /// The message isn't an answer to the request that stands: the places of the request and of the
    /// message in the tables of messages, from 1. Nothing has changed.
    Unexpected { wanted: u8, got: u8 },
    /// The plan would make more than 20,000 instances. Nothing was run, and the runtime is stopped.
    InstancesFull,
    /// The runtime was stopped, by `InstancesFull` or since memory ran out. Nothing has changed.
    Stopped,
    /// Memory ran out. The runtime is stopped, and can't be used any more.
    NoMemory,
}
