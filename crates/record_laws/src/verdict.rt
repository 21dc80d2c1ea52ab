// What the check of a record says.

/// What the check of a record says.
#[derive(Clone, Copy, Debug, Eq, PartialEq)]
pub enum Verdict {
    /// The record is sound.
    Yes {
        /// How many events it has.
        steps: u64,
        /// How many times it says that a client is at rest.
        rests: u64,
    },
    /// It isn't.
    No {
        /// The first line that is wrong, from 1; it is the line behind the last where more is to come.
        line: u64,
        /// What is wrong with it.
        why: Why,
    },
}

/// What is wrong with a line of a record.
#[derive(Clone, Copy, Debug, Eq, PartialEq)]
pub enum Why {
    /// It has no right form, or another line is to come there, or no LF ends it; or the record ends before
    /// its first root, or before the reply to its last event.
    BadLine,
    /// The roots above are more than 16, or two of them are equal.
    Roots,
    /// The core's reply is another.
    Reply,
    /// The client isn't at rest there, or its page has other modules.
    Rest,
    /// The event has no place in a transcript: that has 1,000,000 events at most, and 268,435,456 bytes,
    /// where each event counts 64 beside its names and its text.
    Limit,
}
