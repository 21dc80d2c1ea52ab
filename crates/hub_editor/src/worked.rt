// When the editor worked a job itself.

/// When the editor itself worked the job of an edit, and told its result.
#[derive(Clone, Copy, Debug, PartialEq, Eq)]
pub(crate) enum Worked {
    /// It didn't: the edit brought no job, or the job is in the queue or a worker's.
    No,
    /// As soon as the edit was answered.
    AtOnce,
    /// After all edits.
    AtEnd,
}
