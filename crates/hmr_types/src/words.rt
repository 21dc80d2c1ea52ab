// Words that messages, records and output lines share: why an edit is refused, the kinds of plan, the
// causes of a reload, and the kinds of handler.

/// Why an edit was refused.
#[derive(Clone, Copy, Debug, PartialEq, Eq)]
pub enum EditRefusal {
    /// The text has more than 131,072 bytes.
    TextTooLong,
    /// The name is new, and 8,192 names have a source.
    TooManyNames,
    /// The current sources would have more than 32 MiB together.
    SourceTotal,
    /// Every number was given to an edit.
    NumbersSpent,
}

/// What kind of plan is under way, or was applied.
#[derive(Clone, Copy, Debug, PartialEq, Eq)]
pub enum PlanKind {
    /// The first load of a page.
    Load,
    /// A load that drops every instance.
    Reload,
    /// A replacement of some modules.
    Update,
}

/// Where an unaccepted path ended.
#[derive(Clone, Copy, Debug, PartialEq, Eq)]
pub enum ReloadCause {
    /// At a root that doesn't accept itself, or that called `invalidate`.
    Root,
    /// At a module that declines.
    Declined,
}

/// The kind of a registered handler.
#[derive(Clone, Copy, Debug, PartialEq, Eq)]
pub enum HandlerKind {
    /// It runs when its instance is replaced or pruned.
    Dispose,
    /// It runs when its module is no longer imported.
    Prune,
    /// It is called with the new instance of its own module.
    Own,
    /// It is called with the new instances of dependencies.
    Dep,
}
