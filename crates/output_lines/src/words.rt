// The words of output lines that are no names, numbers or texts: an enum for each place, with one
// variant for each word that may stand there.
use hmr_types::{EditRefusal, ModName, Name, Text, TextFault, Ver};

/// What an edit that gives a text brought.
#[derive(Clone, Copy, Debug, PartialEq, Eq)]
pub enum EditWord {
    /// A job for this version.
    Job(Ver),
    /// The text is the current source; nothing was counted.
    Same,
    /// The edit was refused; nothing was counted.
    Refused(EditRefusal),
}

/// What a removal brought.
#[derive(Clone, Copy, Debug, PartialEq, Eq)]
pub enum RemoveWord {
    /// The name has no source from this version on.
    Removed(Ver),
    /// The name had no source; nothing was counted.
    Same,
    /// Every number was given to an edit; nothing was counted.
    NumbersSpent,
}

/// What became of the result of a job.
#[derive(Clone, Copy, Debug, PartialEq, Eq)]
pub enum SettleWord {
    /// It is what is served of its name now.
    Served,
    /// The text is no module, and what is served stays.
    Refused(TextFault),
    /// Its source isn't the current one.
    Late,
    /// That job wasn't issued, or its result came before.
    NotIssued,
}

/// Why a plan was aborted.
#[derive(Clone, Debug, Drop, Eq, PartialEq)]
pub enum AbortWord {
    /// This module isn't served.
    Missing(ModName),
    /// This module's text can't be read.
    Broken(ModName),
    /// The new instance of `name` imports `export` of `from`, which doesn't export it.
    Link {
        name: ModName,
        from: ModName,
        export: Name,
    },
}

/// Where a fault stood: in a module's evaluation, or in a handler of this kind.
#[derive(Clone, Copy, Debug, PartialEq, Eq)]
pub enum FaultPlace {
    /// In the evaluation of a module.
    Module,
    /// In a handler that lets an instance go.
    Dispose,
    /// In a handler that runs when a module is no longer imported.
    Prune,
    /// In a callback for the module itself.
    Own,
    /// In a callback for a dependency.
    Dep,
}

/// Whether a client is caught up.
#[derive(Clone, Copy, Debug, PartialEq, Eq)]
pub enum ClientState {
    /// It is loaded, and nothing waits for it.
    Up,
    /// It isn't loaded, or something waits for it.
    Behind,
}

/// How the session of an own client ended otherwise than by closing.
#[derive(Clone, Copy, Debug, PartialEq, Eq)]
pub enum EndWord {
    /// The link failed.
    Link,
    /// A message couldn't be read.
    Message,
    /// The server or the runtime had stopped.
    Stopped,
    /// There was no memory.
    Memory,
    /// A message wasn't an answer to the request that stood.
    Unexpected,
    /// A plan would have made more than 20,000 instances.
    Instances,
}

/// What became of an instance's evaluation.
#[derive(Clone, Copy, Debug, PartialEq, Eq)]
pub enum InstanceStatus {
    /// It came to its end.
    Done,
    /// A fault ended it.
    Faulted,
    /// It wasn't run, since a dependency faulted or wasn't run.
    Unrun,
}

/// What became of an instance.
#[derive(Clone, Copy, Debug, PartialEq, Eq)]
pub enum InstanceFate {
    /// It is the instance of its module.
    Live,
    /// The instance of this number took its place.
    Replaced(u32),
    /// Its module was no longer imported.
    Pruned,
    /// The page was loaded anew.
    Reloaded,
}

/// What a handler is.
#[derive(Clone, Debug, Drop, Eq, PartialEq)]
pub enum Handled {
    /// Code of its module.
    Code,
    /// A closure of the embedding program.
    Host { label: Text, number: u32 },
}

/// What became of a handler.
#[derive(Clone, Copy, Debug, PartialEq, Eq)]
pub enum HandlerEnd {
    /// It is still registered.
    Held,
    /// It was run.
    Spent,
    /// It was given up without being run.
    Dropped,
}
