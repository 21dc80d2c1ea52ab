// What is left to be done of a walk.
use hmr_types::ModName;

/// A task of a walk.
#[derive(Drop)]
pub enum Task {
    /// The module is visited: it is met, and what it leads to is visited, unless it was met before.
    Visit(ModName),
    /// All that the module leads to was visited: it is left.
    Leave(ModName),
}

/// What a walk has come to.
#[derive(Drop)]
pub(crate) enum Turn {
    /// The next task.
    More,
    /// A module that isn't fetched.
    Needs(ModName),
    /// The end.
    Done,
}
