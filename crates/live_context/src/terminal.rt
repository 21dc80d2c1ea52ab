// Where news are told, and keys come from.
use live_lines::News;
use std::alloc::Global;

/// What a key asks for.
#[derive(Clone, Copy, Debug, PartialEq, Eq)]
pub enum Key {
    /// That the server ends.
    Quit,
    /// That all pages are loaded again, by a server that is begun anew.
    Reload,
}

/// Where news are told, and keys come from.
pub trait Terminal {
    /// The folder's modules are served, so many of them, and the doors are open.
    fn ready(&mut self, alloc: Global, modules: usize);

    /// Tells news.
    fn tell(&mut self, alloc: Global, news: News);

    /// What was asked for since it was looked at last. It doesn't wait.
    fn key(&mut self, alloc: Global) -> Option<Key>;
}
