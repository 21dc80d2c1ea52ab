// What a live server is given of the outside, beside its terminal.

/// The folder that is served: where its changes come from, and the site that says what its files are.
#[derive(Drop)]
pub struct Folder<W, S> {
    pub watched: W,
    pub site: S,
}

/// Where the doors and the threads of a server come from.
#[derive(Drop)]
pub struct Supply<E, P> {
    /// Which listens at this port.
    pub entrance: E,
    pub port: u16,
    /// Which says whether a thread is started, and counts those that were.
    pub spawner: P,
}
