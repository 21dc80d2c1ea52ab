// What a server has to do with.

/// The outside of a server: what it writes to, its folder, the net over which its clients come, and what
/// starts its threads. Who makes it lends it whole, and has its parts again when the server is over.
#[derive(Drop)]
pub struct Outside<K, T, N, P> {
    /// The output.
    pub out: K,
    /// The folder.
    pub tree: T,
    /// The net.
    pub net: N,
    /// What starts the threads, and counts them.
    pub spawner: P,
}
