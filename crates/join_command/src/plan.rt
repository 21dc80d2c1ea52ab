// Which server a client joins, and how.
use hmr_types::ModName;

/// Which server a client joins, and how.
#[derive(Drop)]
pub struct JoinPlan {
    /// The port of this machine at which the server listens.
    pub port: u16,
    /// The roots of the client's page; with none it has the server's.
    pub roots: Vec<ModName>,
    /// How many requests it makes.
    pub turns: u32,
}
