// What a session of one of the program's own clients leaves.
use crate::ended::Ended;
use hmr_types::ClientId;
use output_lines::OutLine;

/// What a session of one of the program's own clients leaves.
#[derive(Drop)]
pub struct Log {
    /// The number of the client, or 0 where the server gave it none.
    pub client: ClientId,
    /// How the session ended, and the lines of what the client took, in order. `None` where the job of the
    /// client was given up before it began: there is nothing to report then.
    pub session: Option<(Ended, Vec<OutLine>)>,
}
