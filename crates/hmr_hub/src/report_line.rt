// The lines of a hub's report, as values.
use hmr_types::ClientId;
use output_lines::OutLine;

/// A line of a hub's report.
#[derive(Drop)]
pub enum ReportLine {
    /// `steps N`: how many entries the transcript has.
    Steps(usize),
    /// A line of the fresh load of the server's roots, or a module of a client's page.
    Line(OutLine),
    /// `client C`: the modules of this client's page follow.
    Client(ClientId),
}
