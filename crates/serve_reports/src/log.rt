// The lines that there are to report of what a client of the program's own leaves.
ghost use Rattle.std.specs.Prelude.{◌≡◌, ◌++◌, OnOk, map};
ghost use Rattle.hmr_hub.specs.declared.report_line.ReportLine.TheVariants.{Line};
ghost use Rattle.serve_reports.specs.Logs.{end_line, end_word, log_lines};

use hmr_hub::ReportLine;
use hmr_types::ClientId;
use output_lines::{EndWord, OutLine};
use sessions::{Ended, Log};
use std::alloc::AllocError;

// Puts the lines of a client behind others.
pub(crate) fn put_log(lines: &mut Vec<ReportLine>, log: Log) -> Result<(), AllocError>
    ensures { OnOk result (lines.new.items ≡ lines.old.items ++ map Line (log_lines log)) }
{
    let client = log.client;
    let Some((ended, told)) = log.session else {
        return Ok(());
    };
    put_lines(lines, told)?;
    put_end(lines, client, &ended)
}

fn put_lines(lines: &mut Vec<ReportLine>, told: Vec<OutLine>) -> Result<(), AllocError>
    ensures { OnOk result (lines.new.items ≡ lines.old.items ++ map Line told.items) }
{
    for line in told {
        lines.push(ReportLine::Line(line))?;
    }
    Ok(())
}

// Puts the line of a session that wasn't closed.
fn put_end(lines: &mut Vec<ReportLine>, client: ClientId, ended: &Ended) -> Result<(), AllocError>
    ensures { OnOk result (lines.new.items ≡ lines.old.items ++ map Line (end_line client ended.now)) }
{
    let Some(word) = end_word(ended) else {
        return Ok(());
    };
    lines.push(ReportLine::Line(OutLine::Ended { client, word }))?;
    Ok(())
}

// The word for how a session ended, where it wasn't closed.
fn end_word(ended: &Ended) -> Option<EndWord>
    ensures { result ≡ end_word ended.now }
{
    match ended {
        Ended::Closed => None,
        Ended::LinkFault => Some(EndWord::Link),
        Ended::BadMessage(_) => Some(EndWord::Message),
        Ended::Stopped => Some(EndWord::Stopped),
        Ended::NoMemory => Some(EndWord::Memory),
        Ended::Unexpected { .. } => Some(EndWord::Unexpected),
        Ended::InstancesFull => Some(EndWord::Instances),
    }
}
