// The record of a server's transcript, as it stands behind the report.
ghost use Rattle.std.specs.Prelude.{◌≡◌, ◌++◌, ◌∷◌, ℕ, List, OnOk, length, true};
ghost use Rattle.hmr_hub.specs.Passes.{HasTranscript, IsPassOf, roots_of, seen_of};
ghost use Rattle.hmr_hub.specs.declared.report_line.ReportLine.{ReportLine};
ghost use Rattle.hmr_hub.specs.declared.report_line.ReportLine.TheVariants.{Steps};
ghost use Rattle.folder_edits.specs.Serving.{IsConfirmed, record_part};

use crate::context::ServerContext;
use hmr_hub::{Pass, ReportLine};
use hmr_types::ModName;
use std::alloc::AllocError;
use std::sync::Wait;
use transcript_check::write_record;
use written_records::records_are_confirmed;

/// Puts the line `record` and the record of a transcript behind a text: it is the transcript that the pass has
/// seen, of so many entries, on a hub of these roots. The check of records says yes of that record.
pub(crate) fn put_record<R: Wait>(
    context: &ServerContext<R>,
    pass: &mut Pass,
    roots: &[ModName],
    count: usize,
    text: &mut Vec<u8>,
) -> Result<(), AllocError>
    requires of { IsPassOf context.now.caller.hub.now pass.old }
    requires transcript { HasTranscript pass.old }
    requires roots { roots_of pass.old ≡ roots.now }
    requires count { count ≡ length (seen_of pass.old) }
    ensures text { OnOk result (text.new.items ≡ text.old.items ++ record_part true pass.old) }
    ensures confirmed { OnOk result (IsConfirmed pass.old) }
{
    let mut events = context.caller.hub.events(context.caller.rt, pass)?;
    events.truncate(count);
    records_are_confirmed(roots, &events);
    let record = write_record(context.caller.alloc, roots, &events)?;
    text.extend_from_slice(b"record\n")?;
    text.extend_from_slice(&record)
}

/// How many entries a report tells of in its first line.
pub(crate) fn entries_in(report: &[ReportLine]) -> usize
    ensures { (many : ℕ) (more : List ReportLine) → report.now ≡ Steps many ∷ more → result ≡ many }
{
    match report {
        [ReportLine::Steps(many), ..] => *many,
        _ => 0,
    }
}
