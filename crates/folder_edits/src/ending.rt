// The end of a server: its report, the logs of its own clients and its record are written.
ghost use Rattle.std.specs.Prelude.{◌≡◌, ◌≢◌, ◌≤◌, ◌⊎◌, ◌++◌, ◌∷◌, Err, IfOk, List, OnOk, length};
ghost use Rattle.hmr_base.specs.Causes.{Rose};
ghost use Rattle.hmr_hub.specs.Passes.{HasTranscript, IsPassOf, roots_of, seen_of};
ghost use Rattle.hmr_hub.specs.declared.report_line.ReportLine.{ReportLine};
ghost use Rattle.hmr_hub.specs.declared.report_line.ReportLine.TheVariants.{Steps};
ghost use Rattle.hmr_hub.specs.Moves.{KnowsOwn};
ghost use Rattle.crew_plans.specs.Gathers.{IsGathered};
ghost use Rattle.serve_reports.specs.Texts.{report_text};
ghost use Rattle.folder_edits.specs.Serving.{EndsReported, IsConfirmedPart, WroteEarly};
ghost use Rattle.folder_edits.specs.Serving.{record_part, status_after};
ghost use Rattle.folder_edits.specs.Stops.{last_text};

use crate::context::ServerContext;
use crate::recording::{entries_in, put_record};
use crate::stop::{Limit, ServeStop};
use crew_plans::Gathered;
use hmr_base::{Sink, write_all};
use hmr_hub::{Pass, ReportLine};
use hmr_types::ModName;
use serve_reports::{put_report_line, wind_up};
use std::alloc::{AllocError, Global};
use std::sync::Wait;

/// What the jobs of a server have left, and how its work ended.
#[derive(Drop)]
pub struct RunEnd {
    /// What the jobs have left.
    pub gathered: Gathered,
    /// How the work ended.
    pub ended: Result<(), ServeStop>,
}

/// How a server ended: by the work's own stop, and else by what the jobs have left, out of memory before a
/// full transcript and that before a fault. It takes no memory.
pub fn end_of(run: &RunEnd) -> Result<(), ServeStop>
    ensures { result ≡ status_after run.now.gathered run.now.ended }
{
    run.ended?;
    if run.gathered.memory {
        return Err(ServeStop::NoMemory);
    }
    if run.gathered.full {
        return Err(ServeStop::Limit(Limit::Transcript));
    }
    if run.gathered.fault {
        return Err(ServeStop::Fault);
    }
    Ok(())
}

/// Joins the passes of the jobs, and writes the report, the lines of the program's own clients, and the record
/// of the transcript that is reported, where that is asked for. It is left away where memory ran out before,
/// and where memory runs out for it nothing of it is written. The end is that of the run as it is given, or
/// `Unwritten` where the output failed, or `NoMemory`. It takes memory for the whole text before it writes.
pub fn write_end<R: Wait, K: Sink>(
    context: &ServerContext<R>,
    pass: &mut Pass,
    roots: &[ModName],
    recorded: bool,
    left: RunEnd,
    out: &mut K,
) -> Result<(), ServeStop>
    requires of { IsPassOf context.now.caller.hub.now pass.old }
    requires knows { KnowsOwn pass.old }
    requires transcript { HasTranscript pass.old }
    requires roots { roots_of pass.old ≡ roots.now }
    requires gathered { IsGathered context.now.caller.hub.now left.gathered }
    requires ended { left.ended ≢ Err ServeStop.Unwritten }
    ensures reported { EndsReported recorded context.now.caller.hub.now pass.old left.gathered.full result
        (K.written out.old) (K.written out.new) }
    ensures end { (result ≡ left.ended) ⊎ (result ≡ Err ServeStop.Unwritten)
        ⊎ (result ≡ Err ServeStop.NoMemory) }
    ensures unwritten { result ≡ Err ServeStop.Unwritten → Rose (K.faults out.old) (K.faults out.new) }
    ensures later { K.faults out.old ≤ K.faults out.new }
{
    let RunEnd { gathered, ended } = left;
    if let Err(ServeStop::NoMemory) = ended {
        return Err(ServeStop::NoMemory);
    }
    let Gathered {
        passes,
        logs,
        memory: _,
        full: _,
        fault: _,
    } = gathered;
    let report = wind_up(context.caller.rt, context.caller.hub, pass, passes, logs)?;
    let text = whole_text(context, pass, roots, recorded, &report)?;
    write_all(out, &text)?;
    ended
}

// The bytes of a report of all that the pass has seen, and of the record of that, where it is asked for: one of
// which the check of records says yes.
fn whole_text<R: Wait>(
    context: &ServerContext<R>,
    pass: &mut Pass,
    roots: &[ModName],
    recorded: bool,
    report: &[ReportLine],
) -> Result<Vec<u8>, AllocError>
    requires of { IsPassOf context.now.caller.hub.now pass.old }
    requires transcript { HasTranscript pass.old }
    requires roots { roots_of pass.old ≡ roots.now }
    requires steps { (more : List ReportLine) × (report.now ≡ Steps (length (seen_of pass.old)) ∷ more) }
    ensures text { IfOk result (λ text. text.items ≡ report_text report.now ++ record_part recorded pass.old) }
    ensures confirmed { OnOk result (IsConfirmedPart recorded pass.old) }
{
    let mut text = text_of(context.caller.alloc, report)?;
    if recorded {
        put_record(context, pass, roots, entries_in(report), &mut text)?;
    }
    Ok(text)
}

// The bytes of a report.
fn text_of(alloc: Global, report: &[ReportLine]) -> Result<Vec<u8>, AllocError>
    ensures { IfOk result (λ text. text.items ≡ report_text report.now) }
{
    let mut text = Vec::new(alloc);
    for line in report {
        put_report_line(&mut text, line)?;
    }
    Ok(text)
}

/// Writes the line of a limit behind the report, where the server ended by one, and else nothing. The answer
/// of the output counts no more: where it failed, its count of faults rose. It takes no memory.
pub fn write_last<K: Sink>(out: &mut K, ended: Result<(), ServeStop>)
    ensures last { WroteEarly ended (K.written out.old) (K.written out.new) (K.faults out.old)
        (K.faults out.new) }
    ensures later { K.faults out.old ≤ K.faults out.new }
{
    let _ = write_all(out, last_line(ended).as_bytes());
}

// The line of a limit, where the server ended by one, and nothing else.
fn last_line(ended: Result<(), ServeStop>) -> &'static str
    ensures { result.now ≡ last_text ended }
{
    match ended {
        Ok(()) => "",
        Err(ServeStop::Limit(limit)) => limit.line(),
        Err(ServeStop::Unwritten | ServeStop::Tree | ServeStop::Fault | ServeStop::NoMemory) => "",
    }
}
