// The end of a server: the passes of its jobs become one, whose transcript is reported.
ghost use Rattle.std.specs.Prelude.{◌≡◌, ◌++◌, [], List, All, IfOk, map, true};
ghost use Rattle.std.specs.List.{flat_map};
ghost use Rattle.hmr_hub.specs.declared.report_line.ReportLine.TheVariants.{Line};
ghost use Rattle.hmr_hub.specs.Passes.{HasTranscript, IsPassOf, all_given, roots_of, seen_of};
ghost use Rattle.hmr_hub.specs.Reports.{report_of};
ghost use Rattle.hmr_hub.specs.Moves.{KnowsOwn, Moved};
ghost use Rattle.sessions.specs.declared.log.Log.{Log};
ghost use Rattle.serve_reports.specs.Logs.{AreInOrder, log_lines};
ghost use Rattle.serve_reports.specs.Within.{HasCalls, IsWithin};

use crate::log::put_log;
use hmr_hub::{Hub, Pass, ReportLine};
use sessions::Log;
use std::alloc::AllocError;
use std::sync::Wait;

/// Joins the passes of ended jobs into a pass of the same hub, and gives the report of the transcript that
/// this one has then seen, and behind it the lines of the program's own clients, by their numbers; clients
/// of one number stand as they were given. Each entry that one of the passes made stands in the transcript
/// once. It waits for the turn. `AllocError` where memory ran out: some of the passes may then have been
/// joined, and the others are gone. The time is that of the report, and in proportion to the lines.
pub fn wind_up<R: Wait>(
    rt: &R,
    hub: &Hub,
    pass: &mut Pass,
    passes: Vec<Pass>,
    logs: Vec<Log>,
) -> Result<Vec<ReportLine>, AllocError>
    requires of { IsPassOf hub.now pass.old }
    requires each_of { All (IsPassOf hub.now) passes.items }
    ensures of { IsPassOf hub.now pass.new }
    ensures own { KnowsOwn pass.old → Moved pass.old pass.new [] }
    ensures within { All (λ p. IsWithin p pass.new) passes.items }
    ensures calls { All (λ p. HasCalls p pass.new) passes.items }
    ensures transcript { HasTranscript pass.new }
    ensures given { all_given pass.old ≡ true → all_given pass.new ≡ true }
    ensures report { IfOk result (λ lines. (ordered : List Log) × AreInOrder logs.items ordered
        × (lines.items ≡ report_of (roots_of pass.old) (seen_of pass.new)
        ++ map Line (flat_map log_lines ordered))) }
{
    let report = report_of_all(rt, hub, pass, passes)?;
    with_logs(report, logs)
}

// The report of the transcript that all of the passes have seen together.
fn report_of_all<R: Wait>(
    rt: &R,
    hub: &Hub,
    pass: &mut Pass,
    passes: Vec<Pass>,
) -> Result<Vec<ReportLine>, AllocError>
    requires of { IsPassOf hub.now pass.old }
    requires each_of { All (IsPassOf hub.now) passes.items }
    ensures of { IsPassOf hub.now pass.new }
    ensures own { KnowsOwn pass.old → Moved pass.old pass.new [] }
    ensures within { All (λ p. IsWithin p pass.new) passes.items }
    ensures calls { All (λ p. HasCalls p pass.new) passes.items }
    ensures transcript { HasTranscript pass.new }
    ensures given { all_given pass.old ≡ true → all_given pass.new ≡ true }
    ensures report { IfOk result (λ lines. lines.items ≡ report_of (roots_of pass.old) (seen_of pass.new)) }
{
    join_all(hub, pass, passes);
    hub.report(rt, pass)
}

// A report with the lines of the clients behind it.
fn with_logs(report: Vec<ReportLine>, logs: Vec<Log>) -> Result<Vec<ReportLine>, AllocError>
    ensures { IfOk result (λ lines. (ordered : List Log) × AreInOrder logs.items ordered
        × (lines.items ≡ report.items ++ map Line (flat_map log_lines ordered))) }
{
    let ordered = in_order(logs)?;
    with_each(report, ordered)
}

// The logs by the numbers of their clients.
fn in_order(mut logs: Vec<Log>) -> Result<Vec<Log>, AllocError>
    ensures { IfOk result (λ ordered. AreInOrder logs.items ordered.items) }
{
    logs.sort_by_key(|log| log.client)?;
    Ok(logs)
}

// A report with the lines of these logs behind it.
fn with_each(mut report: Vec<ReportLine>, logs: Vec<Log>) -> Result<Vec<ReportLine>, AllocError>
    ensures { IfOk result (λ lines.
        lines.items ≡ report.items ++ map Line (flat_map log_lines logs.items)) }
{
    for log in logs {
        put_log(&mut report, log)?;
    }
    Ok(report)
}

// Joins each of the passes into one.
fn join_all(hub: &Hub, pass: &mut Pass, mut passes: Vec<Pass>)
    requires of { IsPassOf hub.now pass.old }
    requires each_of { All (IsPassOf hub.now) passes.items }
    ensures of { IsPassOf hub.now pass.new }
    ensures roots { roots_of pass.new ≡ roots_of pass.old }
    ensures given { all_given pass.old ≡ true → all_given pass.new ≡ true }
    ensures own { KnowsOwn pass.old → Moved pass.old pass.new [] }
    ensures within { All (λ p. IsWithin p pass.new) passes.items }
    ensures calls { All (λ p. HasCalls p pass.new) passes.items }
{
    while let Some(other) = passes.pop() {
        hub.join(pass, other);
    }
}
