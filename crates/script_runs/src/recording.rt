// The record of a run, by the log that it left.
ghost use Rattle.std.specs.Prelude.{◌≡◌, false, true};
ghost use Rattle.core_model.specs.Roots.{AreRoots};
ghost use Rattle.event_runs.specs.Logs.{IsLogOf, is_on};
ghost use Rattle.event_runs.specs.Playing.{Played};
ghost use Rattle.world_model.specs.Playing.{Stage};
ghost use Rattle.text_commands.specs.Recorded.{IsRecordStop, Records};
ghost use Rattle.script_runs.specs.Logged.{IsLoggedEnd, IsSomeLog, IsSomeLoggedEnd};
ghost use Rattle.script_runs.specs.Outputs.{record_of_run};
ghost use Rattle.script_runs.specs.Recording.{events_of};

use event_runs::EventLog;
use hmr_types::ModName;
use std::alloc::Global;
use text_commands::Stop;
use transcript_check::write_record;

/// The text of the record of a run that ended so and left this log, which is on.
///
/// `TranscriptFull` comes where the log is full and the run came to its end or stopped by too many instances,
/// `InstancesFull` where it stopped so and the log isn't full, and `NoMemory` where it stopped by anything
/// else or memory ran out for the text. No other stop comes. The time and the memory are those of
/// `write_record`.
pub fn record_log(
    alloc: Global,
    roots: &[ModName],
    played: Result<(), Stop>,
    log: EventLog,
) -> Result<Vec<u8>, Stop>
    requires roots { AreRoots roots.now }
    requires on { is_on log ≡ true }
    requires some { IsSomeLoggedEnd played log }
    ensures { (stage : Stage) (p : Played) → IsLoggedEnd stage p played log → stage.roots ≡ roots.now
        → Records (record_of_run stage p) result }
{
    match played {
        Ok(()) => record_events(alloc, roots, log),
        Err(stop) => Err(stop_at(&stop, &log)),
    }
}

/// The text of the record of the events of a log.
fn record_events(alloc: Global, roots: &[ModName], log: EventLog) -> Result<Vec<u8>, Stop>
    requires roots { AreRoots roots.now }
    requires on { is_on log ≡ true }
    requires some { IsSomeLog log }
    ensures { (stage : Stage) (p : Played) → IsLogOf (events_of stage p) log → p.over ≡ false
        → stage.roots ≡ roots.now → Records (record_of_run stage p) result }
{
    match log {
        EventLog::Kept(events, _) => Ok(write_record(alloc, roots, &events)?),
        EventLog::Full => Err(Stop::TranscriptFull),
        EventLog::Off => unreachable!(),
    }
}

/// Why a run that stopped so isn't recorded.
fn stop_at(stop: &Stop, log: &EventLog) -> Stop
    requires on { is_on log.now ≡ true }
    ensures { (stage : Stage) (p : Played) → (stop.now ≡ Stop.InstancesFull → p.over ≡ true)
        → (stop.now ≡ Stop.InstancesFull → IsLogOf (events_of stage p) log.now)
        → IsRecordStop (record_of_run stage p) result }
{
    match stop {
        Stop::InstancesFull => stop_at_instances(log),
        // Lines that are dropped meet no fault of an output, so memory ran out.
        _ => Stop::NoMemory,
    }
}

/// Which limit a run that ends by too many instances meets: that of a transcript, if its events passed it.
fn stop_at_instances(log: &EventLog) -> Stop
    requires on { is_on log.now ≡ true }
    ensures { (stage : Stage) (p : Played) → IsLogOf (events_of stage p) log.now → p.over ≡ true
        → IsRecordStop (record_of_run stage p) result }
{
    match log {
        EventLog::Kept(_, _) => Stop::InstancesFull,
        EventLog::Full => Stop::TranscriptFull,
        EventLog::Off => unreachable!(),
    }
}
