// The command `record`: a script is read from the input and played, and the record of what the core was told
// in its run is written.
ghost use Rattle.std.specs.Prelude.{◌≡◌, ◌≢◌, ◌≤◌, IfErr, IfSome, IsErrOf, OnOk, false, length, map, true};
ghost use Rattle.std.specs.Io.KnownBytes.{IsAtEnd, Keeps};
ghost use Rattle.core_model.specs.Roots.{AreRoots};
ghost use Rattle.handler_table.specs.Shelf.{marks_of};
ghost use Rattle.hmr_base.specs.Causes.{Rose};
ghost use Rattle.hmr_base.specs.Fronts.{WritesFront};
ghost use Rattle.hmr_types.specs.declared.limits.TheConstants.{SCRIPT_BYTES};
ghost use Rattle.world_parts.specs.Shelves.{AreHosts};
ghost use Rattle.event_runs.specs.Courses.{Course};
ghost use Rattle.event_runs.specs.Logs.{is_on};
ghost use Rattle.event_world.specs.Standing.{IsRunning, KeepsWords};
ghost use Rattle.play_script.specs.Script.{script_of};
ghost use Rattle.world_model.specs.Playing.{Stage};
ghost use Rattle.text_commands.specs.declared.stop.Stop.TheVariants.{Unread, Unwritten};
ghost use Rattle.text_commands.specs.Ends.{AreFew, Finishes, StopsAt};
ghost use Rattle.text_commands.specs.Outputs.{whole};
ghost use Rattle.text_commands.specs.Recorded.{Records};
ghost use Rattle.script_runs.specs.Outputs.{output_of_record, record_of_run, record_of_script};
ghost use Rattle.script_runs.specs.Playing.{perform, script_played, stage_on};
ghost use Rattle.input_commands.specs.Standing.{IsAt, IsSomewhere};

use crate::play::play_lines;
use event_world::{EventWorld, World};
use handler_table::Shelf;
use hmr_base::{Sink, Source, read_all};
use hmr_types::ModName;
use hmr_types::limits::SCRIPT_BYTES;
use module_graph::copy_of;
use play_script::{Commands, Script, read_script};
use retained_data::{Bag, Ran};
use script_runs::record_log;
use server_core::NewFault;
use std::alloc::{AllocError, Global};
use text_commands::{DroppedLines, Stop, stop_of_fault, write_recorded};
use world_parts::discard;

/// Reads a script, plays it, and writes the record of the events that the core was told in its run, once it
/// is over. What there is to write for an input is the definition `output_of_record`. The events are kept in
/// memory meanwhile, within the bounds of a transcript, and then the text of their record.
///
/// `TooLong` comes where the input has more than 16,777,216 bytes, `Faulty` where it is no script,
/// `TranscriptFull` where the events have no places in a transcript, `InstancesFull` where they have and a
/// client would make too many instances, `Unread` and `Unwritten` only where the count of faults of the input
/// or the output rose, and `NoMemory` where memory ran out. No other stop comes.
pub fn record<F: FnOnce(Bag) -> Result<Ran, AllocError> + Drop, S: Source, K: Sink>(
    alloc: Global,
    input: &mut S,
    out: &mut K,
    shelves: Vec<Shelf<F>>,
) -> Result<(), Stop>
    requires callable { (f : F) → F.IsAlwaysCallable f }
    requires hosts { AreHosts F.post shelves.items }
    ensures done { OnOk result (IfSome (S.left input.old) (λ bytes.
        Finishes (output_of_record (map marks_of shelves.items) bytes)
        (K.written out.old) (K.written out.new))) }
    ensures end { OnOk result (IsAtEnd (S.left input.new)) }
    ensures front { IfSome (S.left input.old) (λ bytes.
        WritesFront (K.written out.old) (K.written out.new)
        (whole (output_of_record (map marks_of shelves.items) bytes))) }
    ensures stops { IfErr result (λ stop. IfSome (S.left input.old) (λ bytes.
        StopsAt (output_of_record (map marks_of shelves.items) bytes)
        (K.written out.old) (K.written out.new) stop)) }
    ensures words { IfErr result (λ stop. stop ≢ Stop.NotACommand) }
    ensures unread { IsErrOf result Unread → Rose (S.faults input.old) (S.faults input.new) }
    ensures unread_silent { IsErrOf result Unread → Keeps (K.written out.old) (K.written out.new) }
    ensures unwritten { IsErrOf result Unwritten → Rose (K.faults out.old) (K.faults out.new) }
    ensures later { K.faults out.old ≤ K.faults out.new }
{
    match read_all(alloc, input, SCRIPT_BYTES) {
        Ok(bytes) => record_bytes(alloc, &bytes, out, shelves),
        Err(fault) => {
            discard(shelves);
            Err(Stop::from(fault))
        }
    }
}

/// Writes the record of the script that the bytes are.
fn record_bytes<F: FnOnce(Bag) -> Result<Ran, AllocError> + Drop, K: Sink>(
    alloc: Global,
    bytes: &[u8],
    out: &mut K,
    shelves: Vec<Shelf<F>>,
) -> Result<(), Stop>
    requires short { length bytes.now ≤ SCRIPT_BYTES }
    requires callable { (f : F) → F.IsAlwaysCallable f }
    requires hosts { AreHosts F.post shelves.items }
    ensures done { OnOk result (Finishes
        (record_of_script (map marks_of shelves.items) (script_of bytes.now))
        (K.written out.old) (K.written out.new)) }
    ensures front { WritesFront (K.written out.old) (K.written out.new)
        (whole (record_of_script (map marks_of shelves.items) (script_of bytes.now))) }
    ensures stops { IfErr result (λ stop. StopsAt
        (record_of_script (map marks_of shelves.items) (script_of bytes.now))
        (K.written out.old) (K.written out.new) stop) }
    ensures words { IfErr result (λ stop. stop ≢ Stop.NotACommand) }
    ensures read { IfErr result (λ stop. stop ≢ Unread) }
    ensures unwritten { IsErrOf result Unwritten → Rose (K.faults out.old) (K.faults out.new) }
    ensures later { K.faults out.old ≤ K.faults out.new }
{
    let recorded = record_of(alloc, bytes, shelves);
    write_recorded(recorded, out)
}

/// The text of the record of the script that the bytes are.
fn record_of<F: FnOnce(Bag) -> Result<Ran, AllocError> + Drop>(
    alloc: Global,
    bytes: &[u8],
    shelves: Vec<Shelf<F>>,
) -> Result<Vec<u8>, Stop>
    requires short { length bytes.now ≤ SCRIPT_BYTES }
    requires callable { (f : F) → F.IsAlwaysCallable f }
    requires hosts { AreHosts F.post shelves.items }
    ensures { Records (record_of_script (map marks_of shelves.items) (script_of bytes.now)) result }
{
    match read_script(alloc, bytes) {
        Ok(script) => record_script(alloc, &script, shelves),
        Err(refusal) => {
            discard(shelves);
            Err(stop_of_fault(alloc, refusal))
        }
    }
}

/// The text of the record of a script. Without a root it has no command, and there is nothing to record.
fn record_script<F: FnOnce(Bag) -> Result<Ran, AllocError> + Drop>(
    alloc: Global,
    script: &Script<'_>,
    shelves: Vec<Shelf<F>>,
) -> Result<Vec<u8>, Stop>
    requires roots { AreFew script.now.roots }
    requires callable { (f : F) → F.IsAlwaysCallable f }
    requires hosts { AreHosts F.post shelves.items }
    ensures { Records (record_of_run (stage_on (map marks_of shelves.items) script.now.roots)
        (script_played (map marks_of shelves.items) script.now)) result }
{
    let names = script.roots();
    let Ok(roots) = copy_of(alloc, names) else {
        discard(shelves);
        return Err(Stop::NoMemory);
    };
    match World::new(alloc, roots, shelves) {
        Ok(world) => {
            let events = EventWorld::recording(alloc, world);
            record_on(alloc, events, names, script.commands())
        }
        Err(NewFault::NoRoots) => Ok(Vec::new(alloc)),
        Err(NewFault::TooManyRoots) => unreachable!(),
        Err(NewFault::DuplicateRoot) => unreachable!(),
    }
}

/// Plays the commands on a world that logs the events of its core, whose roots are these.
fn record_on<F: FnOnce(Bag) -> Result<Ran, AllocError> + Drop>(
    alloc: Global,
    world: EventWorld<F>,
    roots: &[ModName],
    commands: Commands<'_>,
) -> Result<Vec<u8>, Stop>
    requires roots { AreRoots roots.now }
    requires callable { (f : F) → F.IsAlwaysCallable f }
    requires words { KeepsWords F.post world }
    requires running { IsRunning world }
    requires somewhere { IsSomewhere world }
    requires on { is_on world.log ≡ true }
    ensures { (stage : Stage) (c : Course) → IsAt stage c world → stage.roots ≡ roots.now
        → Records (record_of_run stage (perform stage commands.entry false c)) result }
{
    let mut world = world;
    let played = play_lines(alloc, &mut world, commands, &mut DroppedLines {});
    let log = world.end_with_log();
    record_log(alloc, roots, played, log)
}
