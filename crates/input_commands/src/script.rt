// The command `play`: a script is read from the input, and played on a world of its own.
ghost use Rattle.std.specs.Prelude.{◌≢◌, ◌≤◌, IfErr, IfSome, IsErrOf, OnOk, false, length, map};
ghost use Rattle.std.specs.Io.KnownBytes.{IsAtEnd, Keeps};
ghost use Rattle.handler_table.specs.Shelf.{marks_of};
ghost use Rattle.hmr_base.specs.Causes.{Rose};
ghost use Rattle.hmr_base.specs.Fronts.{WritesFront};
ghost use Rattle.hmr_types.specs.declared.limits.TheConstants.{SCRIPT_BYTES};
ghost use Rattle.world_parts.specs.Shelves.{AreHosts};
ghost use Rattle.event_runs.specs.Courses.{Course};
ghost use Rattle.event_world.specs.Standing.{IsRunning, KeepsWords};
ghost use Rattle.play_script.specs.Script.{script_of};
ghost use Rattle.world_model.specs.Playing.{Stage};
ghost use Rattle.text_commands.specs.declared.stop.Stop.TheVariants.{Unread, Unwritten};
ghost use Rattle.text_commands.specs.Ends.{AreFew, Finishes, StopsAt};
ghost use Rattle.text_commands.specs.Outputs.{whole};
ghost use Rattle.text_commands.specs.Writing.{HasCause, IsPlayStop, written_as};
ghost use Rattle.script_runs.specs.Outputs.{output_of_play, output_of_script};
ghost use Rattle.script_runs.specs.Playing.{perform, script_played};
ghost use Rattle.script_runs.specs.Performing.{Performs};
ghost use Rattle.input_commands.specs.Standing.{IsAt};

use crate::play::play_lines;
use event_world::{EventWorld, World};
use handler_table::Shelf;
use hmr_base::{Sink, Source, read_all};
use hmr_types::limits::SCRIPT_BYTES;
use module_graph::copy_of;
use play_script::{Commands, Script, read_script};
use retained_data::{Bag, Ran};
use server_core::NewFault;
use std::alloc::{AllocError, Global};
use text_commands::{Stop, stop_of_fault};
use world_parts::discard;

/// Reads a script, and plays it: the lines of each step are written as the step is made. What there is to
/// write for an input is the definition `output_of_play`.
///
/// `TooLong` comes where the input has more than 16,777,216 bytes, `Faulty` where it is no script,
/// `InstancesFull` where a client would make too many instances, `Unread` and `Unwritten` only where the
/// count of faults of the input or the output rose, and `NoMemory` where memory ran out.
pub fn play<F: FnOnce(Bag) -> Result<Ran, AllocError> + Drop, S: Source, K: Sink>(
    alloc: Global,
    input: &mut S,
    out: &mut K,
    shelves: Vec<Shelf<F>>,
) -> Result<(), Stop>
    requires callable { (f : F) → F.IsAlwaysCallable f }
    requires hosts { AreHosts F.post shelves.items }
    ensures done { OnOk result (IfSome (S.left input.old) (λ bytes.
        Finishes (output_of_play (map marks_of shelves.items) bytes)
        (K.written out.old) (K.written out.new))) }
    ensures end { OnOk result (IsAtEnd (S.left input.new)) }
    ensures front { IfSome (S.left input.old) (λ bytes.
        WritesFront (K.written out.old) (K.written out.new)
        (whole (output_of_play (map marks_of shelves.items) bytes))) }
    ensures stops { IfErr result (λ stop. IfSome (S.left input.old) (λ bytes.
        StopsAt (output_of_play (map marks_of shelves.items) bytes)
        (K.written out.old) (K.written out.new) stop)) }
    ensures words { IfErr result (λ stop. stop ≢ Stop.NotACommand) }
    ensures unread { IsErrOf result Unread → Rose (S.faults input.old) (S.faults input.new) }
    ensures unread_silent { IsErrOf result Unread → Keeps (K.written out.old) (K.written out.new) }
    ensures unwritten { IsErrOf result Unwritten → Rose (K.faults out.old) (K.faults out.new) }
    ensures later { K.faults out.old ≤ K.faults out.new }
{
    match read_all(alloc, input, SCRIPT_BYTES) {
        Ok(bytes) => play_bytes(alloc, &bytes, out, shelves),
        Err(fault) => {
            discard(shelves);
            Err(Stop::from(fault))
        }
    }
}

/// Plays the script that the bytes are.
fn play_bytes<F: FnOnce(Bag) -> Result<Ran, AllocError> + Drop, K: Sink>(
    alloc: Global,
    bytes: &[u8],
    out: &mut K,
    shelves: Vec<Shelf<F>>,
) -> Result<(), Stop>
    requires short { length bytes.now ≤ SCRIPT_BYTES }
    requires callable { (f : F) → F.IsAlwaysCallable f }
    requires hosts { AreHosts F.post shelves.items }
    ensures done { OnOk result (Finishes
        (output_of_script (map marks_of shelves.items) (script_of bytes.now))
        (K.written out.old) (K.written out.new)) }
    ensures front { WritesFront (K.written out.old) (K.written out.new)
        (whole (output_of_script (map marks_of shelves.items) (script_of bytes.now))) }
    ensures stops { IfErr result (λ stop. StopsAt
        (output_of_script (map marks_of shelves.items) (script_of bytes.now))
        (K.written out.old) (K.written out.new) stop) }
    ensures words { IfErr result (λ stop. stop ≢ Stop.NotACommand) }
    ensures read { IfErr result (λ stop. stop ≢ Unread) }
    ensures unwritten { IsErrOf result Unwritten → Rose (K.faults out.old) (K.faults out.new) }
    ensures later { K.faults out.old ≤ K.faults out.new }
{
    match read_script(alloc, bytes) {
        Ok(script) => play_script(alloc, &script, out, shelves),
        Err(refusal) => {
            discard(shelves);
            Err(stop_of_fault(alloc, refusal))
        }
    }
}

/// Plays a script on a world whose clients get the closures of these shelves. Without a root it has no
/// command, and there is nothing to play.
///
/// `InstancesFull` comes only where a client would make too many instances, `Unwritten` only where the
/// sink's count of faults rose in this call, and `NoMemory` where memory ran out. No other stop comes.
fn play_script<F: FnOnce(Bag) -> Result<Ran, AllocError> + Drop, K: Sink>(
    alloc: Global,
    script: &Script<'_>,
    out: &mut K,
    shelves: Vec<Shelf<F>>,
) -> Result<(), Stop>
    requires roots { AreFew script.now.roots }
    requires callable { (f : F) → F.IsAlwaysCallable f }
    requires hosts { AreHosts F.post shelves.items }
    ensures performs { Performs (written_as (K.written out.old)) (written_as (K.written out.new))
        (script_played (map marks_of shelves.items) script.now) result }
    ensures stops { IfErr result IsPlayStop }
    ensures faults { HasCause (K.faults out.old) (K.faults out.new) result }
{
    let Ok(roots) = copy_of(alloc, script.roots()) else {
        discard(shelves);
        return Err(Stop::NoMemory);
    };
    match World::new(alloc, roots, shelves) {
        Ok(world) => {
            let events = EventWorld::new(alloc, world);
            play_on(alloc, events, script.commands(), out)
        }
        Err(NewFault::NoRoots) => Ok(()),
        Err(NewFault::TooManyRoots) => unreachable!(),
        Err(NewFault::DuplicateRoot) => unreachable!(),
    }
}

fn play_on<F: FnOnce(Bag) -> Result<Ran, AllocError> + Drop, K: Sink>(
    alloc: Global,
    world: EventWorld<F>,
    commands: Commands<'_>,
    out: &mut K,
) -> Result<(), Stop>
    requires callable { (f : F) → F.IsAlwaysCallable f }
    requires words { KeepsWords F.post world }
    requires running { IsRunning world }
    ensures performs { (stage : Stage) (c : Course) → IsAt stage c world
        → Performs (written_as (K.written out.old)) (written_as (K.written out.new))
        (perform stage commands.entry false c) result }
    ensures stops { IfErr result IsPlayStop }
    ensures faults { HasCause (K.faults out.old) (K.faults out.new) result }
{
    let mut world = world;
    let played = play_lines(alloc, &mut world, commands, out);
    world.end();
    played
}
