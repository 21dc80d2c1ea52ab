// The command `make`: a script is generated and played, its lines are kept, and their summary is written.
ghost use Rattle.std.specs.List.{All};
ghost use Rattle.std.specs.Prelude.{◌≡◌, ◌≢◌, ◌<◌, ◌≤◌, IfErr, IfOk, IsErrOf, OnOk, false, map};
ghost use Rattle.handler_table.specs.Shelf.{marks_of};
ghost use Rattle.hmr_base.specs.Causes.{Rose};
ghost use Rattle.hmr_base.specs.Fronts.{WritesFront};
ghost use Rattle.world_parts.specs.Shelves.{AreHosts};
ghost use Rattle.event_runs.specs.Courses.{Course, world_in};
ghost use Rattle.event_world.specs.Standing.{IsRunning, KeepsWords};
ghost use Rattle.play_script.specs.Asked.{HasFormat};
ghost use Rattle.world_model.specs.Playing.{Stage};
ghost use Rattle.text_commands.specs.declared.stop.Stop.TheVariants.{Unread, Unwritten};
ghost use Rattle.text_commands.specs.Ends.{Finishes, StopsAt};
ghost use Rattle.text_commands.specs.Outputs.{whole};
ghost use Rattle.made_scripts.specs.Making.{generated};
ghost use Rattle.script_runs.specs.Instances.{instances_made};
ghost use Rattle.script_runs.specs.Outputs.{output_of_make};
ghost use Rattle.script_runs.specs.Playing.{perform, script_played, stage_on};
ghost use Rattle.script_runs.specs.Summing.{SumsUp};
ghost use Rattle.input_commands.specs.Standing.{IsAt};

use crate::play::play_all;
use event_runs::EventStep;
use event_world::{EventWorld, World};
use handler_table::Shelf;
use hmr_base::{Sink, write_all};
use hmr_types::ClientId;
use made_scripts::{Generated, count_instances, generate, summary};
use play_script::ScriptLine;
use retained_data::{Bag, Ran};
use server_core::NewFault;
use std::alloc::{AllocError, Global};
use text_commands::{KeptLines, Stop};
use world_parts::{Step, WorldStop, discard};

/// Makes the script of a page of `count` modules that the seed gives, plays it on a world whose clients get
/// the closures of these shelves, and writes the summary of its run. What there is to write is the
/// definition `output_of_make`. The lines of the run are kept in memory until its end.
///
/// `InstancesFull` comes where the client would make too many instances, `Unwritten` only where the count
/// of faults of the output rose, and `NoMemory` where memory ran out. No other stop comes.
pub fn make<F: FnOnce(Bag) -> Result<Ran, AllocError> + Drop, K: Sink>(
    alloc: Global,
    count: u32,
    seed: u32,
    out: &mut K,
    shelves: Vec<Shelf<F>>,
) -> Result<(), Stop>
    requires some { 0 < count }
    requires few { count ≤ 4096 }
    requires callable { (f : F) → F.IsAlwaysCallable f }
    requires hosts { AreHosts F.post shelves.items }
    ensures done { OnOk result (Finishes
        (output_of_make (map marks_of shelves.items) count seed) (K.written out.old) (K.written out.new)) }
    ensures front { WritesFront (K.written out.old) (K.written out.new)
        (whole (output_of_make (map marks_of shelves.items) count seed)) }
    ensures stops { IfErr result (λ stop. StopsAt
        (output_of_make (map marks_of shelves.items) count seed)
        (K.written out.old) (K.written out.new) stop) }
    ensures words { IfErr result (λ stop. stop ≢ Stop.NotACommand) }
    ensures read { IfErr result (λ stop. stop ≢ Unread) }
    ensures unwritten { IsErrOf result Unwritten → Rose (K.faults out.old) (K.faults out.new) }
    ensures later { K.faults out.old ≤ K.faults out.new }
{
    let summary = summary_of(alloc, count, seed, shelves)?;
    write_all(out, &summary)?;
    Ok(())
}

/// The summary of the run of the script that is generated.
fn summary_of<F: FnOnce(Bag) -> Result<Ran, AllocError> + Drop>(
    alloc: Global,
    count: u32,
    seed: u32,
    shelves: Vec<Shelf<F>>,
) -> Result<Vec<u8>, Stop>
    requires some { 0 < count }
    requires few { count ≤ 4096 }
    requires callable { (f : F) → F.IsAlwaysCallable f }
    requires hosts { AreHosts F.post shelves.items }
    ensures { SumsUp (stage_on (map marks_of shelves.items) (generated count seed).roots) count
        (script_played (map marks_of shelves.items) (generated count seed)) result }
{
    let Ok(script) = generate(alloc, count, seed) else {
        discard(shelves);
        return Err(Stop::NoMemory);
    };
    let Generated { roots, lines } = script;
    match World::new(alloc, roots, shelves) {
        Ok(world) => {
            let events = EventWorld::new(alloc, world);
            sum_up(alloc, events, count, lines)
        }
        Err(NewFault::NoRoots) => unreachable!(),
        Err(NewFault::TooManyRoots) => unreachable!(),
        Err(NewFault::DuplicateRoot) => unreachable!(),
    }
}

fn sum_up<F: FnOnce(Bag) -> Result<Ran, AllocError> + Drop>(
    alloc: Global,
    world: EventWorld<F>,
    count: u32,
    lines: Vec<ScriptLine>,
) -> Result<Vec<u8>, Stop>
    requires formats { All HasFormat lines.items }
    requires callable { (f : F) → F.IsAlwaysCallable f }
    requires words { KeepsWords F.post world }
    requires running { IsRunning world }
    ensures { (stage : Stage) (c : Course) → IsAt stage c world
        → SumsUp stage count (perform stage lines.items false c) result }
{
    let mut world = world;
    let summed = play_and_sum(alloc, &mut world, count, lines);
    world.end();
    summed
}

/// Plays the commands, and sums up the lines that are shown.
fn play_and_sum<F: FnOnce(Bag) -> Result<Ran, AllocError> + Drop>(
    alloc: Global,
    world: &mut EventWorld<F>,
    count: u32,
    lines: Vec<ScriptLine>,
) -> Result<Vec<u8>, Stop>
    requires formats { All HasFormat lines.items }
    requires callable { (f : F) → F.IsAlwaysCallable f }
    requires words { KeepsWords F.post world.old }
    requires running { IsRunning world.old }
    ensures { (stage : Stage) (c : Course) → IsAt stage c world.old
        → SumsUp stage count (perform stage lines.items false c) result }
{
    let mut kept = KeptLines {
        lines: Vec::new(alloc),
    };
    play_all(alloc, world, lines, &mut kept)?;
    let instances = instances_made(world, 1)?;
    Ok(summary(alloc, count, instances, &kept.lines)?)
}

/// How many instances a client made: its fates tell each of them.
fn instances_made<F: FnOnce(Bag) -> Result<Ran, AllocError> + Drop>(
    world: &mut EventWorld<F>,
    client: ClientId,
) -> Result<u64, Stop>
    requires callable { (f : F) → F.IsAlwaysCallable f }
    requires words { KeepsWords F.post world.old }
    requires running { IsRunning world.old }
    ensures made { (stage : Stage) (c : Course) → IsAt stage c world.old
        → IfOk result (λ made. made ≡ instances_made (world_in stage c) client) }
    ensures stops { IfErr result (λ stop. stop ≡ Stop.NoMemory) }
{
    match world.step(EventStep::Plain(Step::Fates(client))) {
        Ok(lines) => Ok(count_instances(&lines)),
        Err(WorldStop::InstancesFull) => unreachable!(),
        Err(WorldStop::NoMemory) => Err(Stop::NoMemory),
    }
}
