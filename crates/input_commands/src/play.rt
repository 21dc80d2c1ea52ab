// Plays the commands of a script on a world. The lines of each step are shown as it is made.
ghost use Rattle.std.specs.List.{All};
ghost use Rattle.std.specs.Prelude.{◌≡◌, IfErr, IfOk, OnOk, false};
ghost use Rattle.event_runs.specs.Courses.{Course};
ghost use Rattle.event_runs.specs.Logs.{is_on};
ghost use Rattle.event_world.specs.Standing.{IsRunning, KeepsWords};
ghost use Rattle.event_runs.specs.Steps.{HasFormat, event_step_of};
ghost use Rattle.play_script.specs.Asked as asked;
ghost use Rattle.world_model.specs.Playing.{Stage};
ghost use Rattle.event_runs.specs.Playing.{play_step, play_turns};
ghost use Rattle.event_runs.specs.Playing as model;
ghost use Rattle.text_commands.specs.Writing.{HasCause, IsPlayStop};
ghost use Rattle.script_runs.specs.Commands.{FitsFormat, command_seen};
ghost use Rattle.script_runs.specs.Playing.{commanded, nothing, perform, quieted, settled_by};
ghost use Rattle.input_commands.specs.Standing.{IsAt, Plays};

use event_runs::EventStep;
use event_world::EventWorld;
use hmr_types::{ClientId, ModName, Ver};
use play_script::{Commands, ScriptLine};
use retained_data::{Bag, Ran};
use script_runs::{Command, command_of, stop_of_world};
use std::alloc::{AllocError, Global};
use text_commands::{LineSink, Stop};
use world_parts::Step;

/// Plays the commands of a script, which are asked for one by one, and shows the lines of each step as the
/// step is made.
///
/// `InstancesFull` comes only where a client would make too many instances, `Unwritten` only where the
/// sink's count of faults rose in this call, and `NoMemory` where memory ran out. No other stop comes.
pub fn play_lines<F: FnOnce(Bag) -> Result<Ran, AllocError> + Drop, K: LineSink>(
    alloc: Global,
    world: &mut EventWorld<F>,
    commands: Commands<'_>,
    out: &mut K,
) -> Result<(), Stop>
    requires callable { (f : F) → F.IsAlwaysCallable f }
    requires words { KeepsWords F.post world.old }
    requires running { IsRunning world.old }
    ensures plays { (stage : Stage) (c : Course) → IsAt stage c world.old
        → Plays stage (K.taken out.old) (K.taken out.new)
        (perform stage commands.entry false c) world.new result }
    ensures on { is_on world.new.log ≡ is_on world.old.log }
    ensures stops { IfErr result IsPlayStop }
    ensures faults { HasCause (K.faults out.old) (K.faults out.new) result }
{
    let mut commands = commands;
    let mut quiet = false;
    'lines: loop {
        let Ok(next) = commands.next(alloc) else {
            return Err(Stop::NoMemory);
        };
        let Some(line) = next else {
            return Ok(());
        };
        match command_of(line) {
            Some(command) => {
                let played = play_command(alloc, world, quiet, command, out);
                if played.is_err() {
                    return played;
                }
            }
            None => quiet = true,
        }
    }
}

/// Plays the commands of a script that are there as values.
///
/// The stops are those of [`play_lines`].
pub fn play_all<F: FnOnce(Bag) -> Result<Ran, AllocError> + Drop, K: LineSink>(
    alloc: Global,
    world: &mut EventWorld<F>,
    lines: Vec<ScriptLine>,
    out: &mut K,
) -> Result<(), Stop>
    requires formats { All asked.HasFormat lines.items }
    requires callable { (f : F) → F.IsAlwaysCallable f }
    requires words { KeepsWords F.post world.old }
    requires running { IsRunning world.old }
    ensures plays { (stage : Stage) (c : Course) → IsAt stage c world.old
        → Plays stage (K.taken out.old) (K.taken out.new)
        (perform stage lines.items false c) world.new result }
    ensures words { KeepsWords F.post world.new }
    ensures running { OnOk result (IsRunning world.new) }
    ensures on { is_on world.new.log ≡ is_on world.old.log }
    ensures stops { IfErr result IsPlayStop }
    ensures faults { HasCause (K.faults out.old) (K.faults out.new) result }
{
    let mut quiet = false;
    'lines: for line in lines {
        match command_of(line) {
            Some(command) => {
                let played = play_command(alloc, world, quiet, command, out);
                if played.is_err() {
                    return played;
                }
            }
            None => quiet = true,
        }
    }
    Ok(())
}

fn play_command<F: FnOnce(Bag) -> Result<Ran, AllocError> + Drop, K: LineSink>(
    alloc: Global,
    world: &mut EventWorld<F>,
    quiet: bool,
    command: Command,
    out: &mut K,
) -> Result<(), Stop>
    requires format { FitsFormat command }
    requires callable { (f : F) → F.IsAlwaysCallable f }
    requires words { KeepsWords F.post world.old }
    requires running { IsRunning world.old }
    ensures plays { (stage : Stage) (c : Course) → IsAt stage c world.old
        → Plays stage (K.taken out.old) (K.taken out.new)
        (quieted quiet (commanded stage (command_seen command) c)) world.new result }
    ensures words { KeepsWords F.post world.new }
    ensures running { OnOk result (IsRunning world.new) }
    ensures on { is_on world.new.log ≡ is_on world.old.log }
    ensures stops { IfErr result IsPlayStop }
    ensures faults { HasCause (K.faults out.old) (K.faults out.new) result }
{
    match command {
        Command::Step(step) => play_step(alloc, world, quiet, step, out),
        Command::SettleAll => settle_all(alloc, world, quiet, out),
        Command::Turns(client, most) => turn_client(alloc, world, quiet, client, most, out),
    }
}

fn settle_all<F: FnOnce(Bag) -> Result<Ran, AllocError> + Drop, K: LineSink>(
    alloc: Global,
    world: &mut EventWorld<F>,
    quiet: bool,
    out: &mut K,
) -> Result<(), Stop>
    requires callable { (f : F) → F.IsAlwaysCallable f }
    requires words { KeepsWords F.post world.old }
    requires running { IsRunning world.old }
    ensures plays { (stage : Stage) (c : Course) → IsAt stage c world.old
        → Plays stage (K.taken out.old) (K.taken out.new)
        (quieted quiet (commanded stage model.settle_all c)) world.new result }
    ensures words { KeepsWords F.post world.new }
    ensures running { OnOk result (IsRunning world.new) }
    ensures on { is_on world.new.log ≡ is_on world.old.log }
    ensures stops { IfErr result IsPlayStop }
    ensures faults { HasCause (K.faults out.old) (K.faults out.new) result }
{
    let Ok(jobs) = world.world().jobs() else {
        return Err(Stop::NoMemory);
    };
    settle_jobs(alloc, world, quiet, &jobs, out)
}

fn settle_jobs<F: FnOnce(Bag) -> Result<Ran, AllocError> + Drop, K: LineSink>(
    alloc: Global,
    world: &mut EventWorld<F>,
    quiet: bool,
    jobs: &[(ModName, Ver)],
    out: &mut K,
) -> Result<(), Stop>
    requires callable { (f : F) → F.IsAlwaysCallable f }
    requires words { KeepsWords F.post world.old }
    requires running { IsRunning world.old }
    ensures plays { (stage : Stage) (c : Course) → IsAt stage c world.old
        → Plays stage (K.taken out.old) (K.taken out.new)
        (quieted quiet (settled_by stage jobs.now c)) world.new result }
    ensures words { KeepsWords F.post world.new }
    ensures running { OnOk result (IsRunning world.new) }
    ensures on { is_on world.new.log ≡ is_on world.old.log }
    ensures stops { IfErr result IsPlayStop }
    ensures faults { HasCause (K.faults out.old) (K.faults out.new) result }
{
    for (name, version) in jobs {
        let Ok(name) = copy_of(name) else {
            return Err(Stop::NoMemory);
        };
        let played = play_step(
            alloc,
            world,
            quiet,
            EventStep::Plain(Step::Settle(name, *version)),
            out,
        );
        if played.is_err() {
            return played;
        }
    }
    Ok(())
}

/// Turns of a client. One that isn't open makes one, which says so.
fn turn_client<F: FnOnce(Bag) -> Result<Ran, AllocError> + Drop, K: LineSink>(
    alloc: Global,
    world: &mut EventWorld<F>,
    quiet: bool,
    client: ClientId,
    most: u32,
    out: &mut K,
) -> Result<(), Stop>
    requires callable { (f : F) → F.IsAlwaysCallable f }
    requires words { KeepsWords F.post world.old }
    requires running { IsRunning world.old }
    ensures plays { (stage : Stage) (c : Course) → IsAt stage c world.old
        → Plays stage (K.taken out.old) (K.taken out.new)
        (quieted quiet (commanded stage (model.turns client most) c)) world.new result }
    ensures words { KeepsWords F.post world.new }
    ensures running { OnOk result (IsRunning world.new) }
    ensures on { is_on world.new.log ≡ is_on world.old.log }
    ensures stops { IfErr result IsPlayStop }
    ensures faults { HasCause (K.faults out.old) (K.faults out.new) result }
{
    if world.world().is_open(client) {
        take_turns(alloc, world, quiet, client, most, out)
    } else {
        play_step(
            alloc,
            world,
            quiet,
            EventStep::Plain(Step::Turn(client)),
            out,
        )
    }
}

fn take_turns<F: FnOnce(Bag) -> Result<Ran, AllocError> + Drop, K: LineSink>(
    alloc: Global,
    world: &mut EventWorld<F>,
    quiet: bool,
    client: ClientId,
    most: u32,
    out: &mut K,
) -> Result<(), Stop>
    requires callable { (f : F) → F.IsAlwaysCallable f }
    requires words { KeepsWords F.post world.old }
    requires running { IsRunning world.old }
    ensures plays { (stage : Stage) (c : Course) → IsAt stage c world.old
        → Plays stage (K.taken out.old) (K.taken out.new)
        (quieted quiet (play_turns stage client most (nothing c))) world.new result }
    ensures words { KeepsWords F.post world.new }
    ensures running { OnOk result (IsRunning world.new) }
    ensures on { is_on world.new.log ≡ is_on world.old.log }
    ensures stops { IfErr result IsPlayStop }
    ensures faults { HasCause (K.faults out.old) (K.faults out.new) result }
{
    'turns: for _ in 0..most {
        if world.world().caught_up(client) {
            return Ok(());
        }
        let played = play_step(
            alloc,
            world,
            quiet,
            EventStep::Plain(Step::Turn(client)),
            out,
        );
        if played.is_err() {
            return played;
        }
    }
    Ok(())
}

fn play_step<F: FnOnce(Bag) -> Result<Ran, AllocError> + Drop, K: LineSink>(
    alloc: Global,
    world: &mut EventWorld<F>,
    quiet: bool,
    step: EventStep,
    out: &mut K,
) -> Result<(), Stop>
    requires format { HasFormat step }
    requires callable { (f : F) → F.IsAlwaysCallable f }
    requires words { KeepsWords F.post world.old }
    requires running { IsRunning world.old }
    ensures plays { (stage : Stage) (c : Course) → IsAt stage c world.old
        → Plays stage (K.taken out.old) (K.taken out.new)
        (quieted quiet (play_step stage (nothing c) (event_step_of step))) world.new result }
    ensures words { KeepsWords F.post world.new }
    ensures running { OnOk result (IsRunning world.new) }
    ensures on { is_on world.new.log ≡ is_on world.old.log }
    ensures stops { IfErr result IsPlayStop }
    ensures faults { HasCause (K.faults out.old) (K.faults out.new) result }
{
    match world.step(step) {
        Ok(lines) => out.show(alloc, quiet, lines),
        Err(ended) => Err(stop_of_world(ended)),
    }
}

fn copy_of(name: &ModName) -> Result<ModName, AllocError>
    ensures { IfOk result (λ copy. copy ≡ name.now) }
{
    name.clone()
}
