// What a line of a script makes the program do.
ghost use Rattle.std.specs.Prelude.{◌≡◌, IfSome, Some};
ghost use Rattle.std.specs.Option.{option_map};
ghost use Rattle.event_runs.specs.Steps.{HasFormat, event_step_of};
ghost use Rattle.event_runs.specs.Courses.{plain};
ghost use Rattle.world_parts.specs.Steps as plain_steps;
ghost use Rattle.world_parts.specs.Steps.{step_of};
ghost use Rattle.play_script.specs.Asked as asked;
ghost use Rattle.event_runs.specs.Playing as model;
ghost use Rattle.script_runs.specs.Commands.{FitsFormat, command_seen};
ghost use Rattle.script_runs.specs.Playing.{command_of};

use event_runs::EventStep;
use hmr_types::{ClientId, Value};
use play_script::ScriptLine;
use world_parts::Step;

/// What a line of a script makes the program do.
#[derive(Drop)]
pub enum Command {
    /// One step.
    Step(EventStep),
    /// Settles all issued jobs whose result hasn't come yet, by rising version.
    SettleAll,
    /// Turns of a client until it is caught up, but at most so many.
    Turns(ClientId, u32),
}

/// The command of a line; None for `quiet`.
pub fn command_of(line: ScriptLine) -> Option<Command>
    requires { asked.HasFormat line }
    ensures command { option_map command_seen result ≡ command_of line }
    ensures format { IfSome result FitsFormat }
{
    match line {
        ScriptLine::Quiet => None,
        ScriptLine::Edit(name, text) => step(Step::Edit(name, Some(text.into_vec()))),
        ScriptLine::Remove(name) => step(Step::Edit(name, None)),
        ScriptLine::SettleAll => Some(Command::SettleAll),
        ScriptLine::Settle(name, version) => step(Step::Settle(name, version)),
        ScriptLine::Open(format, roots) => step(Step::Open(format, roots.into_vec())),
        ScriptLine::Close(client) => step(Step::Close(client)),
        ScriptLine::Turn(client) => step(Step::Turn(client)),
        ScriptLine::Turns(client, most) => Some(Command::Turns(client, most)),
        ScriptLine::Emit(event, text) => one(EventStep::Emit(event, Value::Str(text))),
        ScriptLine::Hear(client) => one(EventStep::Hear(client)),
        ScriptLine::Show(client) => step(Step::Show(client)),
        ScriptLine::Values(client) => step(Step::Values(client)),
        ScriptLine::Fates(client) => step(Step::Fates(client)),
        ScriptLine::Fresh => step(Step::Fresh),
        ScriptLine::FreshOf(client) => step(Step::FreshOf(client)),
    }
}

fn step(step: Step) -> Option<Command>
    requires { plain_steps.HasFormat step }
    ensures command { option_map command_seen result ≡ Some (model.step (plain (step_of step))) }
    ensures format { IfSome result FitsFormat }
{
    one(EventStep::Plain(step))
}

fn one(step: EventStep) -> Option<Command>
    requires { HasFormat step }
    ensures command { option_map command_seen result ≡ Some (model.step (event_step_of step)) }
    ensures format { IfSome result FitsFormat }
{
    Some(Command::Step(step))
}
