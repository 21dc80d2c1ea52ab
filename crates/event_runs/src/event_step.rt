// The steps of a world with events.
ghost use Rattle.std.specs.Prelude.{◌≡◌};
ghost use Rattle.world_parts.specs.Steps.{step_of};
ghost use Rattle.event_runs.specs.Courses.{passage_of};

use hmr_types::{ClientId, ModName, Value};
use world_parts::Step;

/// One step of a world with events.
#[derive(Drop)]
pub enum EventStep {
    /// A step of the world.
    Plain(Step),
    /// An event is emitted: the module that stands for it, and its value.
    Emit(ModName, Value),
    /// A client hears the event that has waited longest for it.
    Hear(ClientId),
}

/// Whether a client comes or goes in a step of the world.
#[derive(Clone, Copy)]
pub enum Passage {
    /// A client comes, if it is taken.
    Comes,
    /// This client goes.
    Goes(ClientId),
    /// None does.
    Stays,
}

/// Whether a client comes or goes in this step. It takes constant time.
pub fn passage_of(step: &Step) -> Passage
    ensures { result ≡ passage_of (step_of step.now) }
{
    match step {
        Step::Open(_, _) => Passage::Comes,
        Step::Close(client) => Passage::Goes(*client),
        Step::Edit(_, _) => Passage::Stays,
        Step::Settle(_, _) => Passage::Stays,
        Step::Turn(_) => Passage::Stays,
        Step::Show(_) => Passage::Stays,
        Step::Values(_) => Passage::Stays,
        Step::Fates(_) => Passage::Stays,
        Step::Fresh => Passage::Stays,
        Step::FreshOf(_) => Passage::Stays,
    }
}
