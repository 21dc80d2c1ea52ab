// What the core is told in the steps of a world with events.
ghost use Rattle.event_runs.specs.CoreEvents.{TellsItsEvent};
ghost use Rattle.event_runs.specs.Courses.{EventStep};
ghost use Rattle.event_runs.specs.Runs.{EventRun};

use run_promises::each_step_tells_its_event;

/// In each step, of every run with events, the core is told the event that `core_event_in` says and nothing
/// else: where it says one, the core is then what that event makes of it, and where it says none, the core
/// is as it was.
pub fn each_event_step_tells_its_event()
    ensures { (run : EventRun) (s : EventStep) → TellsItsEvent run s }
{
    each_step_tells_its_event();
}
