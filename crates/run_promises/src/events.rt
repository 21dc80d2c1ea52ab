// The event that the core is told in a step.
ghost use Rattle.world_model.specs.World as model;
ghost use Rattle.world_laws.specs.Runs.{Run};
ghost use Rattle.run_promises.specs.Events.{TellsItsEvent};

/// In each step, of every run, the core is told the event that `event_in` says and nothing else: where it
/// says one, the core is then what that event makes of it, and where it says none, the core is as it was.
pub fn each_step_tells_its_event()
    ensures { (run : Run) (s : model.Step) → TellsItsEvent run s }
{}
