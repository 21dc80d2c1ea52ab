// The stop of a command where a world's run ended.
ghost use Rattle.std.specs.Prelude.{◌≡◌};
ghost use Rattle.script_runs.specs.Stops.{stop_of_world};

use text_commands::Stop;
use world_parts::WorldStop;

/// The stop of a command where a world's run ended: `InstancesFull` or `NoMemory`, as the run did.
pub fn stop_of_world(ended: WorldStop) -> Stop
    ensures { result ≡ stop_of_world ended }
{
    match ended {
        WorldStop::InstancesFull => Stop::InstancesFull,
        WorldStop::NoMemory => Stop::NoMemory,
    }
}
