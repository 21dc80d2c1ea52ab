// An event is fired at a client's page.
ghost use Rattle.std.specs.Prelude.{◌≡◌, OnOk};
ghost use Rattle.core_model.specs.Core.{client_at};
ghost use Rattle.module_language.specs.ModuleLanguage.{module_language};
ghost use Rattle.world_model.specs.World.{fires};
ghost use Rattle.world_model.specs.Turning.{heard_at};
ghost use Rattle.world_laws.specs.Runs.{Run, world_of};
ghost use Rattle.run_promises.specs.RunSteps.{run_on};
ghost use Rattle.world_parts.specs.Stops.{AreHeard};
ghost use Rattle.hmr_world.specs.Standing.{IsRunning, KeepsWords, StandsFor};

use crate::clients::place_of;
use crate::world::World;
use hmr_types::{ClientId, ModName, Value};
use output_lines::OutLine;
use retained_data::{Bag, Ran};
use runtime_events::fire;
use runtime_state::RuntimeFault;
use std::alloc::AllocError;
use world_parts::WorldStop;

impl<F: FnOnce(Bag) -> Result<Ran, AllocError> + Drop> World<F> {
    /// Fires an event with a value at a client's page, and gives the lines: None exactly where the client
    /// isn't open, its page isn't loaded, or a plan is under way; then nothing changes.
    /// [`WorldStop::NoMemory`] may come in place of any answer, and ends the run.
    pub fn fire(
        &mut self,
        client: ClientId,
        event: &ModName,
        value: &Value,
    ) -> Result<Option<Vec<OutLine>>, WorldStop>
        requires callable { (f : F) → F.IsAlwaysCallable f }
        requires words { KeepsWords F.post self.old }
        requires running { IsRunning self.old }
        ensures stands { (run : Run) → StandsFor run self.old
            → OnOk result (StandsFor (run_on run (fires client event.now value.now)) self.new) }
        ensures answer { (run : Run) → StandsFor run self.old
            → AreHeard
            (heard_at module_language event.now value.now (client_at (world_of run).clients client)) result }
        ensures running { OnOk result (IsRunning self.new) }
        ensures words { KeepsWords F.post self.new }
        ensures roots { self.new.core.roots ≡ self.old.core.roots }
    {
        let Some(place) = place_of(&self.clients, client) else {
            return Ok(None);
        };
        match fire(&mut self.clients[place].1, event, value) {
            Ok(lines) => Ok(lines),
            Err(RuntimeFault::NoMemory) => Err(WorldStop::NoMemory),
            Err(RuntimeFault::Unexpected { wanted: _, got: _ }) => unreachable!(),
            Err(RuntimeFault::InstancesFull) => unreachable!(),
            Err(RuntimeFault::Stopped) => unreachable!(),
        }
    }
}
