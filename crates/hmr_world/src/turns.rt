// A turn: one request of a client, the core's answer, and what the client does with it. And a client that
// goes.
ghost use Rattle.std.specs.Prelude.{◌≡◌, OnOk};
ghost use Rattle.update_msgs.specs.Writable.{IsWritable};
ghost use Rattle.core_model.specs.Core as model;
ghost use Rattle.client_model.specs.Runtime.{Runtime};
ghost use Rattle.client_model.specs.Taking.{take};
ghost use Rattle.module_language.specs.ModuleLanguage.{module_language};
ghost use Rattle.runtime_state.specs.Standing as runtimes;
ghost use Rattle.world_model.specs.Turning.{lines_taken};
ghost use Rattle.world_model.specs.World.{closes, turn};
ghost use Rattle.world_laws.specs.Runs.{Run};
ghost use Rattle.hmr_world.specs.Clients.{IsRuntime};
ghost use Rattle.world_parts.specs.Cores.{IsCore};
ghost use Rattle.hmr_world.specs.Standing.{IsRunning, IsStepped, KeepsWords, StandsFor};
ghost use Rattle.world_parts.specs.Stops.{AreLines};
ghost use Rattle.hmr_world.specs.Turns.{CanTake, CanTurn, answer_to, taking_of};

use crate::clients::{client_at, place_of, take_out};
use crate::world::World;
use client_exchange::{event_of, message_in};
use events_and_replies::Event;
use hmr_types::ClientId;
use hot_runtime::take;
use output_lines::OutLine;
use retained_data::{Bag, Ran};
use runtime_state::{HotRuntime, RuntimeFault};
use server_core::Core;
use std::alloc::{AllocError, Global};
use update_msgs::ServerMsg;
use world_parts::{WorldStop, one_line, sent_by_client, sent_by_server, tell, unknown};

impl<F: FnOnce(Bag) -> Result<Ran, AllocError> + Drop> World<F> {
    /// One request of a client, and its answer.
    pub(crate) fn turn(&mut self, client: ClientId) -> Result<Vec<OutLine>, WorldStop>
        requires callable { (f : F) → F.IsAlwaysCallable f }
        requires words { KeepsWords F.post self.old }
        requires running { IsRunning self.old }
        ensures step { (run : Run) → StandsFor run self.old → IsStepped run (turn client) self.new result }
        ensures words { KeepsWords F.post self.new }
        ensures roots { self.new.core.roots ≡ self.old.core.roots }
    {
        let Some(place) = place_of(&self.clients, client) else {
            return Ok(unknown(self.alloc, client)?);
        };
        exchange(
            self.alloc,
            &mut self.core,
            client,
            &mut self.clients[place].1,
        )
    }

    /// A client goes.
    pub(crate) fn close(&mut self, client: ClientId) -> Result<Vec<OutLine>, WorldStop>
        requires words { KeepsWords F.post self.old }
        ensures step { (run : Run) → StandsFor run self.old → IsStepped run (closes client) self.new result }
        ensures words { KeepsWords F.post self.new }
        ensures roots { self.new.core.roots ≡ self.old.core.roots }
    {
        let Some(_) = client_at(&self.clients, client) else {
            return Ok(unknown(self.alloc, client)?);
        };
        tell(&mut self.core, self.alloc, Event::Disconnect(client))?;
        take_out(&mut self.clients, client);
        Ok(one_line(self.alloc, OutLine::Close { client })?)
    }
}

// A client asks or tells, and takes the answer. Both messages go as bytes.
fn exchange<F: FnOnce(Bag) -> Result<Ran, AllocError> + Drop>(
    alloc: Global,
    core: &mut Core,
    client: ClientId,
    runtime: &mut HotRuntime<F>,
) -> Result<Vec<OutLine>, WorldStop>
    requires callable { (f : F) → F.IsAlwaysCallable f }
    requires words { runtimes.KeepsWords F.post runtime.old }
    requires fits { CanTurn client core.old runtime.old }
    ensures core { (c : model.Core) (r : Runtime) → IsCore c core.old → IsRuntime r runtime.old
        → OnOk result (IsCore (answer_to core.old.roots c client r).0 core.new) }
    ensures runtime { (c : model.Core) (r : Runtime) → IsCore c core.old → IsRuntime r runtime.old
        → OnOk result (IsRuntime (taking_of core.old.roots c client r).after runtime.new) }
    ensures lines { (c : model.Core) (r : Runtime) → IsCore c core.old → IsRuntime r runtime.old
        → AreLines (lines_taken (taking_of core.old.roots c client r).answer) result }
    ensures words { runtimes.KeepsWords F.post runtime.new }
    ensures roots { core.new.roots ≡ core.old.roots }
{
    let request = runtime.request()?;
    let asked = sent_by_client(alloc, request)?;
    let reply = tell(core, alloc, event_of(client, asked))?;
    let Some(msg) = message_in(reply) else {
        return Ok(Vec::new(alloc));
    };
    let answer = sent_by_server(alloc, runtime.format(), msg)?;
    take_answer(runtime, answer)
}

/// A client takes the answer to its request, which it understands.
pub(crate) fn take_answer<F: FnOnce(Bag) -> Result<Ran, AllocError> + Drop>(
    runtime: &mut HotRuntime<F>,
    msg: ServerMsg,
) -> Result<Vec<OutLine>, WorldStop>
    requires writable { IsWritable runtime.old.format msg }
    requires callable { (f : F) → F.IsAlwaysCallable f }
    requires words { runtimes.KeepsWords F.post runtime.old }
    requires fits { CanTake msg runtime.old }
    ensures runtime { (r : Runtime) → IsRuntime r runtime.old
        → OnOk result (IsRuntime (take module_language r msg).after runtime.new) }
    ensures lines { (r : Runtime) → IsRuntime r runtime.old
        → AreLines (lines_taken (take module_language r msg).answer) result }
    ensures words { runtimes.KeepsWords F.post runtime.new }
{
    match take(runtime, msg) {
        Ok(lines) => Ok(lines),
        Err(RuntimeFault::InstancesFull) => Err(WorldStop::InstancesFull),
        Err(RuntimeFault::NoMemory) => Err(WorldStop::NoMemory),
        Err(RuntimeFault::Unexpected { wanted: _, got: _ }) => unreachable!(),
        Err(RuntimeFault::Stopped) => unreachable!(),
    }
}
