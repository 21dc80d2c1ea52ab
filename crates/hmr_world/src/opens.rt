// A client comes: it says hello, and takes the answer.
ghost use Rattle.std.specs.Prelude.{◌≡◌, ◌+◌, ◌∷◌, [], ℕ, IfErr, IfOk, List, None, OnOk};
ghost use Rattle.std.specs.List.{All};
ghost use Rattle.update_msgs.specs.Writable.{IsBetween, IsFormat};
ghost use Rattle.hmr_types.specs.declared.limits.TheConstants.{LARGEST_CLIENT};
ghost use Rattle.core_model.specs.Core.{client_at, with_client};
ghost use Rattle.core_model.specs.Sources.{Text};
ghost use Rattle.client_model.specs.Runtime.{Runtime};
ghost use Rattle.handler_table.specs.Held.{IsHost};
ghost use Rattle.handler_table.specs.Shelf.{marks_of};
ghost use Rattle.runtime_state.specs.Standing as runtimes;
ghost use Rattle.world_model.specs.World.{opens};
ghost use Rattle.world_laws.specs.Runs.{Run};
ghost use Rattle.output_lines.specs.declared.out_line.OutLine.TheVariants.{Open};
ghost use Rattle.world_parts.specs.declared.stop.WorldStop.TheVariants.{NoMemory};
ghost use Rattle.world_parts.specs.Greetings.{greeted, welcomed};
ghost use Rattle.world_parts.specs.Shelves.{AreShelves};
ghost use Rattle.hmr_world.specs.Clients.{AreOpen, IsRuntime};
ghost use Rattle.hmr_world.specs.Standing.{IsRunning, IsStepped, KeepsWords, StandsFor};

use crate::turns::take_answer;
use crate::world::World;
use events_and_replies::Event;
use handler_table::Shelf;
use hmr_types::{ClientId, ModName, Sequence};
use module_graph::copy_of;
use output_lines::OutLine;
use retained_data::{Bag, Ran};
use runtime_state::HotRuntime;
use std::alloc::{AllocError, Global};
use update_msgs::ServerMsg;
use world_parts::{Greeting, WorldStop, one_line, said_to_newcomer, take_shelf, tell};

impl<F: FnOnce(Bag) -> Result<Ran, AllocError> + Drop> World<F> {
    /// A client comes, in this format and with these roots. It is open where the core takes it.
    pub(crate) fn open(
        &mut self,
        format: u8,
        names: Vec<ModName>,
    ) -> Result<Vec<OutLine>, WorldStop>
        requires format { IsFormat format }
        requires callable { (f : F) → F.IsAlwaysCallable f }
        requires words { KeepsWords F.post self.old }
        requires running { IsRunning self.old }
        ensures step { (run : Run) → StandsFor run self.old
            → IsStepped run (opens format names.items) self.new result }
        ensures words { KeepsWords F.post self.new }
        ensures roots { self.new.core.roots ≡ self.old.core.roots }
    {
        let event = Event::Connect(copy_of(self.alloc, &names)?);
        let reply = tell(&mut self.core, self.alloc, event)?;
        match said_to_newcomer(reply) {
            Greeting::Taken { client, roots } => self.admit(client, roots, format, names),
            Greeting::BadRoots => Ok(one_line(self.alloc, OutLine::OpenBadRoots)?),
            Greeting::Full => Ok(one_line(self.alloc, OutLine::OpenRefused)?),
        }
    }

    // A client is open from now on.
    fn admit(
        &mut self,
        client: ClientId,
        roots: Sequence<ModName>,
        format: u8,
        names: Vec<ModName>,
    ) -> Result<Vec<OutLine>, WorldStop>
        requires number { IsBetween 1 LARGEST_CLIENT client }
        requires format { IsFormat format }
        requires callable { (f : F) → F.IsAlwaysCallable f }
        requires words { KeepsWords F.post self.old }
        ensures clients { (rows : List (ℕ × Runtime)) (marks : List (List (Text × ℕ))) (given : ℕ)
            → client ≡ given + 1
            → AreOpen rows self.old.clients.items
            → client_at self.old.clients.items client ≡ None
            → AreShelves given marks self.old.shelves.items
            → let opened = welcomed marks format names.items client roots in
            OnOk result (AreOpen (with_client client opened rows) self.new.clients.items) }
        ensures shelves { (marks : List (List (Text × ℕ))) (given : ℕ)
            → client ≡ given + 1
            → AreShelves given marks self.old.shelves.items
            → OnOk result (AreShelves client marks self.new.shelves.items) }
        ensures lines { IfOk result (λ lines. lines.items ≡ Open client ∷ []) }
        ensures stops { IfErr result (λ stop. stop ≡ NoMemory) }
        ensures words { KeepsWords F.post self.new }
        ensures core { self.new.core ≡ self.old.core }
        ensures jobs { self.new.jobs ≡ self.old.jobs }
    {
        let shelf = take_shelf(self.alloc, &mut self.shelves, client);
        let runtime = welcome(self.alloc, shelf, client, roots, format, names)?;
        self.clients.push((client, runtime))?;
        Ok(one_line(self.alloc, OutLine::Open { client })?)
    }
}

// The runtime of a client that was just connected.
fn welcome<F: FnOnce(Bag) -> Result<Ran, AllocError> + Drop>(
    alloc: Global,
    shelf: Shelf<F>,
    client: ClientId,
    roots: Sequence<ModName>,
    format: u8,
    names: Vec<ModName>,
) -> Result<HotRuntime<F>, AllocError>
    requires number { IsBetween 1 LARGEST_CLIENT client }
    requires format { IsFormat format }
    requires callable { (f : F) → F.IsAlwaysCallable f }
    requires hosts { All (IsHost F.post) shelf }
    ensures runtime { IfOk result (IsRuntime (greeted
        (record { shelf = marks_of shelf; roots = names.items; format = format })
        client roots)) }
    ensures words { IfOk result (runtimes.KeepsWords F.post) }
{
    let mut runtime = HotRuntime::new(alloc, shelf, names, format);
    match take_answer(&mut runtime, ServerMsg::Connected { client, roots }) {
        Ok(_) => Ok(runtime),
        Err(WorldStop::NoMemory) => Err(AllocError),
        Err(WorldStop::InstancesFull) => unreachable!(),
    }
}
