// The event that the core is told in a step, where it is told one.
ghost use Rattle.std.specs.Prelude.{◌≡◌, IfOk};
ghost use Rattle.std.specs.Option.{option_map};
ghost use Rattle.events_and_replies.specs.Said.{event_of};
ghost use Rattle.world_model.specs.World.{closes, settles, turn};
ghost use Rattle.world_laws.specs.Runs.{Run};
ghost use Rattle.run_promises.specs.Events.{event_in};
ghost use Rattle.world_parts.specs.Steps.{step_of};
ghost use Rattle.hmr_world.specs.Standing.{IsRunning, StandsFor};

use crate::clients::client_at;
use crate::world::World;
use client_exchange::event_of;
use events_and_replies::Event;
use hmr_types::{ClientId, ModName, Ver};
use std::alloc::AllocError;
use world_parts::{Step, edit_to, hello_of, result_for};

impl<F> World<F> {
    /// The event that the core would be told in this step, if it were made now; nothing changes. It is None
    /// exactly where the core is told nothing: a result that no job is issued for, a turn or a closing of a
    /// client that isn't open, and whatever only shows something. What is told is often refused, as an edit
    /// to the same text is, and is an event all the same.
    ///
    /// It takes time and memory for a copy of what the event has: the name and the text of an edit, the names
    /// of an opening, and of a turn what the client's message has, such as the table of its modules. The
    /// result of a job takes what transforming its text takes.
    pub fn event_of(&self, step: &Step) -> Result<Option<Event>, AllocError>
        requires running { IsRunning self.now }
        ensures { (run : Run) → StandsFor run self.now
            → IfOk result (λ told. option_map event_of told ≡ event_in run (step_of step.now)) }
    {
        match step {
            Step::Edit(name, text) => Ok(Some(edit_to(self.alloc, name, text)?)),
            Step::Settle(name, version) => self.result_of(name, *version),
            Step::Open(_, names) => Ok(Some(hello_of(self.alloc, names)?)),
            Step::Turn(client) => self.request_of(*client),
            Step::Close(client) => Ok(self.bye_of(*client)),
            Step::Show(_) => Ok(None),
            Step::Values(_) => Ok(None),
            Step::Fates(_) => Ok(None),
            Step::Fresh => Ok(None),
            Step::FreshOf(_) => Ok(None),
        }
    }

    // The result of an issued job.
    fn result_of(&self, name: &ModName, version: Ver) -> Result<Option<Event>, AllocError>
        requires running { IsRunning self.now }
        ensures { (run : Run) → StandsFor run self.now
            → IfOk result (λ told. option_map event_of told ≡ event_in run (settles name.now version)) }
    {
        match self.jobs.text(name, version) {
            Some(text) => Ok(Some(result_for(self.alloc, name, version, text)?)),
            None => Ok(None),
        }
    }

    // What a client that is open asks or tells.
    fn request_of(&self, client: ClientId) -> Result<Option<Event>, AllocError>
        ensures { (run : Run) → StandsFor run self.now
            → IfOk result (λ told. option_map event_of told ≡ event_in run (turn client)) }
    {
        match client_at(&self.clients, client) {
            Some(runtime) => Ok(Some(event_of(client, runtime.request()?))),
            None => Ok(None),
        }
    }

    // A client that is open goes.
    fn bye_of(&self, client: ClientId) -> Option<Event>
        ensures { (run : Run) → StandsFor run self.now
            → option_map event_of result ≡ event_in run (closes client) }
    {
        match client_at(&self.clients, client) {
            Some(_) => Some(Event::Disconnect(client)),
            None => None,
        }
    }
}
