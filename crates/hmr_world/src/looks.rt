// What a world shows; nothing changes.
ghost use Rattle.std.specs.Prelude.{◌≡◌, IfOk, is_some, map, reverse};
ghost use Rattle.core_model.specs.Core.{client_at};
ghost use Rattle.world_model.specs.Playing.{is_up_in};
ghost use Rattle.world_model.specs.World as model;
ghost use Rattle.world_laws.specs.Runs.{Run, world_of};
ghost use Rattle.run_promises.specs.RunSteps.{stage_of};
ghost use Rattle.world_parts.specs.Jobs.{key_of};
ghost use Rattle.hmr_world.specs.Standing.{IsStepped, StandsFor};

use crate::clients::client_at;
use crate::world::World;
use fresh_loads::{add_modules, load_lines};
use hmr_types::{ClientId, ModName, Ver};
use output_lines::OutLine;
use runtime_showing::{fates, stale, values};
use server_core::{fresh, fresh_of};
use std::alloc::AllocError;
use world_parts::{WorldStop, add_stale, one_line, state_of, unknown};

impl<F> World<F> {
    /// Whether the client is open and caught up: its page is loaded, no plan is under way, and nothing is
    /// changed, invalidated, dropped or waiting to be told, on either side. It takes time in the number of
    /// clients, of which there are at most 32.
    pub fn caught_up(&self, client: ClientId) -> bool
        ensures { (run : Run) → StandsFor run self.now → let world = world_of run in
            result ≡ is_up_in (stage_of run) world client (client_at world.clients client) }
    {
        match client_at(&self.clients, client) {
            Some(runtime) => self.core.at_rest(client) && runtime.at_rest(),
            None => false,
        }
    }

    /// Whether a client is open. It takes time in the number of clients, of which there are at most 32.
    pub fn is_open(&self, client: ClientId) -> bool
        ensures { (run : Run) → StandsFor run self.now
            → result ≡ is_some (client_at (world_of run).clients client) }
    {
        match client_at(&self.clients, client) {
            Some(_) => true,
            None => false,
        }
    }

    /// The names and versions of the issued jobs whose results haven't come, by rising version.
    pub fn jobs(&self) -> Result<Vec<(ModName, Ver)>, AllocError>
        ensures { (run : Run) → StandsFor run self.now
            → IfOk result (λ jobs. jobs.items ≡ map key_of (reverse (world_of run).issued)) }
    {
        self.jobs.keys(self.alloc)
    }

    /// Whether a client is caught up, its modules, and its stale edges.
    pub(crate) fn show(&self, client: ClientId) -> Result<Vec<OutLine>, WorldStop>
        ensures { (run : Run) → StandsFor run self.now
            → IsStepped run (model.show client) self.now result }
    {
        let Some(runtime) = client_at(&self.clients, client) else {
            return Ok(unknown(self.alloc, client)?);
        };
        let state = state_of(self.caught_up(client));
        let mut lines = one_line(self.alloc, OutLine::Client { client, state })?;
        add_modules(&mut lines, runtime.table()?)?;
        add_stale(&mut lines, stale(runtime)?)?;
        Ok(lines)
    }

    /// What the exports of a client's live modules hold.
    pub(crate) fn values(&self, client: ClientId) -> Result<Vec<OutLine>, WorldStop>
        ensures { (run : Run) → StandsFor run self.now
            → IsStepped run (model.values client) self.now result }
    {
        match client_at(&self.clients, client) {
            Some(runtime) => Ok(values(runtime)?),
            None => Ok(unknown(self.alloc, client)?),
        }
    }

    /// What became of each instance of a client, and of its handlers.
    pub(crate) fn fates(&self, client: ClientId) -> Result<Vec<OutLine>, WorldStop>
        ensures { (run : Run) → StandsFor run self.now
            → IsStepped run (model.fates client) self.now result }
    {
        match client_at(&self.clients, client) {
            Some(runtime) => Ok(fates(runtime)?),
            None => Ok(unknown(self.alloc, client)?),
        }
    }

    /// What a page of the server's roots would load anew.
    pub(crate) fn fresh(&self) -> Result<Vec<OutLine>, WorldStop>
        ensures { (run : Run) → StandsFor run self.now
            → IsStepped run model.fresh self.now result }
    {
        let load = fresh(self.alloc, &self.core)?;
        Ok(load_lines(self.alloc, OutLine::Fresh, load)?)
    }

    /// What a client's page would load anew.
    pub(crate) fn fresh_of(&self, client: ClientId) -> Result<Vec<OutLine>, WorldStop>
        ensures { (run : Run) → StandsFor run self.now
            → IsStepped run (model.fresh_of client) self.now result }
    {
        let Some(_) = client_at(&self.clients, client) else {
            return Ok(unknown(self.alloc, client)?);
        };
        match fresh_of(self.alloc, &self.core, client)? {
            Some(load) => Ok(load_lines(self.alloc, OutLine::FreshOf { client }, load)?),
            None => Ok(unknown(self.alloc, client)?),
        }
    }
}
