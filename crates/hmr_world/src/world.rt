// The world, and its step.
ghost use Rattle.std.specs.Prelude.{◌≡◌, ◌↔◌, ◌<◌, ◌≤◌, [], IfOk, IsErrOf, OnOk, false, length, map};
ghost use Rattle.core_model.specs.Roots.{are_distinct};
ghost use Rattle.handler_table.specs.Shelf.{marks_of};
ghost use Rattle.hmr_types.specs.declared.limits.TheConstants.{ROOTS};
ghost use Rattle.server_core.specs.declared.new_fault.NewFault.TheVariants.{DuplicateRoot, NoRoots};
ghost use Rattle.server_core.specs.declared.new_fault.NewFault.TheVariants.{TooManyRoots};
ghost use Rattle.world_laws.specs.Runs.{Run};
ghost use Rattle.run_promises.specs.Promises.{KeepsPromises, OthersAreLeftAlone};
ghost use Rattle.run_promises.specs.RunSteps.{run_on, step_in};
ghost use Rattle.world_parts.specs.Shelves.{AreHosts};
ghost use Rattle.world_parts.specs.Steps.{HasFormat, step_of};
ghost use Rattle.world_parts.specs.Stops.{AreLines};
ghost use Rattle.hmr_world.specs.Standing.{IsRunning, IsStepped, KeepsWords, StandsFor};

use crate::clients::Row;
use handler_table::Shelf;
use hmr_types::ModName;
use output_lines::OutLine;
use retained_data::{Bag, Ran};
use run_promises::what_is_promised_of_runs;
use server_core::{Core, NewFault};
use std::alloc::{AllocError, Global};
use world_parts::{Jobs, Step, WorldStop, discard};

/// The world. That it stands for a run, the list of its steps so far, is the relation `StandsFor`. It may
/// be given up at any moment; then every handler and closure in it is discarded.
pub struct World<F> {
    pub(crate) alloc: Global,
    pub(crate) core: Core,
    pub(crate) clients: Vec<Row<F>>,
    pub(crate) jobs: Jobs,
    pub(crate) shelves: Vec<Shelf<F>>,
}

impl<F: FnOnce(Bag) -> Result<Ran, AllocError> + Drop> World<F> {
    /// The world of a server's page with these roots, before the first step. The client that gets number c
    /// gets the c-th shelf, or an empty one. [`NewFault::NoRoots`] comes exactly where there are no roots,
    /// [`NewFault::TooManyRoots`] where there are more than 16, and [`NewFault::DuplicateRoot`] where there
    /// are fewer and two are equal.
    pub fn new(
        alloc: Global,
        roots: Vec<ModName>,
        shelves: Vec<Shelf<F>>,
    ) -> Result<World<F>, NewFault>
        requires hosts { AreHosts F.post shelves.items }
        ensures stands { IfOk result (StandsFor
            (record { roots = roots.items; shelves = map marks_of shelves.items; steps = [] })) }
        ensures running { IfOk result IsRunning }
        ensures words { IfOk result (KeepsWords F.post) }
        ensures none { IsErrOf result NoRoots ↔ (roots.items ≡ []) }
        ensures many { IsErrOf result TooManyRoots ↔ (ROOTS < length roots.items) }
        ensures twice { IsErrOf result DuplicateRoot ↔
            (length roots.items ≤ ROOTS) × (are_distinct roots.items ≡ false) }
    {
        match Core::new(alloc, roots) {
            Ok(core) => Ok(World {
                alloc,
                core,
                clients: Vec::new(alloc),
                jobs: Jobs::new(alloc),
                shelves,
            }),
            Err(fault) => {
                discard(shelves);
                Err(fault)
            }
        }
    }

    /// Makes one step, and gives its lines. [`WorldStop::InstancesFull`] comes where a client would make
    /// more than 20,000 instances, unless memory ran out before; [`WorldStop::NoMemory`] may come in place
    /// of any answer. Both end the run: no further step is made. What a client and the core say to one
    /// another is always an answer to the request that stands.
    ///
    /// Beside what the core and the client take, a step takes time in the logarithm of the jobs, in the
    /// number of clients, of which there are at most 32, and in its text and its lines.
    pub fn step(&mut self, step: Step) -> Result<Vec<OutLine>, WorldStop>
        requires format { HasFormat step }
        requires callable { (f : F) → F.IsAlwaysCallable f }
        requires words { KeepsWords F.post self.old }
        requires running { IsRunning self.old }
        ensures stands { (run : Run) → StandsFor run self.old
            → OnOk result (StandsFor (run_on run (step_of step)) self.new) }
        ensures lines { (run : Run) → StandsFor run self.old
            → AreLines (step_in run (step_of step)).lines result }
        ensures running { OnOk result (IsRunning self.new) }
        ensures words { KeepsWords F.post self.new }
        ensures roots { self.new.core.roots ≡ self.old.core.roots }
        ensures promises { (run : Run) → StandsFor run self.old
            → OnOk result (KeepsPromises (run_on run (step_of step))) }
        ensures isolation { (run : Run) → StandsFor run self.old
            → OnOk result (OthersAreLeftAlone run (step_of step)) }
    {
        what_is_promised_of_runs();
        self.made(step)
    }

    // The step by its kind.
    fn made(&mut self, step: Step) -> Result<Vec<OutLine>, WorldStop>
        requires format { HasFormat step }
        requires callable { (f : F) → F.IsAlwaysCallable f }
        requires words { KeepsWords F.post self.old }
        requires running { IsRunning self.old }
        ensures step { (run : Run) → StandsFor run self.old → IsStepped run (step_of step) self.new result }
        ensures words { KeepsWords F.post self.new }
        ensures roots { self.new.core.roots ≡ self.old.core.roots }
    {
        match step {
            Step::Edit(name, text) => self.edit(name, text),
            Step::Settle(name, version) => self.settle(name, version),
            Step::Open(format, roots) => self.open(format, roots),
            Step::Turn(client) => self.turn(client),
            Step::Close(client) => self.close(client),
            Step::Show(client) => self.show(client),
            Step::Values(client) => self.values(client),
            Step::Fates(client) => self.fates(client),
            Step::Fresh => self.fresh(),
            Step::FreshOf(client) => self.fresh_of(client),
        }
    }
}

impl<F: Drop> World<F> {
    /// Gives the world up with all its clients, and discards the handlers and closures that are left.
    pub fn end(self) {
        drop(self);
    }
}

impl<F: Drop> Drop for World<F> {
    fn drop(self) {
        let World {
            alloc: _,
            core: _,
            clients: _,
            jobs: _,
            shelves,
        } = self;
        discard(shelves);
    }
}
