// The world with events, and its step.
ghost use Rattle.std.specs.Prelude.{◌≡◌, [], IfOk, IsErrOf, OnOk, true};
ghost use Rattle.std.specs.Option.{option_map};
ghost use Rattle.run_promises.specs.Promises.{KeepsPromises};
ghost use Rattle.hmr_world.specs.Standing as worlds;
ghost use Rattle.world_parts.specs.Steps as plain_steps;
ghost use Rattle.world_parts.specs.Steps.{step_of};
ghost use Rattle.world_parts.specs.Stops.{AreLines};
ghost use Rattle.world_parts.specs.declared.stop.WorldStop.TheVariants.{InstancesFull};
ghost use Rattle.events_and_replies.specs.Said.{event_of};
ghost use Rattle.world_laws.specs.Runs.{Run};
ghost use Rattle.event_runs.specs.CoreEvents.{core_event_in};
ghost use Rattle.event_runs.specs.Courses.{emits, hears, plain};
ghost use Rattle.event_runs.specs.Logs.{is_on};
ghost use Rattle.event_runs.specs.Runs.{EventRun, EventsAreHeard, IsThereWhereOpen, ListenersRanOnce};
ghost use Rattle.event_runs.specs.Runs.{HasNoClient, beginning, run_of, run_on, step_in};
ghost use Rattle.event_runs.specs.Steps.{HasFormat, event_step_of};
ghost use Rattle.event_world.specs.Logs.{IsLogged};
ghost use Rattle.event_world.specs.Standing.{IsRunning, IsStepped, KeepsWords, NoneIsOpen, StandsFor};

use event_runs::{EventLog, EventStep, behind, full_lines, pass, passage_of};
use events_and_replies::Event;
use hmr_types::{ClientId, ModName, Value};
use hmr_world::World;
use hot_events::Waiting;
use output_lines::OutLine;
use retained_data::{Bag, Ran};
use run_promises::what_is_promised_of_runs;
use std::alloc::{AllocError, Global};
use world_parts::{Step, WorldStop, one_line};

/// The world with events. That it stands for a run, the list of its steps so far, is the relation
/// `StandsFor`; that its log is that of the events which the core is told in the run, where they are logged,
/// is `IsLogged`. It may be given up at any moment.
#[derive(Drop)]
pub struct EventWorld<F> {
    alloc: Global,
    world: World<F>,
    waiting: Waiting,
    log: EventLog,
}

impl<F: FnOnce(Bag) -> Result<Ran, AllocError> + Drop> EventWorld<F> {
    /// The world with events, of a world in which no client is open. It logs no events of the core.
    pub fn new(alloc: Global, world: World<F>) -> EventWorld<F>
        requires none { NoneIsOpen world }
        requires words { worlds.KeepsWords F.post world }
        ensures stands { (run : Run) → worlds.StandsFor run world → HasNoClient run
            → StandsFor (beginning run) result }
        ensures logged { (run : EventRun) → IsLogged run result }
        ensures running { IsRunning result }
        ensures words { KeepsWords F.post result }
    {
        EventWorld {
            alloc,
            world,
            waiting: Waiting::new(alloc),
            log: EventLog::Off,
        }
    }

    /// The world with events, of a world that has made no step, which logs the events that the core is told
    /// in each step.
    pub fn recording(alloc: Global, world: World<F>) -> EventWorld<F>
        requires none { NoneIsOpen world }
        requires words { worlds.KeepsWords F.post world }
        ensures stands { (run : Run) → worlds.StandsFor run world → HasNoClient run
            → StandsFor (beginning run) result }
        ensures logged { (run : Run) → run.steps ≡ [] → IsLogged (beginning run) result }
        ensures on { is_on result.log ≡ true }
        ensures running { IsRunning result }
        ensures words { KeepsWords F.post result }
    {
        let log = EventLog::new(alloc);
        EventWorld {
            alloc,
            world,
            waiting: Waiting::new(alloc),
            log,
        }
    }

    /// The world, which tells whether a client is open or caught up, and the jobs under way.
    pub fn world(&self) -> &World<F>
        ensures { result.now ≡ self.now.world }
    {
        &self.world
    }

    /// The event that the world's core would be told in this step, if it were made now, as
    /// [`World::event_of`] gives it; nothing changes. It is None also for an emission and for a client that
    /// hears, since the core isn't told of either. The cost is that of [`World::event_of`].
    pub fn event_of(&self, step: &EventStep) -> Result<Option<Event>, AllocError>
        requires running { IsRunning self.now }
        ensures { (run : EventRun) → StandsFor run self.now
            → IfOk result (λ told. option_map event_of told ≡ core_event_in run (event_step_of step.now)) }
    {
        match step {
            EventStep::Plain(step) => self.world.event_of(step),
            EventStep::Emit(_, _) => Ok(None),
            EventStep::Hear(_) => Ok(None),
        }
    }

    /// Makes one step, and gives its lines.
    ///
    /// A step of the world gives the world's lines; a client that it opens gets the events that are emitted
    /// from then on, and one that it closes gives up those that wait for it. An emission gives the line
    /// `C full EVENT` of each client for which 1,024 events wait, by number; for each other open client the
    /// event waits. To hear gives `unknown C` where the client isn't open, `C quiet` where none waits, and
    /// `C busy` where its page isn't loaded or a plan is under way, and the event goes on waiting; else
    /// `C event EVENT` and the lines of its listeners, and the event waits no more.
    ///
    /// The stops are those of the world's step. An emission takes time in the number of clients, of which
    /// there are at most 32; to hear takes the time of the page's listeners, however many events wait.
    ///
    /// Where the events of the core are logged, the one that the step makes is logged before the step is made,
    /// also where the step then stops at too many instances. That takes what a copy of the event takes, and
    /// of a result once more what transforming its text takes.
    pub fn step(&mut self, step: EventStep) -> Result<Vec<OutLine>, WorldStop>
        requires format { HasFormat step }
        requires callable { (f : F) → F.IsAlwaysCallable f }
        requires words { KeepsWords F.post self.old }
        requires running { IsRunning self.old }
        ensures stands { (run : EventRun) → StandsFor run self.old
            → OnOk result (StandsFor (run_on run (event_step_of step)) self.new) }
        ensures lines { (run : EventRun) → StandsFor run self.old
            → AreLines (step_in run (event_step_of step)).lines result }
        ensures logged { (run : EventRun) → StandsFor run self.old → IsLogged run self.old
            → OnOk result (IsLogged (run_on run (event_step_of step)) self.new) }
        ensures stopped { (run : EventRun) → StandsFor run self.old → IsLogged run self.old
            → IsErrOf result InstancesFull → IsLogged (run_on run (event_step_of step)) self.new }
        ensures on { is_on self.new.log ≡ is_on self.old.log }
        ensures running { OnOk result (IsRunning self.new) }
        ensures words { KeepsWords F.post self.new }
        ensures there { (run : EventRun) → StandsFor run self.old
            → OnOk result (IsThereWhereOpen (run_on run (event_step_of step))) }
        ensures heard { (run : EventRun) → StandsFor run self.old
            → OnOk result (EventsAreHeard (run_on run (event_step_of step))) }
        ensures listeners { (run : EventRun) → StandsFor run self.old
            → OnOk result (ListenersRanOnce (run_on run (event_step_of step))) }
        ensures promises { (run : EventRun) → StandsFor run self.old
            → OnOk result (KeepsPromises (run_of (run_on run (event_step_of step)))) }
    {
        what_is_promised_of_runs();
        self.note(&step)?;
        self.made(step)
    }

    // The event that the core will be told in this step is logged, where events are logged. Nothing else
    // changes.
    fn note(&mut self, step: &EventStep) -> Result<(), AllocError>
        requires running { IsRunning self.old }
        ensures world { self.new.world ≡ self.old.world }
        ensures waiting { self.new.waiting ≡ self.old.waiting }
        ensures on { is_on self.new.log ≡ is_on self.old.log }
        ensures noted { (run : EventRun) → StandsFor run self.old → IsLogged run self.old
            → OnOk result (IsLogged (run_on run (event_step_of step.now)) self.new) }
    {
        if !self.log.is_on() {
            return Ok(());
        }
        match self.event_of(step)? {
            Some(event) => self.log.push(event),
            None => Ok(()),
        }
    }

    // The step by its kind. The log stays as it is.
    fn made(&mut self, step: EventStep) -> Result<Vec<OutLine>, WorldStop>
        requires format { HasFormat step }
        requires callable { (f : F) → F.IsAlwaysCallable f }
        requires words { KeepsWords F.post self.old }
        requires running { IsRunning self.old }
        ensures step { (run : EventRun) → StandsFor run self.old
            → IsStepped run (event_step_of step) self.new result }
        ensures words { KeepsWords F.post self.new }
        ensures log { self.new.log ≡ self.old.log }
    {
        match step {
            EventStep::Plain(step) => self.plain(step),
            EventStep::Emit(event, value) => self.emit(&event, &value),
            EventStep::Hear(client) => self.hear(client),
        }
    }

    fn plain(&mut self, step: Step) -> Result<Vec<OutLine>, WorldStop>
        requires format { plain_steps.HasFormat step }
        requires callable { (f : F) → F.IsAlwaysCallable f }
        requires words { KeepsWords F.post self.old }
        requires running { IsRunning self.old }
        ensures step { (run : EventRun) → StandsFor run self.old
            → IsStepped run (plain (step_of step)) self.new result }
        ensures words { KeepsWords F.post self.new }
        ensures log { self.new.log ≡ self.old.log }
    {
        let passage = passage_of(&step);
        let lines = self.world.step(step)?;
        pass(&mut self.waiting, passage, &lines)?;
        Ok(lines)
    }

    fn emit(&mut self, event: &ModName, value: &Value) -> Result<Vec<OutLine>, WorldStop>
        ensures step { (run : EventRun) → StandsFor run self.old
            → IsStepped run (emits event.now value.now) self.new result }
        ensures words { KeepsWords F.post self.old → KeepsWords F.post self.new }
        ensures log { self.new.log ≡ self.old.log }
    {
        let full = self.waiting.emit(event, value)?;
        let lines = full_lines(self.alloc, event, &full)?;
        Ok(lines)
    }

    fn hear(&mut self, client: ClientId) -> Result<Vec<OutLine>, WorldStop>
        requires callable { (f : F) → F.IsAlwaysCallable f }
        requires words { KeepsWords F.post self.old }
        requires running { IsRunning self.old }
        ensures step { (run : EventRun) → StandsFor run self.old
            → IsStepped run (hears client) self.new result }
        ensures words { KeepsWords F.post self.new }
        ensures log { self.new.log ≡ self.old.log }
    {
        if !self.world.is_open(client) {
            return Ok(one_line(self.alloc, OutLine::Unknown { client })?);
        }
        let Some(first) = self.waiting.first(client) else {
            return Ok(one_line(self.alloc, OutLine::Quiet { client })?);
        };
        let (event, value) = first.parts();
        let event = copy_of(event)?;
        match self.world.fire(client, &event, value)? {
            None => Ok(one_line(self.alloc, OutLine::Busy { client })?),
            Some(lines) => {
                self.waiting.take_first(client);
                Ok(behind(OutLine::Event { client, event }, lines)?)
            }
        }
    }
}

impl<F: Drop> EventWorld<F> {
    /// Gives the world up with all its clients and events.
    pub fn end(self) {
        self.world.end();
    }

    /// Gives the world up with all its clients and events, and hands out the log of the events that the core
    /// was told.
    pub fn end_with_log(self) -> EventLog
        ensures { result ≡ self.log }
    {
        self.world.end();
        self.log
    }
}

fn copy_of(name: &ModName) -> Result<ModName, AllocError>
    ensures { IfOk result (λ copy. copy ≡ name.now) }
{
    name.clone()
}
