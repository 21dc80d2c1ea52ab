// The end of a crew: each job is waited for, and what it leaves is taken in.
ghost use Rattle.std.specs.Prelude.{◌≡◌, ◌≤◌, ◌<◌, ◌+◌, List, length, vec_capacity, vec_len};
ghost use Rattle.std.specs.List.{All};
ghost use Rattle.std.specs.Arc.{arc_value};
ghost use Rattle.core_model.specs.Names.{Name};
ghost use Rattle.hmr_hub.specs.Passes.{IsPassOf};
ghost use Rattle.live_crew.specs.Crews.{HasRoom, IsCrew, RunsOn, TakenIn, passes_due};
ghost use Rattle.live_crew.specs.Doors.{AreFresh, IsFresh, doors_in, job_of};
ghost use Rattle.live_crew.specs.Held.{HasDoors, TakenBack};
ghost use Rattle.live_crew.specs.Outs.{kind_of};

use crate::crew::Crew;
use crate::job::LiveJob;
use crate::taking::take_in;
use doors::{Door, Entrance};
use hmr_hub::{Hub, Pass};
use jobs::{Running, Spawner, finish};
use live_context::{Context, Supply};
use live_site::Site;
use std::sync::Wait;
use std::thread::Threads;

impl<
    R: Threads + Wait + Copy + Drop + Send + 'static,
    E: Entrance,
    S: Site + Drop + Send + Sync + 'static,
> Crew<R, E, S>
where
    E::Door: Drop + Send + 'static,
    <E::Door as Door>::End: Send + 'static,
    S::File: Send + 'static,
{
    /// Waits for the end of each job, and gives the passes of all, each of the hub. Each door is given back to
    /// the entrance. It takes no memory.
    pub fn finish_all<P: Spawner>(
        self,
        context: &Context<R, S>,
        supply: &mut Supply<E, P>,
    ) -> Vec<Pass>
        requires crew { IsCrew ⟦<E::Door as Door>⟧ (arc_value context.now.hub) self.running self.passes }
        ensures of { All (IsPassOf (arc_value context.now.hub)) result.items }
        ensures due { length result.items ≡ passes_due self.running self.passes }
        ensures doors { (roots : List Name) → AreFresh ⟦<E::Door as Door>⟧ roots self.running.items
            → HasDoors roots (doors_in ⟦<E::Door as Door>⟧ self.running.items) result.items }
        ensures begun { P.begun supply.new.spawner ≡ P.begun supply.old.spawner }
        ensures shut { E.is_shut supply.new.entrance ≡ E.is_shut supply.old.entrance }
    {
        let Crew {
            running,
            mut passes,
        } = self;
        finish_jobs(
            &context.rt,
            &context.hub,
            &mut supply.entrance,
            &mut supply.spawner,
            running,
            &mut passes,
        );
        passes
    }
}

// Waits for the end of each job.
#[tactic(auto, using(crate::proofs::Doors::finishing_none))]
fn finish_jobs<R: Threads + Wait + Copy + Drop, E: Entrance, P: Spawner, S: Site + Drop>(
    rt: &R,
    hub: &Hub,
    entrance: &mut E,
    spawner: &mut P,
    mut running: Vec<Running<LiveJob<R, E::Door, S>>>,
    passes: &mut Vec<Pass>,
)
where
    E::Door: Drop,
    requires jobs { All (RunsOn ⟦<E::Door as Door>⟧ hub.now) running.items }
    requires room { HasRoom running passes.old }
    requires of { All (IsPassOf hub.now) passes.old.items }
    ensures of { All (IsPassOf hub.now) passes.new.items }
    ensures due { length passes.new.items ≡ passes_due running passes.old }
    ensures doors { (roots : List Name) → AreFresh ⟦<E::Door as Door>⟧ roots running.items
        → HasDoors roots (doors_in ⟦<E::Door as Door>⟧ running.items) passes.new.items }
    ensures begun { P.begun spawner.new ≡ P.begun spawner.old }
    ensures shut { E.is_shut entrance.new ≡ E.is_shut entrance.old }
{
    while let Some(job) = running.pop() {
        finish_job(rt, hub, entrance, spawner, job, passes);
    }
}

// Waits for the end of a job.
fn finish_job<R: Threads + Wait + Copy + Drop, E: Entrance, P: Spawner, S: Site + Drop>(
    rt: &R,
    hub: &Hub,
    entrance: &mut E,
    spawner: &mut P,
    running: Running<LiveJob<R, E::Door, S>>,
    passes: &mut Vec<Pass>,
)
where
    E::Door: Drop,
    requires runs { RunsOn ⟦<E::Door as Door>⟧ hub.now running }
    requires room { vec_len passes.old < vec_capacity passes.old }
    ensures taken { TakenIn hub.now passes.old passes.new }
    ensures back { (roots : List Name) → IsFresh ⟦<E::Door as Door>⟧ roots (job_of running)
        → TakenBack roots (kind_of (job_of running)) passes.old.items passes.new.items }
    ensures begun { P.begun spawner.new ≡ P.begun spawner.old }
    ensures shut { E.is_shut entrance.new ≡ E.is_shut entrance.old }
{
    let out = finish(rt, spawner, running);
    take_in(hub, entrance, out, passes);
}
