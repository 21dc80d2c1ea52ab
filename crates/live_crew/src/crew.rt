// The jobs of a live server, and how they are begun: workers, and doors. A job whose start is refused is
// given up, and no more are begun.
ghost use Rattle.std.specs.Prelude.{◌≡◌, ◌≤◌, ◌<◌, ◌+◌, All, IfOk, List, OnOk, false, length, sum, vec_len};
ghost use Rattle.std.specs.Arc.{arc_value};
ghost use Rattle.core_model.specs.Names.{Name};
ghost use Rattle.jobs.specs.Begun.{most_starts};
ghost use Rattle.transform_pool.specs.Passes as queues;
ghost use Rattle.transform_pool.specs.Passes.{role_of};
ghost use Rattle.transform_pool.specs.Roles.{taking};
ghost use Rattle.hmr_hub.specs.Passes.{IsPassOf, hub_mark, roots_of};
ghost use Rattle.live_crew.specs.Crews.{HasPlace, HasRoom, IsCrew, passes_due};
ghost use Rattle.live_crew.specs.Doors.{IsFresh, KeepsDoors};
ghost use Rattle.live_crew.specs.Held.{IsUnused};
ghost use Rattle.live_crew.specs.Outs.{JobOf};
ghost use Rattle.live_crew.specs.Splits.{Divided};

use crate::attendant::HubAttendant;
use crate::job::{LiveDoor, LiveJob, LiveOut, LiveWorker};
use crate::taking::{hand_back, take_in};
use doors::{Door, Entrance};
use hmr_hub::{Hub, Pass};
use jobs::{Running, Spawner, start};
use live_context::{Context, LiveEnd, Shared, Supply};
use live_desk::LiveBoard;
use live_site::Site;
use session_desks::HubBoard;
use std::alloc::{AllocError, Global};
use std::sync::{Arc, Wait};
use std::thread::Threads;
use transform_pool::JobPass;

/// Jobs of a hub that were begun, and the passes of those that ended so far.
#[derive(Drop)]
pub struct Crew<R: Wait + Copy + Drop, E: Entrance, S: Site + Drop>
where
    E::Door: Drop,
{
    /// The workers and doors that were begun, in the order of their beginning.
    pub running: Vec<Running<LiveJob<R, E::Door, S>>>,
    /// The passes of those that ended, for which no job runs any more.
    pub passes: Vec<Pass>,
}

impl<
    R: Threads + Wait + Copy + Drop + Send + 'static,
    E: Entrance,
    S: Site + Drop + Send + Sync + 'static,
> Crew<R, E, S>
where
    E::Door: Drop + Send + 'static,
    <E::Door as Door>::End: Send + 'static,
    S::File: Send + 'static,
{
    /// A crew of which no job was begun yet. It takes no memory.
    pub fn new(context: &Context<R, S>) -> Self
        ensures crew { IsCrew ⟦<E::Door as Door>⟧ (arc_value context.now.hub)
            result.running result.passes }
        ensures none { passes_due result.running result.passes ≡ 0 }
    {
        Crew {
            running: Vec::new(context.alloc),
            passes: Vec::new(context.alloc),
        }
    }

    /// Begins a worker for each pass that takes, with a pass of the hub that is split off for it. `LiveEnd` says
    /// why no more were begun; those that were begun run on.
    pub fn begin_workers<P: Spawner>(
        &mut self,
        context: &Context<R, S>,
        pass: &mut Pass,
        supply: &mut Supply<E, P>,
        mut takers: Vec<JobPass>,
    ) -> Result<(), LiveEnd>
        requires crew { IsCrew ⟦<E::Door as Door>⟧ (arc_value context.now.hub)
            self.old.running self.old.passes }
        requires of { IsPassOf (arc_value context.now.hub) pass.old }
        requires each_of { All (λ p. queues.IsPassOf (arc_value context.now.queue) p) takers.items }
        requires each_takes { All (λ p. role_of p ≡ taking) takers.items }
        requires few { sum (P.begun supply.old.spawner) + length takers.items ≤ most_starts }
        ensures crew { IsCrew ⟦<E::Door as Door>⟧ (arc_value context.now.hub)
            self.new.running self.new.passes }
        ensures of { IsPassOf (arc_value context.now.hub) pass.new }
        ensures divided { Divided pass.old pass.new }
        ensures few { sum (P.begun supply.new.spawner)
            ≤ sum (P.begun supply.old.spawner) + length takers.items }
        ensures due { sum (P.begun supply.new.spawner) + passes_due self.old.running self.old.passes
            ≤ sum (P.begun supply.old.spawner) + passes_due self.new.running self.new.passes }
        ensures keeps { KeepsDoors ⟦<E::Door as Door>⟧ (roots_of pass.old)
            (P.begun supply.old.spawner) (P.begun supply.new.spawner)
            self.old.running.items self.new.running.items }
        ensures shut { E.is_shut supply.new.entrance ≡ E.is_shut supply.old.entrance }
    {
        while let Some(jobs) = takers.pop() {
            self.begin_worker(context, pass, supply, jobs)?;
        }
        Ok(())
    }

    // Begins a worker.
    #[tactic(auto, using(crate::proofs::Doors::doors_same))]
    fn begin_worker<P: Spawner>(
        &mut self,
        context: &Context<R, S>,
        pass: &mut Pass,
        supply: &mut Supply<E, P>,
        jobs: JobPass,
    ) -> Result<(), LiveEnd>
        requires crew { IsCrew ⟦<E::Door as Door>⟧ (arc_value context.now.hub)
            self.old.running self.old.passes }
        requires of { IsPassOf (arc_value context.now.hub) pass.old }
        requires of_queue { queues.IsPassOf (arc_value context.now.queue) jobs }
        requires takes { role_of jobs ≡ taking }
        requires few { sum (P.begun supply.old.spawner) + 1 ≤ most_starts }
        ensures crew { IsCrew ⟦<E::Door as Door>⟧ (arc_value context.now.hub)
            self.new.running self.new.passes }
        ensures of { IsPassOf (arc_value context.now.hub) pass.new }
        ensures divided { Divided pass.old pass.new }
        ensures few { sum (P.begun supply.new.spawner) ≤ sum (P.begun supply.old.spawner) + 1 }
        ensures due { sum (P.begun supply.new.spawner) + passes_due self.old.running self.old.passes
            ≤ sum (P.begun supply.old.spawner) + passes_due self.new.running self.new.passes }
        ensures keeps { KeepsDoors ⟦<E::Door as Door>⟧ (roots_of pass.old)
            (P.begun supply.old.spawner) (P.begun supply.new.spawner)
            self.old.running.items self.new.running.items }
        ensures shut { E.is_shut supply.new.entrance ≡ E.is_shut supply.old.entrance }
    {
        let queue = Arc::try_clone(&context.queue)?;
        let Shared {
            site: _,
            port: _,
            bell,
            news,
        } = context.shared.again()?;
        let (hub, half) = self.split(context, pass)?;
        let board = LiveBoard::new(HubBoard::new(hub, half, queue, jobs), bell, news);
        let job = LiveJob::Worker(LiveWorker::new(board));
        self.begin(context, supply, job)
    }

    /// Begins so many doors of the entrance, each with a pass of the hub that is split off for it. `LiveEnd` says
    /// why no more were begun; those that were begun run on.
    pub fn begin_doors<P: Spawner>(
        &mut self,
        context: &Context<R, S>,
        pass: &mut Pass,
        supply: &mut Supply<E, P>,
        doors: usize,
    ) -> Result<(), LiveEnd>
        requires crew { IsCrew ⟦<E::Door as Door>⟧ (arc_value context.now.hub)
            self.old.running self.old.passes }
        requires of { IsPassOf (arc_value context.now.hub) pass.old }
        requires going { E.is_shut supply.old.entrance ≡ false }
        requires few { sum (P.begun supply.old.spawner) + doors ≤ most_starts }
        ensures crew { IsCrew ⟦<E::Door as Door>⟧ (arc_value context.now.hub)
            self.new.running self.new.passes }
        ensures of { IsPassOf (arc_value context.now.hub) pass.new }
        ensures divided { Divided pass.old pass.new }
        ensures due { sum (P.begun supply.new.spawner) + passes_due self.old.running self.old.passes
            ≤ sum (P.begun supply.old.spawner) + passes_due self.new.running self.new.passes }
        ensures keeps { KeepsDoors ⟦<E::Door as Door>⟧ (roots_of pass.old)
            (P.begun supply.old.spawner) (P.begun supply.new.spawner)
            self.old.running.items self.new.running.items }
    {
        for _ in 0..doors {
            self.begin_door(context, pass, supply)?;
        }
        Ok(())
    }

    // Begins a door.
    #[tactic(auto, using(crate::proofs::Doors::doors_same))]
    fn begin_door<P: Spawner>(
        &mut self,
        context: &Context<R, S>,
        pass: &mut Pass,
        supply: &mut Supply<E, P>,
    ) -> Result<(), LiveEnd>
        requires crew { IsCrew ⟦<E::Door as Door>⟧ (arc_value context.now.hub)
            self.old.running self.old.passes }
        requires of { IsPassOf (arc_value context.now.hub) pass.old }
        requires going { E.is_shut supply.old.entrance ≡ false }
        requires few { sum (P.begun supply.old.spawner) + 1 ≤ most_starts }
        ensures crew { IsCrew ⟦<E::Door as Door>⟧ (arc_value context.now.hub)
            self.new.running self.new.passes }
        ensures of { IsPassOf (arc_value context.now.hub) pass.new }
        ensures divided { Divided pass.old pass.new }
        ensures few { sum (P.begun supply.new.spawner) ≤ sum (P.begun supply.old.spawner) + 1 }
        ensures due { sum (P.begun supply.new.spawner) + passes_due self.old.running self.old.passes
            ≤ sum (P.begun supply.old.spawner) + passes_due self.new.running self.new.passes }
        ensures keeps { KeepsDoors ⟦<E::Door as Door>⟧ (roots_of pass.old)
            (P.begun supply.old.spawner) (P.begun supply.new.spawner)
            self.old.running.items self.new.running.items }
        ensures going { E.is_shut supply.new.entrance ≡ false }
    {
        let own = context.shared.again()?;
        let (hub, half) = self.split(context, pass)?;
        let attendant = HubAttendant::new(context.rt, hub, half, own);
        match supply.entrance.door(context.alloc) {
            Ok(door) => {
                let job = LiveJob::Door(LiveDoor::new(door, attendant));
                self.begin(context, supply, job)
            }
            Err(fault) => {
                hand_back(attendant, &mut self.passes);
                Err(LiveEnd::from(fault))
            }
        }
    }

    // Splits a pass off for one more job, for which there is then a place.
    fn split(
        &mut self,
        context: &Context<R, S>,
        pass: &mut Pass,
    ) -> Result<(Arc<Hub, Global>, Pass), LiveEnd>
        requires crew { IsCrew ⟦<E::Door as Door>⟧ (arc_value context.now.hub)
            self.old.running self.old.passes }
        requires of { IsPassOf (arc_value context.now.hub) pass.old }
        ensures crew { IsCrew ⟦<E::Door as Door>⟧ (arc_value context.now.hub)
            self.new.running self.new.passes }
        ensures place { OnOk result (HasPlace self.new.running self.new.passes) }
        ensures running { self.new.running.items ≡ self.old.running.items }
        ensures passes { self.new.passes.items ≡ self.old.passes.items }
        ensures due { passes_due self.new.running self.new.passes
            ≡ passes_due self.old.running self.old.passes }
        ensures of { IsPassOf (arc_value context.now.hub) pass.new }
        ensures divided { Divided pass.old pass.new }
        ensures own { IfOk result (λ made. arc_value made.0 ≡ arc_value context.now.hub) }
        ensures half { IfOk result (λ made. IsPassOf (arc_value context.now.hub) made.1) }
        ensures unused { IfOk result (λ made. IsUnused (roots_of pass.old) made.1) }
    {
        reserve_place(&mut self.running, &mut self.passes)?;
        let hub = Arc::try_clone(&context.hub)?;
        let half = hub.split(&context.rt, pass)?;
        Ok((hub, half))
    }

    // Starts a job, for which there is a place. What a refused start hands back is taken in.
    #[tactic(auto, using(crate::proofs::Counts::started_few, crate::proofs::Counts::same_few))]
    fn begin<P: Spawner>(
        &mut self,
        context: &Context<R, S>,
        supply: &mut Supply<E, P>,
        job: LiveJob<R, E::Door, S>,
    ) -> Result<(), LiveEnd>
        requires crew { IsCrew ⟦<E::Door as Door>⟧ (arc_value context.now.hub)
            self.old.running self.old.passes }
        requires place { HasPlace self.old.running self.old.passes }
        requires of { JobOf ⟦<E::Door as Door>⟧ (hub_mark (arc_value context.now.hub)) job }
        requires few { sum (P.begun supply.old.spawner) < most_starts }
        ensures crew { IsCrew ⟦<E::Door as Door>⟧ (arc_value context.now.hub)
            self.new.running self.new.passes }
        ensures few { sum (P.begun supply.new.spawner) ≤ sum (P.begun supply.old.spawner) + 1 }
        ensures due { sum (P.begun supply.new.spawner) + passes_due self.old.running self.old.passes
            ≤ sum (P.begun supply.old.spawner) + passes_due self.new.running self.new.passes }
        ensures keeps { (roots : List Name) → IsFresh ⟦<E::Door as Door>⟧ roots job
            → KeepsDoors ⟦<E::Door as Door>⟧ roots
            (P.begun supply.old.spawner) (P.begun supply.new.spawner)
            self.old.running.items self.new.running.items }
        ensures shut { E.is_shut supply.new.entrance ≡ E.is_shut supply.old.entrance }
    {
        match start(&context.rt, context.alloc, &mut supply.spawner, job) {
            Ok(running) => {
                self.running.push_reserved(running);
                Ok(())
            }
            Err(out) => {
                take_in(&context.hub, &mut supply.entrance, out, &mut self.passes);
                Err(LiveEnd::Fault)
            }
        }
    }
}

// Makes room for one more job, and for what it leaves.
fn reserve_place<J>(running: &mut Vec<J>, left: &mut Vec<Pass>) -> Result<(), AllocError>
    ensures running { running.new.items ≡ running.old.items }
    ensures left { left.new.items ≡ left.old.items }
    ensures counts { (vec_len running.new ≡ vec_len running.old) × (vec_len left.new ≡ vec_len left.old) }
    ensures room { HasRoom running.old left.old → HasRoom running.new left.new }
    ensures place { OnOk result (HasPlace running.new left.new) }
{
    running.reserve(1)?;
    left.reserve(running.len() + 1)
}
