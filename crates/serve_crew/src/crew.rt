// A crew, and how one job of it is begun.
ghost use Rattle.std.specs.Prelude.{◌≡◌, ◌≢◌, ◌≤◌, ◌<◌, ◌+◌, IfErr, IfOk, OnOk, false, sum};
ghost use Rattle.std.specs.Arc.{arc_value};
ghost use Rattle.transport.specs.declared.link.Phase.{Phase};
ghost use Rattle.jobs.specs.Begun.{most_starts, one_more};
ghost use Rattle.serve_crew.specs.Outs.{JobOf, kind_of};
ghost use Rattle.serve_crew.specs.Crews.{IsCrew, ends_due, ends_of};
ghost use Rattle.crew_plans.specs.Begun.{HasBegun};
ghost use Rattle.crew_plans.specs.Gathers.{Gathers, HasPlace, SameGathered, logs_due, passes_due};
ghost use Rattle.crew_plans.specs.Hubs.{IsPassOf, all_given, hub_mark};
ghost use Rattle.crew_plans.specs.Lendings.{Lends};
ghost use Rattle.crew_plans.specs.Splits.{Divided, IsSpentBy};

use crate::ends::hang_up;
use crate::job::{ServeJob, ServeOut, SessionJob};
use crate::taking::take_in;
use crew_plans::{Cause, Gathered, Hub, Pass, reserve_place, split_off};
use jobs::{Gate, Job, Running, Spawner, start};
use session_desks::HubDesk;
use std::alloc::Global;
use std::sync::{Arc, Wait};
use std::thread::Threads;
use transport::{Link, Net};

/// Jobs of a hub that were begun, and what those that ended so far have left; beside them the clients of the
/// program's own that were begun, whatever these are.
#[derive(Drop)]
pub struct Crew<R: Wait + Drop, N: Net, G: Gate + Drop, C: Drop>
where
    N::End: Drop,
{
    /// The handle by which threads are begun and waited for.
    pub rt: R,
    /// What gives their memory.
    pub alloc: Global,
    /// The hub of all jobs.
    pub hub: Arc<Hub, Global>,
    /// The workers and sessions that were begun, in the order of their beginning.
    pub running: Vec<Running<ServeJob<R, N::End, G>>>,
    /// The program's own clients that were begun, in the order of their beginning.
    pub clients: Vec<C>,
    /// What jobs that ended have left.
    pub gathered: Gathered,
}

impl<
    R: Threads + Wait + Copy + Drop + Send + 'static,
    N: Net,
    G: Gate + Clone + Drop + Send + 'static,
    C: Drop,
> Crew<R, N, G, C>
where
    N::End: Drop + Send + 'static,
{
    /// A crew of a hub, of which no job was begun yet.
    pub fn new(rt: R, alloc: Global, hub: Arc<Hub, Global>) -> Self
        ensures hub { result.hub ≡ hub }
        ensures crew { IsCrew ⟦<N::End as Link>⟧ (arc_value hub)
            result.running result.clients result.gathered }
        ensures none { passes_due result.running result.gathered ≡ 0 }
        ensures no_logs { logs_due result.clients result.gathered ≡ 0 }
        ensures no_ends { ends_due result.running result.clients ≡ 0 }
        ensures well { (result.gathered.memory ≡ false) × (result.gathered.fault ≡ false) }
    {
        Crew {
            rt,
            alloc,
            hub,
            running: Vec::new(alloc),
            clients: Vec::new(alloc),
            gathered: Gathered::new(alloc),
        }
    }

    /// Splits a pass off for one more job, for which there is then a place: its hub, and the pass. It fails
    /// where memory runs out, and with [`Cause::Spent`] exactly where all numbers of passes were given; the
    /// jobs stay as they are. It takes memory for the room of the job alone, and copies the elements of its
    /// lists where these move.
    pub(crate) fn split(&mut self, pass: &mut Pass) -> Result<(Arc<Hub, Global>, Pass), Cause>
        requires crew { IsCrew ⟦<N::End as Link>⟧ (arc_value self.old.hub)
            self.old.running self.old.clients self.old.gathered }
        requires of { IsPassOf (arc_value self.old.hub) pass.old }
        ensures hub { self.new.hub ≡ self.old.hub }
        ensures crew { IsCrew ⟦<N::End as Link>⟧ (arc_value self.new.hub)
            self.new.running self.new.clients self.new.gathered }
        ensures place { OnOk result (HasPlace self.new.running self.new.gathered.passes) }
        ensures running { self.new.running.items ≡ self.old.running.items }
        ensures same { SameGathered self.old.gathered self.new.gathered }
        ensures clients { self.new.clients ≡ self.old.clients }
        ensures of { IsPassOf (arc_value self.new.hub) pass.new }
        ensures divided { Divided pass.old pass.new }
        ensures own { IfOk result (λ made. arc_value made.0 ≡ arc_value self.new.hub) }
        ensures half { IfOk result (λ made. IsPassOf (arc_value self.new.hub) made.1) }
        ensures spent { IsSpentBy (all_given pass.old) (all_given pass.new) result }
        ensures unfailed { IfErr result (λ cause. cause ≢ Cause.Fault) }
    {
        reserve_place(&mut self.running, &mut self.gathered.passes)?;
        split_off(&self.rt, &self.hub, pass)
    }

    /// Starts a job, for which there is a place. What a refused start hands back is taken in, and a fault is
    /// noted then. It takes memory for the job's thread alone.
    pub(crate) fn begin<P: Spawner>(
        &mut self,
        net: &mut N,
        spawner: &mut P,
        job: ServeJob<R, N::End, G>,
    )
        requires crew { IsCrew ⟦<N::End as Link>⟧ (arc_value self.old.hub)
            self.old.running self.old.clients self.old.gathered }
        requires place { HasPlace self.old.running self.old.gathered.passes }
        requires of { JobOf ⟦<N::End as Link>⟧ (hub_mark (arc_value self.old.hub)) job }
        requires few { sum (P.begun spawner.old) < most_starts }
        ensures hub { self.new.hub ≡ self.old.hub }
        ensures crew { IsCrew ⟦<N::End as Link>⟧ (arc_value self.new.hub)
            self.new.running self.new.clients self.new.gathered }
        ensures gathers { Gathers self.old.gathered self.new.gathered
            (N.faults net.old) (N.faults net.new) (P.faults spawner.old) (P.faults spawner.new) }
        ensures asked { (N.asked net.new ≡ N.asked net.old) × (N.heard net.new ≡ N.heard net.old) }
        ensures ends { Lends (ends_due self.old.running self.old.clients + ends_of job)
            (ends_due self.new.running self.new.clients) (N.lent net.old) (N.lent net.new) }
        ensures unasked { (N.refused net.new ≡ N.refused net.old) × (N.late net.new ≡ N.late net.old) }
        ensures begun { self.new.gathered.fault ≡ false
            → P.begun spawner.new ≡ one_more (P.begun spawner.old) (kind_of job) }
        ensures few { sum (P.begun spawner.new) ≤ sum (P.begun spawner.old) + 1 }
        ensures kept { passes_due self.new.running self.new.gathered
            ≡ passes_due self.old.running self.old.gathered + 1 }
        ensures logs { logs_due self.new.clients self.new.gathered
            ≡ logs_due self.old.clients self.old.gathered }
    {
        match start(&self.rt, self.alloc, spawner, job) {
            Ok(running) => self.running.push_reserved(running),
            Err(out) => take_in(&mut self.gathered, net, out),
        }
    }

    /// Begins a session at an end of a connection, fresh and without a fault. Where there is no pass or no
    /// memory for it, the end is closed and given back to the net, and no job is begun. A session whose
    /// start is refused is given up, a fault is noted, and the answer is Ok. It takes memory for one job.
    pub(crate) fn begin_session<P: Spawner>(
        &mut self,
        pass: &mut Pass,
        net: &mut N,
        spawner: &mut P,
        end: N::End,
    ) -> Result<(), Cause>
        requires crew { IsCrew ⟦<N::End as Link>⟧ (arc_value self.old.hub)
            self.old.running self.old.clients self.old.gathered }
        requires of { IsPassOf (arc_value self.old.hub) pass.old }
        requires fresh { N.End.phase end ≡ Phase.Fresh }
        requires clean { N.End.faults end ≡ 0 }
        requires few { sum (P.begun spawner.old) + 1 ≤ most_starts }
        ensures hub { self.new.hub ≡ self.old.hub }
        ensures crew { IsCrew ⟦<N::End as Link>⟧ (arc_value self.new.hub)
            self.new.running self.new.clients self.new.gathered }
        ensures of { IsPassOf (arc_value self.new.hub) pass.new }
        ensures divided { Divided pass.old pass.new }
        ensures gathers { Gathers self.old.gathered self.new.gathered
            (N.faults net.old) (N.faults net.new) (P.faults spawner.old) (P.faults spawner.new) }
        ensures asked { (N.asked net.new ≡ N.asked net.old) × (N.heard net.new ≡ N.heard net.old) }
        ensures ends { Lends (ends_due self.old.running self.old.clients + 1)
            (ends_due self.new.running self.new.clients) (N.lent net.old) (N.lent net.new) }
        ensures unasked { (N.refused net.new ≡ N.refused net.old) × (N.late net.new ≡ N.late net.old) }
        ensures begun { OnOk result (self.new.gathered.fault ≡ false
            → HasBegun 0 1 0 (P.begun spawner.old) (P.begun spawner.new)) }
        ensures few { sum (P.begun spawner.new) ≤ sum (P.begun spawner.old) + 1 }
        ensures kept { OnOk result (passes_due self.new.running self.new.gathered
            ≡ passes_due self.old.running self.old.gathered + 1) }
        ensures logs { logs_due self.new.clients self.new.gathered
            ≡ logs_due self.old.clients self.old.gathered }
        ensures spent { IsSpentBy (all_given pass.old) (all_given pass.new) result }
        ensures unfailed { IfErr result (λ cause. cause ≢ Cause.Fault) }
    {
        let (hub, half) = match self.split(pass) {
            Ok(made) => made,
            Err(cause) => {
                hang_up(net, end);
                return Err(cause);
            }
        };
        let desk = HubDesk::new(self.rt, hub, half);
        let job = ServeJob::Session(SessionJob::new(desk, end));
        self.begin(net, spawner, job);
        Ok(())
    }
}
