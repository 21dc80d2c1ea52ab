// The whole of a live server: its hub is made, jobs are begun, the folder is looked at until the end, and all
// is wound up.
ghost use Rattle.std.specs.Prelude.{◌≡◌, ◌≤◌, ◌+◌, All, IfOk, OnOk, false, length, sum, true};
ghost use Rattle.std.specs.Arc.{arc_value};
ghost use Rattle.core_model.specs.Roots.{AreRoots};
ghost use Rattle.jobs.specs.Begun.{none_begun};
ghost use Rattle.transform_pool.specs.Passes as queues;
ghost use Rattle.transform_pool.specs.Passes.{role_of};
ghost use Rattle.transform_pool.specs.Roles.{putting, taking};
ghost use Rattle.hmr_hub.specs.Calls.{IsFirst};
ghost use Rattle.hmr_hub.specs.Passes.{HasTranscript, IsPassOf, roots_of};
ghost use Rattle.hmr_hub.specs.declared.pass.Pass.{Pass};
ghost use Rattle.live_editor.specs.Editors.{GoesOn};
ghost use Rattle.live_crew.specs.Crews.{IsCrew, passes_due};
ghost use Rattle.live_crew.specs.Doors.{KeepsDoors};
ghost use Rattle.live_server.specs.Serving.{HasRecord, Served};
ghost use Rattle.live_crew.specs.Splits.{Divided};

use crate::ending::wind_up_all;
use doors::{Door, Entrance};
use hmr_hub::{Hub, HubFault, Pass};
use hmr_types::ModName;
use jobs::Spawner;
use live_context::{Context, Folder, LiveEnd, LivePlan, LiveReport, Shared, Supply, Terminal};
use live_crew::Crew;
use live_editor::{LiveEditor, run_rounds, tell_all};
use live_folder::Watched;
use live_site::Site;
use module_graph::copy_of;
use std::alloc::{AllocError, Global};
use std::sync::{Arc, Wait};
use std::thread::Threads;
use std::time::Clock;
use transform_pool::{JobPass, JobQueue};

/// The most doors, at all addresses together.
const MOST_DOORS: usize = 900;

/// Serves the modules of a folder until a key says that it ends, or its hub can take no more.
///
/// The entrance listens at its port. Workers and doors are begun, the folder is looked at for the first
/// time, and once its modules are served whoever comes to a door is answered, and the terminal is told. The
/// caller's thread then looks at the folder again and again, and makes the edits that it brings; news go to
/// the terminal. At the end the doors are shut, all jobs are finished, each door is given back to the
/// entrance, and each pass of a job is joined into the editor's, which has then seen the one transcript of
/// the hub, and in it the calls of each door's pass, which are those of the sessions that the door held. Its
/// record is given where the plan asks for it. It waits.
///
/// `AllocError` comes where memory ran out before any job was begun.
pub fn serve_live<
    R: Threads + Wait + Clock + Copy + Drop + Send + 'static,
    E: Entrance,
    P: Spawner,
    W: Watched + Drop,
    S: Site + Drop + Send + Sync + 'static,
    T: Terminal,
>(
    rt: &R,
    alloc: Global,
    plan: &LivePlan,
    folder: Folder<W, S>,
    supply: &mut Supply<E, P>,
    terminal: &mut T,
) -> Result<LiveReport, AllocError>
where
    E::Door: Drop + Send + 'static,
    <E::Door as Door>::End: Send + 'static,
    S::File: Send + 'static,
    requires roots { AreRoots plan.now.roots.now }
    requires workers { (1 ≤ plan.now.workers) × (plan.now.workers ≤ 16) }
    requires none_begun { P.begun supply.old.spawner ≡ none_begun }
    requires going { E.is_shut supply.old.entrance ≡ false }
    ensures shut { OnOk result (E.is_shut supply.new.entrance ≡ true) }
    ensures served { IfOk result (λ report. (p : Pass)
        × Served plan.now.roots.now (P.begun supply.new.spawner) p
        × HasRecord plan.now.recorded p report.record) }
{
    let Folder { mut watched, site } = folder;
    let shared = Shared::new(alloc, site, supply.port)?;
    let (hub, pass) = new_hub(alloc, copy_of(alloc, plan.roots)?)?;
    let (queue, jobs, takers) = JobQueue::new(alloc, plan.workers as usize)?;
    let hub = Arc::new(alloc, hub)?;
    let queue = Arc::new(alloc, queue)?;
    let start = Start {
        hub: Arc::try_clone(&hub)?,
        queue: Arc::try_clone(&queue)?,
        pass,
        jobs,
        takers,
    };
    let context = Context {
        rt: *rt,
        alloc,
        hub,
        queue,
        shared,
    };
    Ok(run(&context, plan, start, &mut watched, supply, terminal))
}

// The hub of roots that are those of a page. It fails only where memory runs out.
fn new_hub(alloc: Global, roots: Vec<ModName>) -> Result<(Hub, Pass), AllocError>
    requires roots { AreRoots roots.items }
    ensures pass { IfOk result (λ made. IsPassOf made.0 made.1) }
    ensures first { IfOk result (λ made. IsFirst roots.items made.1) }
    ensures transcript { IfOk result (λ made. HasTranscript made.1) }
{
    match Hub::new(alloc, roots) {
        Ok(made) => Ok(made),
        Err(HubFault::Roots(_)) => unreachable!(),
        Err(HubFault::NoMemory) => Err(AllocError),
    }
}

// What the editor and the workers begin with: the first pass of the hub, and the passes of the queue.
#[derive(Drop)]
struct Start {
    hub: Arc<Hub, Global>,
    queue: Arc<JobQueue, Global>,
    pass: Pass,
    jobs: JobPass,
    takers: Vec<JobPass>,
}

// Begins the jobs, makes the edits until the end, and winds all up.
fn run<
    R: Threads + Wait + Clock + Copy + Drop + Send + 'static,
    E: Entrance,
    P: Spawner,
    W: Watched,
    S: Site + Drop + Send + Sync + 'static,
    T: Terminal,
>(
    context: &Context<R, S>,
    plan: &LivePlan,
    start: Start,
    watched: &mut W,
    supply: &mut Supply<E, P>,
    terminal: &mut T,
) -> LiveReport
where
    E::Door: Drop + Send + 'static,
    <E::Door as Door>::End: Send + 'static,
    S::File: Send + 'static,
    requires roots { AreRoots plan.now.roots.now }
    requires of { IsPassOf (arc_value context.now.hub) start.pass }
    requires first { IsFirst plan.now.roots.now start.pass }
    requires same_hub { arc_value start.hub ≡ arc_value context.now.hub }
    requires same_queue { arc_value start.queue ≡ arc_value context.now.queue }
    requires of_queue { queues.IsPassOf (arc_value context.now.queue) start.jobs }
    requires puts { role_of start.jobs ≡ putting }
    requires each_of { All (λ p. queues.IsPassOf (arc_value context.now.queue) p) start.takers.items }
    requires each_takes { All (λ p. role_of p ≡ taking) start.takers.items }
    requires few { length start.takers.items ≤ 16 }
    requires none_begun { P.begun supply.old.spawner ≡ none_begun }
    requires going { E.is_shut supply.old.entrance ≡ false }
    ensures shut { E.is_shut supply.new.entrance ≡ true }
    ensures served { (p : Pass) × Served plan.now.roots.now (P.begun supply.new.spawner) p
        × HasRecord plan.now.recorded p result.record }
{
    let Start {
        hub,
        queue,
        mut pass,
        jobs,
        takers,
    } = start;
    let mut crew = Crew::new(context);
    let begun = begin(context, plan, &mut crew, &mut pass, supply, takers);
    let mut editor = LiveEditor::new(context.alloc, hub, queue, pass, jobs);
    let end = run_to_end(context, &mut editor, watched, terminal, begun);
    supply.entrance.shut();
    context.shared.bell.close();
    let mut pass = editor.close(&context.rt, context.alloc);
    let passes = crew.finish_all(context, supply);
    let record = wind_up_all(context, plan, &mut pass, passes);
    tell_all(context, terminal);
    LiveReport { end, record }
}

// Begins the workers and the doors.
fn begin<
    R: Threads + Wait + Copy + Drop + Send + 'static,
    E: Entrance,
    P: Spawner,
    S: Site + Drop + Send + Sync + 'static,
>(
    context: &Context<R, S>,
    plan: &LivePlan,
    crew: &mut Crew<R, E, S>,
    pass: &mut Pass,
    supply: &mut Supply<E, P>,
    takers: Vec<JobPass>,
) -> Result<(), LiveEnd>
where
    E::Door: Drop + Send + 'static,
    <E::Door as Door>::End: Send + 'static,
    S::File: Send + 'static,
    requires crew { IsCrew ⟦<E::Door as Door>⟧ (arc_value context.now.hub)
        crew.old.running crew.old.passes }
    requires of { IsPassOf (arc_value context.now.hub) pass.old }
    requires each_of { All (λ p. queues.IsPassOf (arc_value context.now.queue) p) takers.items }
    requires each_takes { All (λ p. role_of p ≡ taking) takers.items }
    requires few { length takers.items ≤ 16 }
    requires none_begun { P.begun supply.old.spawner ≡ none_begun }
    requires going { E.is_shut supply.old.entrance ≡ false }
    ensures crew { IsCrew ⟦<E::Door as Door>⟧ (arc_value context.now.hub)
        crew.new.running crew.new.passes }
    ensures of { IsPassOf (arc_value context.now.hub) pass.new }
    ensures divided { Divided pass.old pass.new }
    ensures due { sum (P.begun supply.new.spawner) + passes_due crew.old.running crew.old.passes
        ≤ sum (P.begun supply.old.spawner) + passes_due crew.new.running crew.new.passes }
    ensures keeps { KeepsDoors ⟦<E::Door as Door>⟧ (roots_of pass.old)
        (P.begun supply.old.spawner) (P.begun supply.new.spawner)
        crew.old.running.items crew.new.running.items }
{
    crew.begin_workers(context, pass, supply, takers)?;
    let doors = (plan.doors as usize)
        .saturating_mul(supply.entrance.addresses())
        .min(MOST_DOORS);
    crew.begin_doors(context, pass, supply, doors)
}

// Makes the edits until the end, where all jobs were begun.
fn run_to_end<R: Wait + Clock, W: Watched, S: Site + Drop, T: Terminal>(
    context: &Context<R, S>,
    editor: &mut LiveEditor,
    watched: &mut W,
    terminal: &mut T,
    begun: Result<(), LiveEnd>,
) -> LiveEnd
    ensures goes { GoesOn editor.old editor.new }
{
    match begun {
        Ok(()) => run_rounds(context, editor, watched, terminal),
        Err(end) => end,
    }
}
