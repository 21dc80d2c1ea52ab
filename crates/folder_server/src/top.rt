// The whole of a server: its folder is opened, it listens, runs, and writes its report.
ghost use Rattle.std.specs.Prelude.{◌≡◌, ◌≤◌, ◌⊎◌, ◌+◌, ◌∷◌, [], ℕ, All, Err, None, Ok, OnOk, Some, false};
ghost use Rattle.hmr_base.specs.Causes.{Rose};
ghost use Rattle.hmr_types.specs.declared.limits.TheConstants.{MESSAGE_BYTES};
ghost use Rattle.core_model.specs.Roots.{AreRoots};
ghost use Rattle.folders.specs.Files.{MayOpen};
ghost use Rattle.handler_table.specs.Held.{IsHost};
ghost use Rattle.jobs.specs.Begun.{none_begun};
ghost use Rattle.transport.specs.declared.net.Asked.{Asked};
ghost use Rattle.hub_editor.specs.Edits.{edits_in, length_of};
ghost use Rattle.hmr_hub.specs.declared.pass.Pass.{Pass};
ghost use Rattle.folder_edits.specs.Serving.{Served, StopsEarly, Wrote, WroteEarly, WroteReport};

use crate::outside::Outside;
use crate::plan::ServeTask;
use crate::running::{Staff, run};
use crew_plans::{Clients, CrewPlan, Workers};
use folder_edits::{
    LaterEdits, RunEnd, ServeStop, ServerContext, SharedHub, announce, end_of, open_folder,
    share_hub, write_end, write_last,
};
use folders::Tree;
use handler_table::Shelf;
use hmr_base::Sink;
use hub_editor::HubCaller;
use jobs::{Gate, Spawner};
use retained_data::{Bag, Ran};
use std::alloc::{AllocError, Global};
use std::sync::Wait;
use std::thread::Threads;
use transport::Net;

/// Serves the modules of a folder, from its first scan to the report.
///
/// The folder is scanned, its modules are edited in order of their names and settled, and then the net
/// listens and `listening PORT` is written. Workers are begun, then a session and a client for each of the
/// program's own clients, then a session for each client from outside, for which it waits. The caller's
/// thread is the editor: it scans the folder `rounds` times more, makes the edits between each two scans,
/// and then those of the script, each of a name and a text of at most 16,777,216 bytes together. At the end
/// all jobs are finished, what is left of results is settled, all ends are given back to the net, and the
/// report is written with the lines of the program's own clients, and behind it, where the plan asks for
/// it, the record of the transcript that it reports. The closures of the shelves are for these.
/// After the net refused an end it is asked for no more, and where it did, the answer isn't Ok.
///
/// [`ServeStop::Unwritten`], [`ServeStop::Tree`] and [`ServeStop::Fault`] come only where the count of
/// faults of the output, of the tree, of the net or of the spawner rose in this call; [`ServeStop::Limit`]
/// where a limit was passed, whose line is written last; [`ServeStop::NoMemory`] where memory ran out. The
/// first stop of the editor counts, and else that of a job. After a stop no further edit is made; the report
/// is written all the same, but for `Unwritten`, `NoMemory` and a stop before it listened. It waits.
pub fn serve<
    F: FnOnce(Bag) -> Result<Ran, AllocError> + Drop + Send + 'static,
    K: Sink,
    T: Tree,
    N: Net,
    P: Spawner,
    G: Gate + Clone + Drop + Send + 'static,
    R: Threads + Wait + Sync + Copy + Drop + Send + 'static,
>(
    rt: &R,
    alloc: Global,
    task: ServeTask,
    outside: &mut Outside<K, T, N, P>,
    gate: G,
    shelves: &mut [Shelf<F>],
) -> Result<(), ServeStop>
where
    N::End: Drop + Send + 'static,
    requires roots { AreRoots task.roots.items }
    requires workers { (1 ≤ task.plan.workers) × (task.plan.workers ≤ 16) }
    requires few { (task.plan.clients ≤ 32) × (task.plan.outside ≤ 32) }
    requires short { All (λ e. length_of e ≤ MESSAGE_BYTES) (edits_in task.script.items) }
    requires unopened { T.asked outside.old.tree ≡ None }
    requires unasked { (N.asked outside.old.net ≡ None) × (N.heard outside.old.net ≡ None) }
    requires none_begun { P.begun outside.old.spawner ≡ none_begun }
    requires callable { (f : F) → F.IsAlwaysCallable f }
    requires hosts { All (All (IsHost F.post)) shelves.old }
    ensures wrote { ((port : ℕ) × (p : Pass) × (N.heard outside.new.net ≡ Some port)
        × Served task.roots.items (T.coming outside.old.tree) (edits_in task.script.items)
        task.plan.rounds result p
        × Wrote task.plan.recorded port p result (K.written outside.old.out) (K.written outside.new.out)
        (K.faults outside.old.out) (K.faults outside.new.out))
        ⊎ (StopsEarly task.roots.items (T.coming outside.old.tree) result
        × WroteEarly result (K.written outside.old.out) (K.written outside.new.out)
        (K.faults outside.old.out) (K.faults outside.new.out)) }
    ensures begun { OnOk result (P.begun outside.new.spawner
        ≡ task.plan.workers ∷ (task.plan.clients + task.plan.outside) ∷ task.plan.clients ∷ []) }
    ensures unwritten { result ≡ Err ServeStop.Unwritten
        → Rose (K.faults outside.old.out) (K.faults outside.new.out) }
    ensures tree_fault { result ≡ Err ServeStop.Tree
        → Rose (T.faults outside.old.tree) (T.faults outside.new.tree) }
    ensures fault { result ≡ Err ServeStop.Fault
        → Rose (N.faults outside.old.net) (N.faults outside.new.net)
        ⊎ Rose (P.faults outside.old.spawner) (P.faults outside.new.spawner) }
    ensures asked { (N.asked outside.new.net ≡ None)
        ⊎ (N.asked outside.new.net ≡ Some (Asked.Listen task.plan.port)) }
    ensures ends { N.lent outside.new.net ≡ N.lent outside.old.net }
    ensures stops { N.refused outside.old.net ≡ false
        → N.late outside.new.net ≡ N.late outside.old.net }
    ensures goes { OnOk result (N.refused outside.new.net ≡ N.refused outside.old.net) }
    ensures opened { MayOpen (T.asked outside.new.tree) task.folder }
    ensures hosts { All (All (IsHost F.post)) shelves.new }
{
    let ended = serve_folder(rt, alloc, task, outside, gate, shelves);
    write_last(&mut outside.out, ended);
    ended
}

// The same, but for the line of a limit.
fn serve_folder<
    F: FnOnce(Bag) -> Result<Ran, AllocError> + Drop + Send + 'static,
    K: Sink,
    T: Tree,
    N: Net,
    P: Spawner,
    G: Gate + Clone + Drop + Send + 'static,
    R: Threads + Wait + Sync + Copy + Drop + Send + 'static,
>(
    rt: &R,
    alloc: Global,
    task: ServeTask,
    outside: &mut Outside<K, T, N, P>,
    gate: G,
    shelves: &mut [Shelf<F>],
) -> Result<(), ServeStop>
where
    N::End: Drop + Send + 'static,
    requires roots { AreRoots task.roots.items }
    requires workers { (1 ≤ task.plan.workers) × (task.plan.workers ≤ 16) }
    requires few { (task.plan.clients ≤ 32) × (task.plan.outside ≤ 32) }
    requires short { All (λ e. length_of e ≤ MESSAGE_BYTES) (edits_in task.script.items) }
    requires unopened { T.asked outside.old.tree ≡ None }
    requires unasked { (N.asked outside.old.net ≡ None) × (N.heard outside.old.net ≡ None) }
    requires none_begun { P.begun outside.old.spawner ≡ none_begun }
    requires callable { (f : F) → F.IsAlwaysCallable f }
    requires hosts { All (All (IsHost F.post)) shelves.old }
    ensures wrote { ((port : ℕ) × (p : Pass) × (N.heard outside.new.net ≡ Some port)
        × Served task.roots.items (T.coming outside.old.tree) (edits_in task.script.items)
        task.plan.rounds result p
        × WroteReport task.plan.recorded port p result (K.written outside.old.out)
        (K.written outside.new.out))
        ⊎ (StopsEarly task.roots.items (T.coming outside.old.tree) result
        × (K.written outside.new.out ≡ K.written outside.old.out)) }
    ensures begun { OnOk result (P.begun outside.new.spawner
        ≡ task.plan.workers ∷ (task.plan.clients + task.plan.outside) ∷ task.plan.clients ∷ []) }
    ensures unwritten { result ≡ Err ServeStop.Unwritten
        → Rose (K.faults outside.old.out) (K.faults outside.new.out) }
    ensures later { K.faults outside.old.out ≤ K.faults outside.new.out }
    ensures tree_fault { result ≡ Err ServeStop.Tree
        → Rose (T.faults outside.old.tree) (T.faults outside.new.tree) }
    ensures fault { result ≡ Err ServeStop.Fault
        → Rose (N.faults outside.old.net) (N.faults outside.new.net)
        ⊎ Rose (P.faults outside.old.spawner) (P.faults outside.new.spawner) }
    ensures asked { (N.asked outside.new.net ≡ None)
        ⊎ (N.asked outside.new.net ≡ Some (Asked.Listen task.plan.port)) }
    ensures ends { N.lent outside.new.net ≡ N.lent outside.old.net }
    ensures stops { N.refused outside.old.net ≡ false
        → N.late outside.new.net ≡ N.late outside.old.net }
    ensures goes { OnOk result (N.refused outside.new.net ≡ N.refused outside.old.net) }
    ensures opened { MayOpen (T.asked outside.new.tree) task.folder }
    ensures hosts { All (All (IsHost F.post)) shelves.new }
{
    let plan = task.plan;
    let script = task.script;
    let SharedHub {
        roots,
        own,
        crew,
        mut pass,
    } = share_hub(alloc, task.roots)?;
    let caller = HubCaller {
        rt,
        alloc,
        hub: &own,
    };
    let context = ServerContext {
        caller,
        folder: task.folder.as_str(),
    };
    let listing = open_folder(&context, &mut pass, &mut outside.tree, plan.workers)?;
    let (queue, jobs, workers) = Workers::of_new_queue(alloc, plan.workers, gate)?;
    let port = outside.net.listen(alloc, plan.port)?;
    announce(&mut outside.out, alloc, port)?;
    let clients = Clients {
        own: plan.clients,
        turns: plan.turns,
        port,
        outside: plan.outside,
    };
    let staff = Staff {
        hub: crew,
        queue,
        jobs,
        crew: CrewPlan { workers, clients },
    };
    let later = LaterEdits {
        rounds: plan.rounds,
        listing,
        script,
    };
    let left = run(&context, &mut pass, staff, later, outside, shelves);
    let ended = end_of(&left);
    let over = RunEnd {
        gathered: left.gathered,
        ended,
    };
    write_end(
        &context,
        &mut pass,
        &roots,
        plan.recorded,
        over,
        &mut outside.out,
    )
}
