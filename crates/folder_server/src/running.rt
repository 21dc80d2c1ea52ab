// A server while it runs: jobs are begun, the editor makes the later edits, and all jobs are finished.
ghost use Rattle.std.specs.Prelude.{◌≡◌, ◌≤◌, ◌+◌, ◌∷◌, [], All, Err, IfErr, IsSome, OnOk, Some};
ghost use Rattle.std.specs.Prelude.{false, length, List};
ghost use Rattle.std.specs.Arc.{arc_value};
ghost use Rattle.hmr_base.specs.Causes.{Rose};
ghost use Rattle.hmr_types.specs.declared.limits.TheConstants.{MESSAGE_BYTES};
ghost use Rattle.folders.specs.Files.{MayOpen};
ghost use Rattle.handler_table.specs.Held.{IsHost};
ghost use Rattle.jobs.specs.Begun.{none_begun};
ghost use Rattle.transform_pool.specs.Passes as pool;
ghost use Rattle.transform_pool.specs.Roles.{putting};
ghost use Rattle.hmr_hub.specs.Passes.{HasTranscript, IsPassOf, all_given, number_of};
ghost use Rattle.hmr_hub.specs.Moves.{KnowsOwn};
ghost use Rattle.hub_editor.specs.Edits.{Made, edits_in, length_of};
ghost use Rattle.crew_plans.specs.Gathers.{IsGathered};
ghost use Rattle.folder_edits.specs.Causes.{IsWorkCause};
ghost use Rattle.folder_edits.specs.Running.{Finds, Later};

use crate::outside::Outside;
use crew_plans::CrewPlan;
use folder_edits::{
    Editing, LaterEdits, RunEnd, ServeStop, ServerContext, edit_to_the_end, settle_after,
};
use folders::Tree;
use handler_table::Shelf;
use hmr_hub::{Hub, Pass};
use hub_editor::Editor;
use jobs::{Gate, Spawner};
use retained_data::{Bag, Ran};
use serve_crew::{Crew, begin_all, finish_all};
use std::alloc::{AllocError, Global};
use std::sync::{Arc, Wait};
use std::thread::Threads;
use transform_pool::{JobPass, JobQueue};
use transport::Net;

/// What a server works by: the hub and the queue, which its jobs share with it, the pass that puts into the
/// queue, and what its crew is to begin.
#[derive(Drop)]
pub(crate) struct Staff<G: Drop> {
    pub hub: Arc<Hub, Global>,
    pub queue: Arc<JobQueue, Global>,
    pub jobs: JobPass,
    pub crew: CrewPlan<G>,
}

/// Begins the workers, the clients of the program's own and the sessions, makes the later edits, and
/// finishes all jobs. After the first stop no further edit is made; the jobs that were begun are finished
/// all the same. Where all went well, each name's last job has its result at the end. Each end that the net
/// gave is given back to it, and after a refused `accept` or `connect` it gave none.
pub(crate) fn run<
    F: FnOnce(Bag) -> Result<Ran, AllocError> + Drop + Send + 'static,
    K,
    T: Tree,
    N: Net,
    P: Spawner,
    G: Gate + Clone + Drop + Send + 'static,
    R: Threads + Wait + Copy + Drop + Send + 'static,
>(
    context: &ServerContext<R>,
    pass: &mut Pass,
    staff: Staff<G>,
    later: LaterEdits,
    outside: &mut Outside<K, T, N, P>,
    shelves: &mut [Shelf<F>],
) -> RunEnd
where
    N::End: Drop + Send + 'static,
    requires hub { arc_value staff.hub ≡ context.now.caller.hub.now }
    requires of { IsPassOf context.now.caller.hub.now pass.old }
    requires number { number_of pass.old ≡ 0 }
    requires knows { KnowsOwn pass.old }
    requires given { all_given pass.old ≡ false }
    requires transcript { HasTranscript pass.old }
    requires of_queue { pool.IsPassOf (arc_value staff.queue) staff.jobs }
    requires puts { pool.role_of staff.jobs ≡ putting }
    requires workers { length staff.crew.workers.takers.items ≤ 16 }
    requires few { (staff.crew.clients.own ≤ 32) × (staff.crew.clients.outside ≤ 32) }
    requires begun { P.begun outside.old.spawner ≡ none_begun }
    requires asked { IsSome (N.asked outside.old.net) }
    requires heard { N.heard outside.old.net ≡ Some staff.crew.clients.port }
    requires may { MayOpen (T.asked outside.old.tree) context.now.folder.now }
    requires short { All (λ e. length_of e ≤ MESSAGE_BYTES) (edits_in later.script.items) }
    requires callable { (f : F) → F.IsAlwaysCallable f }
    requires hosts { All (All (IsHost F.post)) shelves.old }
    ensures of { IsPassOf context.now.caller.hub.now pass.new }
    ensures transcript { HasTranscript pass.new }
    ensures later { (made : List Made) × Later (T.coming outside.old.tree) later.listing
        (edits_in later.script.items) later.rounds pass.old pass.new made result.ended }
    ensures gathered { IsGathered context.now.caller.hub.now result.gathered }
    ensures begun { OnOk result.ended (result.gathered.fault ≡ false → P.begun outside.new.spawner
        ≡ length staff.crew.workers.takers.items ∷ (staff.crew.clients.own + staff.crew.clients.outside)
        ∷ staff.crew.clients.own ∷ []) }
    ensures cause { IfErr result.ended (IsWorkCause pass.new) }
    ensures finds { Finds result.gathered result.ended
        (N.faults outside.old.net) (N.faults outside.new.net)
        (P.faults outside.old.spawner) (P.faults outside.new.spawner) }
    ensures tree_fault { result.ended ≡ Err ServeStop.Tree
        → Rose (T.faults outside.old.tree) (T.faults outside.new.tree) }
    ensures later_counts { (N.faults outside.old.net ≤ N.faults outside.new.net)
        × (P.faults outside.old.spawner ≤ P.faults outside.new.spawner)
        × (T.faults outside.old.tree ≤ T.faults outside.new.tree) }
    ensures same_asked { (N.asked outside.new.net ≡ N.asked outside.old.net)
        × (N.heard outside.new.net ≡ N.heard outside.old.net) }
    ensures ends { N.lent outside.new.net ≡ N.lent outside.old.net }
    ensures stops { N.refused outside.old.net ≡ false
        → N.late outside.new.net ≡ N.late outside.old.net }
    ensures goes { OnOk result.ended (N.refused outside.new.net ≡ N.refused outside.old.net) }
    ensures no_other { MayOpen (T.asked outside.new.tree) context.now.folder.now }
    ensures untouched { outside.new.out ≡ outside.old.out }
    ensures hosts { All (All (IsHost F.post)) shelves.new }
{
    let Staff {
        hub,
        queue,
        jobs,
        crew: plan,
    } = staff;
    let caller = context.caller;
    let mut crew = Crew::new(*caller.rt, caller.alloc, hub);
    let begun = begin_all(
        &mut crew,
        pass,
        &mut outside.net,
        &mut outside.spawner,
        plan,
        shelves,
    );
    let editor = Editor::new(caller.alloc);
    let mut editing = Editing {
        queue: &queue,
        jobs,
        editor,
    };
    let edited = edit_to_the_end(context, pass, &mut editing, &mut outside.tree, later, begun);
    finish_all(&mut crew, &mut outside.net, &mut outside.spawner);
    let ended = settle_after(context, pass, &mut editing.editor, edited);
    RunEnd {
        gathered: crew.gathered,
        ended,
    }
}
