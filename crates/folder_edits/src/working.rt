// The work of a server in its own thread: the later edits, the end of the queue, and what is left to settle.
ghost use Rattle.std.specs.Prelude.{◌≡◌, ◌≤◌, ◌⊎◌, [], All, Err, IfErr, IsOk, OnOk, true};
ghost use Rattle.hmr_base.specs.Causes.{Rose};
ghost use Rattle.hmr_types.specs.declared.limits.TheConstants.{MESSAGE_BYTES};
ghost use Rattle.folders.specs.Files.{MayOpen};
ghost use Rattle.transform_pool.specs.Passes as pool;
ghost use Rattle.transform_pool.specs.Roles.{putting};
ghost use Rattle.hmr_hub.specs.Calls.{SameKnower};
ghost use Rattle.hmr_hub.specs.Passes.{HasTranscript, IsPassOf, all_given, number_of};
ghost use Rattle.hmr_hub.specs.declared.pass.Pass.{Pass};
ghost use Rattle.hmr_hub.specs.Moves.{KnowsOwn};
ghost use Rattle.hub_editor.specs.Edits.{edits_in, length_of};
ghost use Rattle.hub_editor.specs.Editing.{Edited, HaveLastResults, SameEdits, made_by};
ghost use Rattle.folder_edits.specs.Causes.{IsSettleCause, IsWorkCause};
ghost use Rattle.folder_edits.specs.Rounds.{MakesEdits};

use crate::context::{Editing, LaterEdits, ServerContext};
use crate::rounds::make_edits;
use crate::stop::ServeStop;
use crew_plans::Cause;
use folders::Tree;
use hmr_hub::Pass;
use hub_editor::Editor;
use std::sync::Wait;
use transform_pool::{JobPass, JobQueue};

/// Makes the later edits, where all jobs were begun; then the queue is closed, and what it hands back is
/// worked. After the first stop no further edit is made, and the jobs that the queue hands back are let go.
///
/// `begun` is how the beginning of the jobs ended: where it isn't Ok, no edit is made and its cause is the
/// stop. Else the stop is that of a scan or of an edit: [`ServeStop::Tree`] comes only where the count of the
/// tree's faults rose, [`ServeStop::Limit`] where a limit was passed, [`ServeStop::NoMemory`] where memory
/// ran out. Behind a stop the pass has seen what was edited before it. It takes memory for a scan and for the
/// edits between two of them, and waits for the queue.
pub fn edit_to_the_end<T: Tree, R: Wait>(
    context: &ServerContext<R>,
    pass: &mut Pass,
    editing: &mut Editing,
    tree: &mut T,
    later: LaterEdits,
    begun: Result<(), Cause>,
) -> Result<(), ServeStop>
    requires of { IsPassOf context.now.caller.hub.now pass.old }
    requires number { number_of pass.old ≡ 0 }
    requires may { MayOpen (T.asked tree.old) context.now.folder.now }
    requires none { made_by editing.old.editor ≡ [] }
    requires short { All (λ e. length_of e ≤ MESSAGE_BYTES) (edits_in later.script.items) }
    requires of_queue { pool.IsPassOf editing.old.queue.now editing.old.jobs }
    requires puts { pool.role_of editing.old.jobs ≡ putting }
    requires spent { begun ≡ Err Cause.Spent → all_given pass.old ≡ true }
    ensures of { IsPassOf context.now.caller.hub.now pass.new }
    ensures same { SameKnower pass.old pass.new }
    ensures transcript { HasTranscript pass.old → HasTranscript pass.new }
    ensures edited { (p : Pass) → Edited p pass.old [] → Edited p pass.new (made_by editing.new.editor) }
    ensures makes { MakesEdits (T.coming tree.old) later.listing (edits_in later.script.items) later.rounds
        [] (made_by editing.new.editor) result }
    ensures begun { OnOk result (IsOk begun) }
    ensures no_other { MayOpen (T.asked tree.new) context.now.folder.now }
    ensures later { T.faults tree.old ≤ T.faults tree.new }
    ensures tree_fault { result ≡ Err ServeStop.Tree → Rose (T.faults tree.old) (T.faults tree.new) }
    ensures fault { result ≡ Err ServeStop.Fault → begun ≡ Err Cause.Fault }
    ensures cause { IfErr result (IsWorkCause pass.new) }
{
    let edited = edit_all(context, pass, editing, tree, later, begun);
    match edited {
        Ok(()) => {
            editing
                .editor
                .close(&context.caller, pass, editing.queue, &mut editing.jobs)?;
            Ok(())
        }
        Err(stop) => {
            close_queue(context.caller.rt, editing.queue, &mut editing.jobs);
            Err(stop)
        }
    }
}

// The later edits, where all jobs were begun.
fn edit_all<T: Tree, R: Wait>(
    context: &ServerContext<R>,
    pass: &mut Pass,
    editing: &mut Editing,
    tree: &mut T,
    later: LaterEdits,
    begun: Result<(), Cause>,
) -> Result<(), ServeStop>
    requires of { IsPassOf context.now.caller.hub.now pass.old }
    requires number { number_of pass.old ≡ 0 }
    requires may { MayOpen (T.asked tree.old) context.now.folder.now }
    requires none { made_by editing.old.editor ≡ [] }
    requires short { All (λ e. length_of e ≤ MESSAGE_BYTES) (edits_in later.script.items) }
    requires of_queue { pool.IsPassOf editing.old.queue.now editing.old.jobs }
    requires puts { pool.role_of editing.old.jobs ≡ putting }
    requires spent { begun ≡ Err Cause.Spent → all_given pass.old ≡ true }
    ensures of { IsPassOf context.now.caller.hub.now pass.new }
    ensures same { SameKnower pass.old pass.new }
    ensures transcript { HasTranscript pass.old → HasTranscript pass.new }
    ensures edited { (p : Pass) → Edited p pass.old [] → Edited p pass.new (made_by editing.new.editor) }
    ensures makes { MakesEdits (T.coming tree.old) later.listing (edits_in later.script.items) later.rounds
        [] (made_by editing.new.editor) result }
    ensures of_queue { pool.IsPassOf editing.new.queue.now editing.new.jobs }
    ensures puts { (pool.role_of editing.new.jobs).puts ≡ true }
    ensures begun { OnOk result (IsOk begun) }
    ensures no_other { MayOpen (T.asked tree.new) context.now.folder.now }
    ensures later { T.faults tree.old ≤ T.faults tree.new }
    ensures tree_fault { result ≡ Err ServeStop.Tree → Rose (T.faults tree.old) (T.faults tree.new) }
    ensures fault { result ≡ Err ServeStop.Fault → begun ≡ Err Cause.Fault }
    ensures cause { IfErr result (IsWorkCause pass.new) }
{
    begun?;
    make_edits(context, pass, editing, tree, later)
}

// Closes the queue after a stop. The jobs that it hands back are let go.
fn close_queue<R: Wait>(rt: &R, queue: &JobQueue, jobs: &mut JobPass)
    requires of_queue { pool.IsPassOf queue.now jobs.old }
    requires puts { (pool.role_of jobs.old).puts ≡ true }
    ensures { (pool.role_of jobs.new).closed ≡ true }
{
    for _ in rt.forever() {
        if queue.close(rt, jobs).is_none() {
            return;
        }
    }
    unreachable!()
}

/// Settles what is left, where the work went well: `ended` is how it ended, and at a stop nothing is done and
/// that stop is answered. Where the answer is Ok, the last job of each name has its result.
///
/// Its own stops are [`ServeStop::Limit`], where the transcript has no place for a result, and
/// [`ServeStop::NoMemory`]; what was settled before one stays so. It works the jobs that are left one after
/// another, and waits.
pub fn settle_after<R: Wait>(
    context: &ServerContext<R>,
    pass: &mut Pass,
    editor: &mut Editor,
    ended: Result<(), ServeStop>,
) -> Result<(), ServeStop>
    requires of { IsPassOf context.now.caller.hub.now pass.old }
    requires number { number_of pass.old ≡ 0 }
    requires knows { KnowsOwn pass.old }
    ensures of { IsPassOf context.now.caller.hub.now pass.new }
    ensures same { SameKnower pass.old pass.new }
    ensures transcript { HasTranscript pass.old → HasTranscript pass.new }
    ensures edited { (p : Pass) → Edited p pass.old (made_by editor.old)
        → Edited p pass.new (made_by editor.new) }
    ensures edits { SameEdits (made_by editor.old) (made_by editor.new) }
    ensures results { OnOk result ((p : Pass) → Edited p pass.old (made_by editor.old)
        → HaveLastResults pass.new (made_by editor.new)) }
    ensures well { OnOk result (IsOk ended) }
    ensures cause { IfErr result
        (λ stop. ((ended ≡ Err stop) × (pass.new ≡ pass.old))
        ⊎ (IsOk ended × IsSettleCause pass.new stop)) }
{
    ended?;
    editor.settle_rest(&context.caller, pass)?;
    Ok(())
}
