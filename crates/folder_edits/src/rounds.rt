// The later edits of a server: those between one look at its folder and the next, and then those of a
// script.
ghost use Rattle.std.specs.Prelude.{◌≡◌, ◌≤◌, [], All, Err, IfErr, true, false};
ghost use Rattle.hmr_base.specs.Causes.{Rose};
ghost use Rattle.hmr_types.specs.declared.limits.TheConstants.{MESSAGE_BYTES};
ghost use Rattle.folders.specs.Files.{MayOpen};
ghost use Rattle.transform_pool.specs.Passes as pool;
ghost use Rattle.hmr_hub.specs.Calls.{SameKnower};
ghost use Rattle.hmr_hub.specs.Passes.{HasTranscript, IsPassOf, number_of};
ghost use Rattle.hmr_hub.specs.declared.pass.Pass.{Pass};
ghost use Rattle.hub_editor.specs.Causes.{IsCause};
ghost use Rattle.hub_editor.specs.Edits.{edits_in, length_of};
ghost use Rattle.hub_editor.specs.Editing.{Edited, IsGoing, made_by};
ghost use Rattle.folder_edits.specs.Causes.{IsEditCause};
ghost use Rattle.folder_edits.specs.Rounds.{MakesEach, MakesEdits};

use crate::changes::changes_between;
use crate::context::{Editing, LaterEdits, ServerContext};
use crate::stop::ServeStop;
use folder_watch::{Listing, scan};
use folders::Tree;
use hmr_hub::Pass;
use hmr_types::ModName;
use hub_editor::EditStop;
use std::sync::Wait;

/// Scans the folder so many times more, from a listing on, makes the edits between each two scans, and then
/// those of the script. The first stop ends it: of a scan, or of an edit; what came before it was made.
pub(crate) fn make_edits<T: Tree, R: Wait>(
    context: &ServerContext<R>,
    pass: &mut Pass,
    editing: &mut Editing,
    tree: &mut T,
    later: LaterEdits,
) -> Result<(), ServeStop>
    requires of { IsPassOf context.now.caller.hub.now pass.old }
    requires number { number_of pass.old ≡ 0 }
    requires may { MayOpen (T.asked tree.old) context.now.folder.now }
    requires going { IsGoing (made_by editing.old.editor) }
    requires short { All (λ e. length_of e ≤ MESSAGE_BYTES) (edits_in later.script.items) }
    requires of_queue { pool.IsPassOf editing.old.queue.now editing.old.jobs }
    requires puts { (pool.role_of editing.old.jobs).puts ≡ true }
    requires unclosed { (pool.role_of editing.old.jobs).closed ≡ false }
    ensures of { IsPassOf context.now.caller.hub.now pass.new }
    ensures same { SameKnower pass.old pass.new }
    ensures transcript { HasTranscript pass.old → HasTranscript pass.new }
    ensures edited { (p : Pass) → Edited p pass.old (made_by editing.old.editor)
        → Edited p pass.new (made_by editing.new.editor) }
    ensures makes { MakesEdits (T.coming tree.old) later.listing (edits_in later.script.items) later.rounds
        (made_by editing.old.editor) (made_by editing.new.editor) result }
    ensures of_queue { pool.IsPassOf editing.new.queue.now editing.new.jobs }
    ensures puts { (pool.role_of editing.new.jobs).puts ≡ true }
    ensures no_other { MayOpen (T.asked tree.new) context.now.folder.now }
    ensures later { T.faults tree.old ≤ T.faults tree.new }
    ensures tree_fault { result ≡ Err ServeStop.Tree → Rose (T.faults tree.old) (T.faults tree.new) }
    ensures cause { IfErr result (IsEditCause pass.new) }
{
    let LaterEdits {
        rounds,
        listing,
        script,
    } = later;
    edit_rounds(context, pass, editing, tree, rounds, listing)?;
    edit_each(context, pass, editing, script)?;
    Ok(())
}

// The edits between each two scans.
fn edit_rounds<T: Tree, R: Wait>(
    context: &ServerContext<R>,
    pass: &mut Pass,
    editing: &mut Editing,
    tree: &mut T,
    rounds: u32,
    mut listing: Listing,
) -> Result<(), ServeStop>
    requires of { IsPassOf context.now.caller.hub.now pass.old }
    requires number { number_of pass.old ≡ 0 }
    requires may { MayOpen (T.asked tree.old) context.now.folder.now }
    requires going { IsGoing (made_by editing.old.editor) }
    requires of_queue { pool.IsPassOf editing.old.queue.now editing.old.jobs }
    requires puts { (pool.role_of editing.old.jobs).puts ≡ true }
    requires unclosed { (pool.role_of editing.old.jobs).closed ≡ false }
    ensures of { IsPassOf context.now.caller.hub.now pass.new }
    ensures same { SameKnower pass.old pass.new }
    ensures transcript { HasTranscript pass.old → HasTranscript pass.new }
    ensures edited { (p : Pass) → Edited p pass.old (made_by editing.old.editor)
        → Edited p pass.new (made_by editing.new.editor) }
    ensures going { IsGoing (made_by editing.new.editor) }
    ensures makes { MakesEdits (T.coming tree.old) listing [] rounds
        (made_by editing.old.editor) (made_by editing.new.editor) result }
    ensures of_queue { pool.IsPassOf editing.new.queue.now editing.new.jobs }
    ensures puts { (pool.role_of editing.new.jobs).puts ≡ true }
    ensures unclosed { (pool.role_of editing.new.jobs).closed ≡ false }
    ensures no_other { MayOpen (T.asked tree.new) context.now.folder.now }
    ensures later { T.faults tree.old ≤ T.faults tree.new }
    ensures tree_fault { result ≡ Err ServeStop.Tree → Rose (T.faults tree.old) (T.faults tree.new) }
    ensures cause { IfErr result (IsEditCause pass.new) }
{
    for _ in 0..rounds {
        let next = scan(context.caller.alloc, tree, context.folder)?;
        let edits = changes_between(context.caller.alloc, &listing, &next)?;
        edit_each(context, pass, editing, edits)?;
        listing = next;
    }
    Ok(())
}

// Makes edits one after another.
fn edit_each<R: Wait>(
    context: &ServerContext<R>,
    pass: &mut Pass,
    editing: &mut Editing,
    edits: Vec<(ModName, Option<Vec<u8>>)>,
) -> Result<(), EditStop>
    requires of { IsPassOf context.now.caller.hub.now pass.old }
    requires number { number_of pass.old ≡ 0 }
    requires going { IsGoing (made_by editing.old.editor) }
    requires short { All (λ e. length_of e ≤ MESSAGE_BYTES) (edits_in edits.items) }
    requires of_queue { pool.IsPassOf editing.old.queue.now editing.old.jobs }
    requires puts { (pool.role_of editing.old.jobs).puts ≡ true }
    requires unclosed { (pool.role_of editing.old.jobs).closed ≡ false }
    ensures of { IsPassOf context.now.caller.hub.now pass.new }
    ensures same { SameKnower pass.old pass.new }
    ensures transcript { HasTranscript pass.old → HasTranscript pass.new }
    ensures edited { (p : Pass) → Edited p pass.old (made_by editing.old.editor)
        → Edited p pass.new (made_by editing.new.editor) }
    ensures going { IsGoing (made_by editing.new.editor) }
    ensures makes { MakesEach (edits_in edits.items) (made_by editing.old.editor)
        (made_by editing.new.editor) result }
    ensures of_queue { pool.IsPassOf editing.new.queue.now editing.new.jobs }
    ensures puts { (pool.role_of editing.new.jobs).puts ≡ true }
    ensures unclosed { (pool.role_of editing.new.jobs).closed ≡ false }
    ensures cause { IfErr result (IsCause pass.new) }
{
    for (name, text) in edits {
        editing.editor.edit(
            &context.caller,
            pass,
            editing.queue,
            &mut editing.jobs,
            (name, text),
        )?;
    }
    Ok(())
}
