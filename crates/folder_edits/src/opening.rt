// The beginning of a server, before it listens: its folder is scanned, and the modules are the first edits.
ghost use Rattle.std.specs.Prelude.{◌≡◌, ◌≤◌, [], Err, IfErr, IfOk, IsErrOf, OnOk, Some, true};
ghost use Rattle.hmr_base.specs.Causes.{Rose};
ghost use Rattle.folders.specs.Files.{MayOpen, files_after};
ghost use Rattle.std.specs.Option.{option_map};
ghost use Rattle.hmr_hub.specs.Calls.{SameKnower};
ghost use Rattle.hmr_hub.specs.Passes.{HasTranscript, IsPassOf, is_alone, number_of, seen_of};
ghost use Rattle.folder_edits.specs.Causes.{IsFirstCause};
ghost use Rattle.folder_edits.specs.Openings.{Opens};

use crate::changes::changes_between;
use crate::context::ServerContext;
use crate::stop::ServeStop;
use folder_watch::{Listing, scan};
use folders::Tree;
use hmr_hub::Pass;
use hub_editor::open_sources;
use std::sync::Wait;
use std::thread::Threads;

/// Scans the folder for the first time, makes the edits that bring its modules in order of their names, and
/// settles them by so many workers. It gives what it listed.
///
/// The tree is opened at the folder and no other. [`ServeStop::Tree`] comes only where the count of the
/// tree's faults rose, [`ServeStop::Limit`] where a text, the names or the texts together are over their
/// limit or the transcript is full, [`ServeStop::NoMemory`] where memory ran out. At a stop of the scan the
/// pass has seen nothing, and at one of an edit a front of the edits and of their results. It takes memory
/// for the texts of the folder, and for what the workers make of them.
pub fn open_folder<T: Tree, R: Threads + Wait + Sync>(
    context: &ServerContext<R>,
    pass: &mut Pass,
    tree: &mut T,
    workers: u32,
) -> Result<Listing, ServeStop>
    requires of { IsPassOf context.now.caller.hub.now pass.old }
    requires number { number_of pass.old ≡ 0 }
    requires alone { is_alone pass.old ≡ true }
    requires fresh { seen_of pass.old ≡ [] }
    requires transcript { HasTranscript pass.old }
    requires may { MayOpen (T.asked tree.old) context.now.folder.now }
    ensures of { IsPassOf context.now.caller.hub.now pass.new }
    ensures same { SameKnower pass.old pass.new }
    ensures transcript { HasTranscript pass.new }
    ensures opens { IfOk result (λ listing. Opens (T.coming tree.old) listing (seen_of pass.new)) }
    ensures no_other { MayOpen (T.asked tree.new) context.now.folder.now }
    ensures asked { OnOk result (T.asked tree.new ≡ Some context.now.folder.now) }
    ensures coming { OnOk result (T.coming tree.new ≡ option_map files_after (T.coming tree.old)) }
    ensures later { T.faults tree.old ≤ T.faults tree.new }
    ensures tree_fault { IsErrOf result ServeStop.Tree → Rose (T.faults tree.old) (T.faults tree.new) }
    ensures cause { IfErr result (IsFirstCause (T.coming tree.old) pass.new) }
{
    let listing = scan(context.caller.alloc, tree, context.folder)?;
    let none = Listing::new(context.caller.alloc);
    let edits = changes_between(context.caller.alloc, &none, &listing)?;
    open_sources(
        context.caller.rt,
        context.caller.alloc,
        context.caller.hub,
        pass,
        edits,
        workers as usize,
    )?;
    Ok(listing)
}
