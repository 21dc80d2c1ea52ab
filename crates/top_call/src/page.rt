// The command `page`: requests of the input, answered by the modules of a folder.
ghost use Rattle.std.specs.Prelude.{◌≡◌, Err, None};
ghost use Rattle.hmr_base.specs.Causes.{Rose};
ghost use Rattle.folders.specs.Files.{MayOpen};
ghost use Rattle.top_call.specs.Paged.{IsPageStatus, IsPaged, status_of_page};

use command_ends::Status;
use folders::Tree;
use hmr_base::{Sink, Source};
use page_command::{PageStop, page};
use std::alloc::Global;

/// Answers the requests of the input by the modules of a folder, by [`page`]. It answers the exit status: 0,
/// 4, 5, 6, 8 or 9; at 8 the line of the limit stands behind the answers.
pub(crate) fn page_folder<S: Source, K: Sink, T: Tree>(
    alloc: Global,
    folder: &str,
    input: &mut S,
    out: &mut K,
    tree: &mut T,
) -> u8
    requires unopened { T.asked tree.old ≡ None }
    ensures paged { IsPaged (T.coming tree.old) (S.left input.old) (K.written out.old) (K.written out.new)
        (K.faults out.old) (K.faults out.new) result }
    ensures known { IsPageStatus result }
    ensures unread { result ≡ 4 → Rose (S.faults input.old) (S.faults input.new) }
    ensures unwritten { result ≡ 5 → Rose (K.faults out.old) (K.faults out.new) }
    ensures tree_fault { result ≡ 6 → Rose (T.faults tree.old) (T.faults tree.new) }
    ensures opened { MayOpen (T.asked tree.new) folder.now }
{
    let ended = page(alloc, folder, input, out, tree);
    status_of(ended)
}

// The exit status of an end.
fn status_of(ended: Result<(), PageStop>) -> u8
    ensures is { result ≡ status_of_page ended }
    ensures known { IsPageStatus result }
    ensures unread { result ≡ 4 → ended ≡ Err PageStop.Unread }
    ensures unwritten { result ≡ 5 → ended ≡ Err PageStop.Unwritten }
    ensures tree { result ≡ 6 → ended ≡ Err PageStop.Tree }
{
    match ended {
        Ok(()) => Status::Done.number(),
        Err(PageStop::Unread) => Status::Unread.number(),
        Err(PageStop::Unwritten) => Status::Unwritten.number(),
        Err(PageStop::Tree) => Status::Tree.number(),
        Err(PageStop::Limit(_)) => Status::Limit.number(),
        Err(PageStop::NoMemory) => Status::NoMemory.number(),
    }
}
