// The command: the folder is opened, the requests are answered, and a limit is told.
ghost use Rattle.std.specs.Prelude.{◌≡◌, ◌≢◌, ◌≤◌, Err};
ghost use Rattle.std.specs.Io.KnownBytes.{Appends};
ghost use Rattle.hmr_base.specs.Causes.{Rose};
ghost use Rattle.hmr_base.specs.Fronts.{WritesFront};
ghost use Rattle.folders.specs.Files.{MayOpen};
ghost use Rattle.http_exchange.specs.declared.exchange.HttpEnd.{HttpEnd};
ghost use Rattle.page_command.specs.Pages.{Answered, Pages, end_of};
ghost use Rattle.page_command.specs.Stops.{last_text};

use crate::opening::open_folder;
use crate::stop::PageStop;
use command_ends::Limit;
use folders::Tree;
use hmr_base::{Sink, Source, write_all};
use http_modules::{HttpEnd, serve_http};
use std::alloc::Global;

/// Answers the HTTP/1.x requests of the input on the output, one after another, by the modules of a folder.
///
/// The folder is scanned once, and its modules are the first edits, in order of their names; of each whose
/// text reads as a module that text is served. It answers Ok where the input ended between two heads or an
/// answer that closes was written.
///
/// [`PageStop::Unread`], [`PageStop::Unwritten`] and [`PageStop::Tree`] come only where the count of faults
/// of the input, of the output or of the tree rose in this call; [`PageStop::Limit`] where a limit was met,
/// whose line is written last; [`PageStop::NoMemory`] where memory ran out. What was written before is a
/// prefix of the answers. The folder costs its bytes once, and an answer then the module that is asked for.
pub fn page<S: Source, K: Sink, T: Tree>(
    alloc: Global,
    folder: &str,
    input: &mut S,
    out: &mut K,
    tree: &mut T,
) -> Result<(), PageStop>
    requires may { MayOpen (T.asked tree.old) folder.now }
    ensures pages { Pages (T.coming tree.old) (S.left input.old) (K.written out.old) (K.written out.new)
        (K.faults out.old) (K.faults out.new) result }
    ensures unread { result ≡ Err PageStop.Unread → Rose (S.faults input.old) (S.faults input.new) }
    ensures unwritten { result ≡ Err PageStop.Unwritten → Rose (K.faults out.old) (K.faults out.new) }
    ensures tree_fault { result ≡ Err PageStop.Tree → Rose (T.faults tree.old) (T.faults tree.new) }
    ensures opened { MayOpen (T.asked tree.new) folder.now }
{
    let ended = answer(alloc, folder, input, out, tree);
    write_last(out, ended);
    ended
}

// Opens the folder, and answers the requests.
fn answer<S: Source, K: Sink, T: Tree>(
    alloc: Global,
    folder: &str,
    input: &mut S,
    out: &mut K,
    tree: &mut T,
) -> Result<(), PageStop>
    requires may { MayOpen (T.asked tree.old) folder.now }
    ensures answered { Answered (T.coming tree.old) (S.left input.old) (K.written out.old)
        (K.written out.new) result }
    ensures unread { result ≡ Err PageStop.Unread → Rose (S.faults input.old) (S.faults input.new) }
    ensures unwritten { result ≡ Err PageStop.Unwritten → Rose (K.faults out.old) (K.faults out.new) }
    ensures out_later { K.faults out.old ≤ K.faults out.new }
    ensures tree_fault { result ≡ Err PageStop.Tree → Rose (T.faults tree.old) (T.faults tree.new) }
    ensures opened { MayOpen (T.asked tree.new) folder.now }
{
    match open_folder(alloc, tree, folder) {
        Ok(map) => end_of(serve_http(alloc, input, out, &map)),
        Err(stop) => Err(stop),
    }
}

// Writes the line of a limit, where it ended by one.
fn write_last<K: Sink>(out: &mut K, ended: Result<(), PageStop>)
    ensures front { WritesFront (K.written out.old) (K.written out.new) (last_text ended) }
    ensures whole { ¬ Rose (K.faults out.old) (K.faults out.new)
        → Appends (K.written out.old) (K.written out.new) (last_text ended) }
    ensures later { K.faults out.old ≤ K.faults out.new }
{
    let _ = write_all(out, last_line(ended).as_bytes());
}

// The line of a limit, where it ended by one, and nothing else.
fn last_line(ended: Result<(), PageStop>) -> &'static str
    ensures { result.now ≡ last_text ended }
{
    match ended {
        Ok(()) => "",
        Err(PageStop::Limit(limit)) => limit.line(),
        Err(PageStop::Unread | PageStop::Unwritten | PageStop::Tree | PageStop::NoMemory) => "",
    }
}

// How the command ends where the exchange ended so.
fn end_of(end: HttpEnd) -> Result<(), PageStop>
    ensures is { result ≡ end_of end }
    ensures read { result ≡ Err PageStop.Unread → end ≡ HttpEnd.ReadFault }
    ensures written { result ≡ Err PageStop.Unwritten → end ≡ HttpEnd.WriteFault }
    ensures tree { result ≢ Err PageStop.Tree }
{
    match end {
        HttpEnd::Closed => Ok(()),
        HttpEnd::ReadFault => Err(PageStop::Unread),
        HttpEnd::WriteFault => Err(PageStop::Unwritten),
        HttpEnd::Turns => Err(PageStop::Limit(Limit::Turns)),
        HttpEnd::NoMemory => Err(PageStop::NoMemory),
    }
}
