// A session of a client: the requests of a runtime are sent one after another, each answer is taken, and at
// last comes the bye, whose answer the runtime doesn't see.
ghost use Rattle.std.specs.Prelude.{◌≡◌, ◌≢◌, ◌≤◌, [], false, Err, OnOk};
ghost use Rattle.hmr_base.specs.Causes.{Rose};
ghost use Rattle.transport.specs.declared.link.Phase.{Phase};
ghost use Rattle.update_msgs.specs.Writable.{IsFormat};
ghost use Rattle.update_msgs.specs.declared.message.ClientMsg.TheVariants.{Bye};
ghost use Rattle.client_model.specs.Past.{Past};
ghost use Rattle.client_model.specs.Runtime.{Opening};
ghost use Rattle.runtime_state.specs.Standing.{KeepsWords, StandsFor};
ghost use Rattle.sessions.specs.declared.ended.Ended.{Ended};
ghost use Rattle.client_sessions.specs.Asking.{IsNew, ended_by};
ghost use Rattle.client_sessions.specs.Course.{ClientCourse, Turns};
ghost use Rattle.client_sessions.specs.Exchange.{Ends, takes_bye};

use crate::exchange::exchange;
use hot_runtime::take;
use output_lines::OutLine;
use retained_data::{Bag, Ran};
use runtime_state::{HotRuntime, RuntimeFault};
use sessions::Ended;
use std::alloc::{AllocError, Global};
use transport::Link;
use update_msgs::{ClientMsg, ServerMsg};

/// Opens a fresh link, sends hello, so many requests of a runtime that took no message yet, and bye, and
/// closes the link. It answers how the session ended, and the lines of what the runtime took, in order.
///
/// Each request is that of the runtime after the answers before it, each of which it took, and answers are
/// read in the runtime's format. After an idle the link pauses. [`Ended::Closed`] comes exactly where the
/// bye was answered or the peer closed, [`Ended::LinkFault`] only where the link's count rose in this call,
/// [`Ended::BadMessage`] exactly where what was received reads as no message, [`Ended::Unexpected`] and
/// [`Ended::InstancesFull`] exactly where the runtime answered so, and [`Ended::NoMemory`] where memory ran
/// out; then the lines of the last answer may be missing, and the runtime takes nothing more. It waits.
pub fn client_session<L: Link, F: FnOnce(Bag) -> Result<Ran, AllocError> + Drop>(
    alloc: Global,
    link: &mut L,
    runtime: &mut HotRuntime<F>,
    turns: u32,
) -> (Ended, Vec<OutLine>)
    requires fresh { L.phase link.old ≡ Phase.Fresh }
    requires untaken { IsNew runtime.old }
    requires callable { (f : F) → F.IsAlwaysCallable f }
    requires words { KeepsWords F.post runtime.old }
    ensures shut { L.phase link.new ≡ Phase.Shut }
    ensures course { (opening : Opening) → StandsFor opening [] runtime.old → ClientCourse opening turns
        runtime.old.format (L.left link.old) (L.left link.new) (L.sent link.old) (L.sent link.new)
        result.1.items result.0 }
    ensures later { L.faults link.old ≤ L.faults link.new }
    ensures failed { result.0 ≡ Ended.LinkFault → Rose (L.faults link.old) (L.faults link.new) }
    ensures words { KeepsWords F.post runtime.new }
{
    let mut lines = Vec::new(alloc);
    if let Err(fault) = link.open(alloc) {
        link.close();
        return (Ended::from(fault), lines);
    }
    let ended = talk(alloc, link, runtime, turns, &mut lines);
    link.close();
    (ended, lines)
}

// Hello and the turns, then bye.
fn talk<L: Link, F: FnOnce(Bag) -> Result<Ran, AllocError> + Drop>(
    alloc: Global,
    link: &mut L,
    runtime: &mut HotRuntime<F>,
    turns: u32,
    lines: &mut Vec<OutLine>,
) -> Ended
    requires is_open { L.phase link.old ≡ Phase.Open }
    requires untaken { IsNew runtime.old }
    requires callable { (f : F) → F.IsAlwaysCallable f }
    requires words { KeepsWords F.post runtime.old }
    requires none { lines.old.items ≡ [] }
    ensures course { (opening : Opening) → StandsFor opening [] runtime.old → ClientCourse opening turns
        runtime.old.format (L.left link.old) (L.left link.new) (L.sent link.old) (L.sent link.new)
        lines.new.items result }
    ensures later { L.faults link.old ≤ L.faults link.new }
    ensures failed { result ≡ Ended.LinkFault → Rose (L.faults link.old) (L.faults link.new) }
    ensures words { KeepsWords F.post runtime.new }
{
    for _ in 0..u64::from(turns) + 1 {
        match turn(alloc, link, runtime, lines) {
            Ok(()) => {}
            Err(ended) => return ended,
        }
    }
    bye(alloc, link, runtime.format())
}

/// One request of a runtime over an open link, and what the runtime does at its answer. The lines of that
/// are put behind those before, and after an idle the link pauses.
///
/// Where it can't be had the session has ended, in one of the ways of [`client_session`] other than by an
/// answered bye; then no line came of it. It waits.
pub fn turn<L: Link, F: FnOnce(Bag) -> Result<Ran, AllocError> + Drop>(
    alloc: Global,
    link: &mut L,
    runtime: &mut HotRuntime<F>,
    lines: &mut Vec<OutLine>,
) -> Result<(), Ended>
    requires is_open { L.phase link.old ≡ Phase.Open }
    requires stands { (opening : Opening) × ((past : Past) × StandsFor opening past runtime.old) }
    requires running { runtime.old.stopped ≡ false }
    requires callable { (f : F) → F.IsAlwaysCallable f }
    requires words { KeepsWords F.post runtime.old }
    ensures is_open { L.phase link.new ≡ Phase.Open }
    ensures turns { (opening : Opening) (past : Past) → StandsFor opening past runtime.old
        → Turns opening past
        runtime.old.format (L.left link.old) (L.left link.new) (L.sent link.old) (L.sent link.new)
        runtime.new lines.old.items lines.new.items result }
    ensures later { L.faults link.old ≤ L.faults link.new }
    ensures failed { result ≡ Err Ended.LinkFault → Rose (L.faults link.old) (L.faults link.new) }
    ensures running { OnOk result (runtime.new.stopped ≡ false) }
    ensures format { runtime.new.format ≡ runtime.old.format }
    ensures words { KeepsWords F.post runtime.new }
{
    let asked = runtime.request()?;
    let answer = exchange(alloc, link, &asked, runtime.format())?;
    let is_idle = matches!(answer, ServerMsg::Idle);
    let mut more = match take(runtime, answer) {
        Ok(more) => more,
        Err(fault) => return Err(ended_by(fault)),
    };
    lines.append(&mut more)?;
    rest(link, is_idle);
    Ok(())
}

// A client that was told there is nothing new doesn't ask again at once.
fn rest<L: Link>(link: &L, is_idle: bool) {
    if is_idle {
        link.pause();
    }
}

/// The bye over an open link, which any answer ends. The answer is read in this format, 1 or 2. It waits.
pub fn bye<L: Link>(alloc: Global, link: &mut L, format: u8) -> Ended
    requires is_open { L.phase link.old ≡ Phase.Open }
    requires format { IsFormat format }
    ensures ends { Ends format Bye takes_bye
        (L.left link.old) (L.left link.new) (L.sent link.old) (L.sent link.new) result }
    ensures later { L.faults link.old ≤ L.faults link.new }
    ensures failed { result ≡ Ended.LinkFault → Rose (L.faults link.old) (L.faults link.new) }
{
    match exchange(alloc, link, &ClientMsg::Bye, format) {
        Ok(_) => Ended::Closed,
        Err(ended) => ended,
    }
}

// The ending by a fault of the runtime.
fn ended_by(fault: RuntimeFault) -> Ended
    ensures ended { result ≡ ended_by fault }
    ensures unfailed { result ≢ Ended.LinkFault }
{
    match fault {
        RuntimeFault::Unexpected { wanted, got } => Ended::Unexpected { wanted, got },
        RuntimeFault::InstancesFull => Ended::InstancesFull,
        RuntimeFault::Stopped => Ended::Stopped,
        RuntimeFault::NoMemory => Ended::NoMemory,
    }
}
