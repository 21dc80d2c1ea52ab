// A client's session whose lines are written answer by answer, before the next request is sent.
ghost use Rattle.std.specs.Prelude.{◌≡◌, ◌≤◌, [], Err};
ghost use Rattle.hmr_base.specs.Causes.{Rose};
ghost use Rattle.transport.specs.declared.link.Phase.{Phase};
ghost use Rattle.client_model.specs.Runtime.{Opening};
ghost use Rattle.runtime_state.specs.Standing.{KeepsWords, StandsFor};
ghost use Rattle.client_sessions.specs.Asking.{IsNew};
ghost use Rattle.join_command.specs.Joining.{Joins};

use crate::stop::{JoinStop, ends_as};
use crate::writing::write_lines;
use client_sessions::{Ended, bye, turn};
use hmr_base::Sink;
use retained_data::{Bag, Ran};
use runtime_state::HotRuntime;
use std::alloc::{AllocError, Global};
use transport::Link;

/// Opens a fresh link, sends hello, so many requests of a runtime that took no message yet, and bye, and
/// closes the link. The lines of each answer are written before the next request. It waits.
pub(crate) fn run<L: Link, F: FnOnce(Bag) -> Result<Ran, AllocError> + Drop, K: Sink>(
    alloc: Global,
    link: &mut L,
    runtime: &mut HotRuntime<F>,
    turns: u32,
    out: &mut K,
) -> Result<(), JoinStop>
    requires fresh { L.phase link.old ≡ Phase.Fresh }
    requires untaken { IsNew runtime.old }
    requires callable { (f : F) → F.IsAlwaysCallable f }
    requires words { KeepsWords F.post runtime.old }
    ensures shut { L.phase link.new ≡ Phase.Shut }
    ensures joins { (opening : Opening) → StandsFor opening [] runtime.old → Joins opening turns
        runtime.old.format (L.left link.old) (L.left link.new) (L.sent link.old) (L.sent link.new)
        (K.written out.old) (K.written out.new) result }
    ensures later { L.faults link.old ≤ L.faults link.new }
    ensures failed { result ≡ Err JoinStop.NetFailed → Rose (L.faults link.old) (L.faults link.new) }
    ensures out_later { K.faults out.old ≤ K.faults out.new }
    ensures unwritten { result ≡ Err JoinStop.Unwritten → Rose (K.faults out.old) (K.faults out.new) }
{
    if let Err(fault) = link.open(alloc) {
        link.close();
        return ends_as(Ended::from(fault));
    }
    let ended = talk(alloc, link, runtime, turns, out);
    link.close();
    ended
}

// Hello and the turns, then bye.
fn talk<L: Link, F: FnOnce(Bag) -> Result<Ran, AllocError> + Drop, K: Sink>(
    alloc: Global,
    link: &mut L,
    runtime: &mut HotRuntime<F>,
    turns: u32,
    out: &mut K,
) -> Result<(), JoinStop>
    requires is_open { L.phase link.old ≡ Phase.Open }
    requires untaken { IsNew runtime.old }
    requires callable { (f : F) → F.IsAlwaysCallable f }
    requires words { KeepsWords F.post runtime.old }
    ensures joins { (opening : Opening) → StandsFor opening [] runtime.old → Joins opening turns
        runtime.old.format (L.left link.old) (L.left link.new) (L.sent link.old) (L.sent link.new)
        (K.written out.old) (K.written out.new) result }
    ensures later { L.faults link.old ≤ L.faults link.new }
    ensures failed { result ≡ Err JoinStop.NetFailed → Rose (L.faults link.old) (L.faults link.new) }
    ensures out_later { K.faults out.old ≤ K.faults out.new }
    ensures unwritten { result ≡ Err JoinStop.Unwritten → Rose (K.faults out.old) (K.faults out.new) }
{
    for _ in 0..u64::from(turns) + 1 {
        let mut lines = Vec::new(alloc);
        match turn(alloc, link, runtime, &mut lines) {
            Ok(()) => {}
            Err(ended) => return ends_as(ended),
        }
        match write_lines(alloc, &lines, out) {
            Ok(()) => {}
            Err(stop) => return Err(stop),
        }
    }
    ends_as(bye(alloc, link, runtime.format()))
}
