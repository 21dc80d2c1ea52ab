// The command `join`: one client to a server on this machine.
ghost use Rattle.std.specs.Prelude.{◌≡◌, ◌≤◌, All, Err, None, Some, map};
ghost use Rattle.std.specs.Io.KnownBytes.{Appends};
ghost use Rattle.handler_table.specs.Held.{IsHost};
ghost use Rattle.handler_table.specs.Shelf.{marks_of};
ghost use Rattle.hmr_base.specs.Causes.{Rose};
ghost use Rattle.hmr_base.specs.Fronts.{WritesFront};
ghost use Rattle.world_parts.specs.Shelves.{AreHosts};
ghost use Rattle.transport.specs.declared.net.Asked.{Asked};
ghost use Rattle.top_call.specs.Outside.{IsJoinStatus, IsJoined, first_shelf, last_of_join};
ghost use Rattle.top_call.specs.Outside.{opening_of, status_of_join};

use command_ends::{Limit, Status};
use handler_table::Shelf;
use hmr_base::{Sink, write_all};
use join_command::{JoinPlan, JoinStop, join};
use retained_data::{Bag, Ran};
use std::alloc::{AllocError, Global};
use transport::Net;
use world_parts::discard;

/// One client to the server of a plan, by [`join`], with the closures of the first shelf. It
/// answers the exit status: 0, 5, 7, 8, 9 or 10; at 8 the line of the limit stands behind the client's
/// lines.
pub(crate) fn join_server<F: FnOnce(Bag) -> Result<Ran, AllocError> + Drop, N: Net, K: Sink>(
    alloc: Global,
    plan: JoinPlan,
    net: &mut N,
    out: &mut K,
    shelves: Vec<Shelf<F>>,
) -> u8
    requires unasked { (N.asked net.old ≡ None) × (N.heard net.old ≡ None) }
    requires callable { (f : F) → F.IsAlwaysCallable f }
    requires hosts { AreHosts F.post shelves.items }
    ensures joined { IsJoined (opening_of (map marks_of shelves.items) plan.roots.items) plan.turns
        (N.coming net.old) (K.written out.old) (K.written out.new) (K.faults out.old) (K.faults out.new)
        result }
    ensures known { IsJoinStatus result }
    ensures asked { N.asked net.new ≡ Some (Asked.Connect plan.port) }
    ensures unwritten { result ≡ 5 → Rose (K.faults out.old) (K.faults out.new) }
    ensures fault { result ≡ 7 → Rose (N.faults net.old) (N.faults net.new) }
{
    let shelf = first_of(alloc, shelves);
    let ended = join(alloc, plan, net, out, shelf);
    tell_end(ended, out)
}

// The first shelf, or an empty one where there is none. The others are let go.
fn first_of<F: FnOnce(Bag) -> Result<Ran, AllocError> + Drop>(
    alloc: Global,
    mut shelves: Vec<Shelf<F>>,
) -> Shelf<F>
    ensures marks { marks_of result ≡ first_shelf (map marks_of shelves.items) }
    ensures hosts { AreHosts F.post shelves.items → All (IsHost F.post) result }
{
    if shelves.is_empty() {
        discard(shelves);
        return Shelf::new(Vec::new(alloc));
    }
    let shelf = shelves.swap_remove(0);
    discard(shelves);
    shelf
}

// Writes the line of a limit, and answers the exit status of a client's end.
fn tell_end<K: Sink>(ended: Result<(), JoinStop>, out: &mut K) -> u8
    ensures is { result ≡ status_of_join ended }
    ensures known { IsJoinStatus result }
    ensures unwritten { result ≡ 5 → ended ≡ Err JoinStop.Unwritten }
    ensures fault { result ≡ 7 → ended ≡ Err JoinStop.NetFailed }
    ensures front { WritesFront (K.written out.old) (K.written out.new) (last_of_join ended) }
    ensures whole { ¬ Rose (K.faults out.old) (K.faults out.new)
        → Appends (K.written out.old) (K.written out.new) (last_of_join ended) }
    ensures later { K.faults out.old ≤ K.faults out.new }
{
    match ended {
        Ok(()) => Status::Done.number(),
        Err(JoinStop::Unwritten) => Status::Unwritten.number(),
        Err(JoinStop::NetFailed) => Status::Net.number(),
        Err(JoinStop::InstancesFull) => {
            let _ = write_all(out, Limit::Instances.line().as_bytes());
            Status::Limit.number()
        }
        Err(JoinStop::NoMemory) => Status::NoMemory.number(),
        Err(JoinStop::BadAnswer) => Status::BadAnswer.number(),
    }
}
