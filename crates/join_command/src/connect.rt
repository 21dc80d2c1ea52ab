// The command: a connection, a client's session over it, and the end taken back.
ghost use Rattle.std.specs.Prelude.{◌≡◌, ◌⊎◌, ◌≤◌, Err, None, Some};
ghost use Rattle.std.specs.List.{All};
ghost use Rattle.handler_table.specs.Held.{IsHost};
ghost use Rattle.handler_table.specs.Shelf.{marks_of};
ghost use Rattle.hmr_base.specs.Causes.{Rose};
ghost use Rattle.transport.specs.declared.net.Asked.{Asked};
ghost use Rattle.join_command.specs.Joining.{JoinsAt, JoinsBy};

use crate::plan::JoinPlan;
use crate::session::run;
use crate::stop::JoinStop;
use handler_table::Shelf;
use hmr_base::Sink;
use retained_data::{Bag, Ran};
use runtime_state::HotRuntime;
use std::alloc::{AllocError, Global};
use transport::Net;

/// Connects one client in the second format to the server of a plan: it sends hello, as many requests as the
/// plan says, and bye. Its page has the plan's roots, or with none the server's, and its modules get the
/// closures of the shelf. The lines of each answer are written before the next request is sent. It answers
/// Ok where the bye was answered or the server closed.
///
/// [`JoinStop::Unwritten`] comes only where the output's count of faults rose in this call, and
/// [`JoinStop::NetFailed`] only where the net's did. [`JoinStop::BadAnswer`] and
/// [`JoinStop::InstancesFull`] come exactly where the session ended so, and [`JoinStop::NoMemory`] where
/// memory ran out. The lines of the answers that were taken are written: all of them, but where the output
/// failed or memory ran out a prefix of their bytes. What it sends and takes is that of a client's session,
/// as far as the net tells messages: a real one tells none. The net has each end back that it gave. It
/// waits.
pub fn join<F: FnOnce(Bag) -> Result<Ran, AllocError> + Drop, N: Net, K: Sink>(
    alloc: Global,
    plan: JoinPlan,
    net: &mut N,
    out: &mut K,
    shelf: Shelf<F>,
) -> Result<(), JoinStop>
    requires unasked { N.asked net.old ≡ None }
    requires unheard { N.heard net.old ≡ None }
    requires callable { (f : F) → F.IsAlwaysCallable f }
    requires hosts { All (IsHost F.post) shelf }
    ensures joins { JoinsAt (record { shelf = marks_of shelf; roots = plan.roots.items; format = 2 })
        plan.turns (N.coming net.old) (K.written out.old) (K.written out.new) result }
    ensures over { JoinsBy (record { shelf = marks_of shelf; roots = plan.roots.items; format = 2 })
        plan.turns (N.coming net.old) (N.unread net.new) (N.spoken net.new)
        (K.written out.old) (K.written out.new) result }
    ensures back { N.lent net.new ≡ N.lent net.old }
    ensures asked { N.asked net.new ≡ Some (Asked.Connect plan.port) }
    ensures later { N.faults net.old ≤ N.faults net.new }
    ensures failed { result ≡ Err JoinStop.NetFailed → Rose (N.faults net.old) (N.faults net.new) }
    ensures out_later { K.faults out.old ≤ K.faults out.new }
    ensures unwritten { result ≡ Err JoinStop.Unwritten → Rose (K.faults out.old) (K.faults out.new) }
{
    let JoinPlan { port, roots, turns } = plan;
    let mut runtime = HotRuntime::new(alloc, shelf, roots, 2);
    let mut link = match net.connect(alloc, port) {
        Ok(link) => link,
        Err(fault) => return Err(JoinStop::from(fault)),
    };
    let ended = run(alloc, &mut link, &mut runtime, turns, out);
    net.retire(link);
    ended
}
