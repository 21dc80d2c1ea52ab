// One request and its answer over a link.
ghost use Rattle.std.specs.Prelude.{◌≡◌, ◌≤◌, IfOk, IfErr, Err};
ghost use Rattle.hmr_base.specs.Causes.{Rose};
ghost use Rattle.transport.specs.declared.link.Phase.{Phase};
ghost use Rattle.update_msgs.specs.Writable.{IsFormat, IsSayable, IsWritable};
ghost use Rattle.sessions.specs.declared.ended.Ended.{Ended};
ghost use Rattle.client_sessions.specs.Exchange.{Exchanged, Ends, takes_none};

use message_json::{decode, encode_client};
use sessions::Ended;
use std::alloc::Global;
use transport::Link;
use update_msgs::{ClientMsg, ServerMsg};

/// Sends a request, and reads the answer in this format, 1 or 2. Where it can't, the session has ended:
/// [`Ended::Closed`] where the peer closed, [`Ended::LinkFault`] where the link's count rose,
/// [`Ended::BadMessage`] where what came reads as no message, [`Ended::NoMemory`].
pub(crate) fn exchange<L: Link>(
    alloc: Global,
    link: &mut L,
    asked: &ClientMsg,
    format: u8,
) -> Result<ServerMsg, Ended>
    requires is_open { L.phase link.old ≡ Phase.Open }
    requires format { IsFormat format }
    requires sayable { IsSayable asked.now }
    ensures is_open { L.phase link.new ≡ Phase.Open }
    ensures exchanged { IfOk result (λ answer. Exchanged format asked.now
        (L.left link.old) (L.left link.new) (L.sent link.old) (L.sent link.new) answer) }
    ensures writable { IfOk result (IsWritable format) }
    ensures ends { IfErr result (λ ended. Ends format asked.now takes_none
        (L.left link.old) (L.left link.new) (L.sent link.old) (L.sent link.new) ended) }
    ensures later { L.faults link.old ≤ L.faults link.new }
    ensures failed { result ≡ Err Ended.LinkFault → Rose (L.faults link.old) (L.faults link.new) }
{
    let text = encode_client(alloc, asked)?;
    link.send(alloc, &text)?;
    let Some(bytes) = link.recv(alloc)? else {
        return Err(Ended::Closed);
    };
    let answer = decode(alloc, &bytes, format)?;
    Ok(answer)
}
