// The two sides of a connection: one asks and is answered, the other is asked and answers.
ghost use Rattle.std.specs.Prelude.{◌≡◌, None, IsSome};
ghost use Rattle.transport.specs.declared.link.Phase.{Phase};

use std::alloc::{AllocError, Global};
use transport::{Link, Net, OutFault};

/// Sends messages, in order.
pub fn send_all<L: Link>(alloc: Global, link: &mut L, messages: &[&[u8]]) -> Result<(), OutFault>
    requires is_open { L.phase link.old ≡ Phase.Open }
    ensures stays { L.phase link.new ≡ Phase.Open }
{
    for message in messages {
        link.send(alloc, message)?;
    }
    Ok(())
}

/// Receives so many messages, or until none is left: each with a comma behind it, and a full stop where
/// none was left.
pub fn receive<L: Link>(alloc: Global, link: &mut L, count: u8) -> Result<Vec<u8>, OutFault>
    requires is_open { L.phase link.old ≡ Phase.Open }
    ensures stays { L.phase link.new ≡ Phase.Open }
{
    let mut taken = Vec::new(alloc);
    for _ in 0..count {
        let Some(message) = link.recv(alloc)? else {
            note(&mut taken, b".")?;
            break;
        };
        note(&mut taken, &message)?;
        note(&mut taken, b",")?;
    }
    Ok(taken)
}

fn note(taken: &mut Vec<u8>, bytes: &[u8]) -> Result<(), AllocError> {
    taken.extend_from_slice(bytes)?;
    Ok(())
}

/// Connects, sends messages and receives so many, and closes.
pub fn ask<N: Net>(
    alloc: Global,
    net: &mut N,
    port: u16,
    messages: &[&[u8]],
    count: u8,
) -> Result<Vec<u8>, OutFault>
    requires unasked { N.asked net.old ≡ None }
    requires unheard { N.heard net.old ≡ None }
{
    let mut link = net.connect(alloc, port)?;
    let taken = ask_end(alloc, &mut link, messages, count);
    link.close();
    net.retire(link);
    taken
}

fn ask_end<L: Link>(
    alloc: Global,
    link: &mut L,
    messages: &[&[u8]],
    count: u8,
) -> Result<Vec<u8>, OutFault>
    requires fresh { L.phase link.old ≡ Phase.Fresh }
{
    link.open(alloc)?;
    send_all(alloc, link, messages)?;
    receive(alloc, link, count)
}

/// Accepts, receives so many messages and sends some, and closes.
pub fn serve<N: Net>(
    alloc: Global,
    net: &mut N,
    count: u8,
    messages: &[&[u8]],
) -> Result<Vec<u8>, OutFault>
    requires heard { IsSome (N.heard net.old) }
    ensures heard { N.heard net.new ≡ N.heard net.old }
{
    let mut link = net.accept(alloc)?;
    let taken = serve_end(alloc, &mut link, count, messages);
    link.close();
    net.retire(link);
    taken
}

fn serve_end<L: Link>(
    alloc: Global,
    link: &mut L,
    count: u8,
    messages: &[&[u8]],
) -> Result<Vec<u8>, OutFault>
    requires fresh { L.phase link.old ≡ Phase.Fresh }
{
    link.open(alloc)?;
    let taken = receive(alloc, link, count)?;
    send_all(alloc, link, messages)?;
    Ok(taken)
}
