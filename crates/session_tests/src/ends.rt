// The two ends of a connection of any net: one that serves a session, and one that asks.
ghost use Rattle.std.specs.Prelude.{◌≡◌, IsSome};
ghost use Rattle.transport.specs.Asks.{MayConnect};
ghost use Rattle.transport.specs.declared.link.Phase.{Phase};

use crate::page_desk::PageDesk;
use sessions::{Ended, serve_session};
use std::alloc::Global;
use std::sync::Wait;
use transport::{Link, Net};

const HELLO: &[u8] = b"{\"format\":1,\"type\":\"hello\"}";

const ASK: &[u8] = b"{\"type\":\"ask\"}";

const BYE: &[u8] = b"{\"type\":\"bye\"}";

/// Serves who comes first, and tells how the session ended.
pub(crate) fn serve_one<R: Wait, N: Net>(alloc: Global, rt: &R, net: &mut N) -> Option<Ended>
where
    N::End: Drop,
    requires heard { IsSome (N.heard net.old) }
{
    let mut link = net.accept(alloc).ok()?;
    let mut desk = PageDesk::new(alloc, 20);
    let ended = serve_session(rt, alloc, &mut link, &mut desk);
    net.retire(link);
    Some(ended)
}

/// Sends three messages to a port, and tells of four times whether an answer comes.
pub(crate) fn ask_one<N: Net>(alloc: Global, net: &mut N, port: u16) -> Option<[bool; 4]>
where
    N::End: Drop,
    requires may { MayConnect (N.asked net.old) (N.heard net.old) port }
{
    let mut link = net.connect(alloc, port).ok()?;
    link.open(alloc).ok()?;
    link.send(alloc, HELLO).ok()?;
    link.send(alloc, ASK).ok()?;
    link.send(alloc, BYE).ok()?;
    let first = comes(alloc, &mut link)?;
    let second = comes(alloc, &mut link)?;
    let third = comes(alloc, &mut link)?;
    let fourth = comes(alloc, &mut link)?;
    link.close();
    net.retire(link);
    Some([first, second, third, fourth])
}

/// Whether a message comes, or else the other end has closed.
fn comes<L: Link>(alloc: Global, link: &mut L) -> Option<bool>
    requires is_open { L.phase link.old ≡ Phase.Open }
    ensures is_open { L.phase link.new ≡ Phase.Open }
{
    let got = link.recv(alloc).ok()?;
    Some(got.is_some())
}
