// A session over a desk of a hub: it is told messages, and then what it sent, how it ended and its desk are
// looked at.
ghost use Rattle.std.specs.Prelude.{◌≡◌};
ghost use Rattle.std.specs.Arc.{arc_value};
ghost use Rattle.hmr_hub.specs.Passes.{IsPassOf};

use hmr_hub::{Hub, Pass};
use session_desks::HubDesk;
use sessions::{Ended, serve_session};
use std::alloc::{AllocError, Global};
use std::collections::VecDeque;
use std::sync::{Arc, Wait};
use transport::{MemLink, Net, TellNet};

pub(crate) const HELLO: &str = "{\"format\":1,\"type\":\"hello\"}";

/// A session that is over: how it ended, its link and its desk.
#[derive(Drop)]
pub(crate) struct Over<R: Drop> {
    pub ended: Ended,
    pub link: MemLink<R>,
    pub desk: HubDesk<R>,
}

/// A session that is told these messages, and then that the peer has closed, over a desk of the hub whose
/// pass is split off this one. None where there was no memory.
pub(crate) fn session<R: Wait + Copy + Drop>(
    rt: R,
    alloc: Global,
    hub: &Arc<Hub, Global>,
    pass: &mut Pass,
    messages: &[&str],
) -> Option<Over<R>>
    requires pass { IsPassOf (arc_value hub.now) pass.old }
    ensures pass { IsPassOf (arc_value hub.now) pass.new }
{
    let half = hub.split(&rt, pass).ok()?;
    let own = Arc::try_clone(hub).ok()?;
    let coming = coming(alloc, messages).ok()?;
    let mut net = TellNet::new(rt, coming, Vec::new(alloc), VecDeque::new(alloc));
    let Ok(mut link) = net.connect(alloc, 5173) else {
        return None;
    };
    let mut desk = HubDesk::new(rt, own, half);
    let ended = serve_session(&rt, alloc, &mut link, &mut desk);
    Some(Over { ended, link, desk })
}

fn coming(alloc: Global, messages: &[&str]) -> Result<VecDeque<Vec<u8>>, AllocError> {
    let mut coming = VecDeque::new(alloc);
    for message in messages {
        coming.push_back(Vec::from_slice(alloc, message.as_bytes())?)?;
    }
    Ok(coming)
}

/// Whether these messages were sent, and no others.
pub(crate) fn are_sent(sent: &[Vec<u8>], expected: &[&str]) -> bool {
    if sent.len() != expected.len() {
        return false;
    }
    for (message, text) in sent.iter().zip(expected) {
        if message.as_slice() != text.as_bytes() {
            return false;
        }
    }
    true
}
