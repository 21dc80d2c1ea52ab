// What a server sends for what it is told.
use crate::page_desk::PageDesk;
use sessions::{Ended, serve_session};
use std::alloc::{AllocError, Global};
use std::collections::VecDeque;
use std::sync::Wait;
use std::test::Fail;
use transport::{MemLink, Net, TellNet};

const ASK: &str = "{\"type\":\"ask\"}";

const HELLO: &str = "{\"format\":1,\"type\":\"hello\"}";

const HELLO_2: &str = "{\"format\":2,\"type\":\"hello\"}";

const BYE: &str = "{\"type\":\"bye\"}";

const REFUSED_3: &str =
    "{\"code\":3,\"kept\":null,\"path\":null,\"told\":null,\"type\":\"refused\"}";

const CONNECTED: &str = "{\"client\":1,\"roots\":[\"/m.js\"],\"type\":\"connected\"}";

const UPDATE: &str = "{\"replaced\":[\"/m.js\"],\"type\":\"update\",\"updates\":[]}";

const UPDATE_2: &str =
    "{\"batch\":1,\"replaced\":[\"/m.js\"],\"triggeredBy\":[],\"type\":\"update\",\"updates\":[]}";

fn coming(alloc: Global, messages: &[&str]) -> Result<VecDeque<Vec<u8>>, AllocError> {
    let mut coming = VecDeque::new(alloc);
    for message in messages {
        let bytes = Vec::from_slice(alloc, message.as_bytes())?;
        if coming.push_back(bytes).is_err() {
            return Err(AllocError);
        }
    }
    Ok(coming)
}

/// A session that is told these messages, with a desk that answers so many. None where there was no memory.
fn served<R: Wait + Copy + Drop>(
    alloc: Global,
    rt: R,
    messages: &[&str],
    answers: u8,
) -> Option<(Ended, MemLink<R>)> {
    let coming = coming(alloc, messages).ok()?;
    let mut net = TellNet::new(rt, coming, Vec::new(alloc), VecDeque::new(alloc));
    let mut desk = PageDesk::new(alloc, answers);
    let mut link = net.connect(alloc, 5173).ok()?;
    let ended = serve_session(&rt, alloc, &mut link, &mut desk);
    Some((ended, link))
}

fn are_sent(sent: &[Vec<u8>], expected: &[&str]) -> bool {
    if sent.len() != expected.len() {
        return false;
    }
    for (message, text) in sent.iter().zip(expected) {
        if message.as_slice() != text.as_bytes() {
            return false;
        }
    }
    true
}

#[test]
fn the_last_hello_names_the_format(rt: HostRuntime) -> Result<(), Fail> {
    let told = [HELLO, ASK, HELLO_2, ASK, HELLO, ASK];
    let expected = [CONNECTED, UPDATE, REFUSED_3, UPDATE_2, REFUSED_3, UPDATE];
    let session = served(rt.alloc(), rt, &told, 20);
    assert!(rt; session.is_some());
    if let Some((ended, link)) = session {
        assert!(rt; ended == Ended::Closed);
        assert!(rt; are_sent(link.sent(), &expected));
    }
    Ok(())
}

#[test]
fn a_full_desk_stops_a_session(rt: HostRuntime) -> Result<(), Fail> {
    let told = [HELLO, ASK, BYE];
    let expected = [CONNECTED, UPDATE];
    let session = served(rt.alloc(), rt, &told, 2);
    assert!(rt; session.is_some());
    if let Some((ended, link)) = session {
        assert!(rt; ended == Ended::Stopped);
        assert!(rt; are_sent(link.sent(), &expected));
    }
    Ok(())
}
