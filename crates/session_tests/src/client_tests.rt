// What a client sends for what it is told, and the lines of what it took.
use crate::messages::{
    ABORTED, APPLIED, ASK, BAD_TEXT, BYE, CONNECTED, DONE, FETCH, HELLO, IDLE, TEXT, UNKNOWN,
    are_sent, coming,
};
use client_sessions::{Ended, client_session};
use handler_table::{Shelf, host_run};
use message_json::MsgFault;
use output_lines::OutLine;
use play_text::render;
use retained_data::{Bag, Ran};
use runtime_state::HotRuntime;
use std::alloc::{AllocError, Global};
use std::collections::VecDeque;
use std::sync::Wait;
use std::test::Fail;
use transport::{MemLink, Net, TellNet};

/// A session that is over.
#[derive(Drop)]
struct Over<R: Drop> {
    ended: Ended,
    lines: String,
    link: MemLink<R>,
}

fn text_of(alloc: Global, lines: &[OutLine]) -> Result<String, AllocError> {
    let mut out = String::new(alloc);
    for line in lines {
        let bytes = render(alloc, line)?;
        let line = String::from_utf8_lossy(alloc, bytes.as_slice())?;
        out.push_str(&line)?;
    }
    Ok(out)
}

/// A session of so many turns that is told these messages, of a client of format 2, whose shelf is empty.
/// None where there was no memory. Closures are of the sample's type.
fn joined<R: Wait + Copy + Drop, F: FnOnce(Bag) -> Result<Ran, AllocError> + Drop>(
    alloc: Global,
    rt: R,
    _sample: F,
    messages: &[&str],
    turns: u32,
) -> Option<Over<R>>
    requires callable { (f : F) → F.IsAlwaysCallable f }
{
    let coming = coming(alloc, messages).ok()?;
    let mut net = TellNet::new(rt, coming, Vec::new(alloc), VecDeque::new(alloc));
    let Ok(mut link) = net.connect(alloc, 5173) else {
        return None;
    };
    let shelf: Shelf<F> = Shelf::new(Vec::new(alloc));
    let mut runtime = HotRuntime::new(alloc, shelf, Vec::new(alloc), 2);
    let (ended, lines) = client_session(alloc, &mut link, &mut runtime, turns);
    let lines = text_of(alloc, &lines).ok()?;
    Some(Over { ended, lines, link })
}

/// Whether a session of three turns that is told these messages sends these, writes these lines and ends so.
fn goes<R: Wait + Copy + Drop>(
    alloc: Global,
    rt: R,
    told: &[&str],
    sent: &[&str],
    lines: &str,
    ended: &Ended,
) -> bool {
    let sample = move |bag: Bag| -> Result<Ran, AllocError> { host_run(alloc, "H", 1, bag) };
    match joined(alloc, rt, sample, told, 3) {
        Some(over) => {
            are_sent(over.link.sent(), sent) && over.lines.as_str() == lines && over.ended == *ended
        }
        None => false,
    }
}

#[test]
fn a_page_is_loaded_and_asks_once(rt: HostRuntime) -> Result<(), Fail> {
    let told = [CONNECTED, TEXT, DONE, IDLE, DONE, IDLE];
    let sent = [HELLO, FETCH, APPLIED, ASK, BYE];
    assert!(rt; goes(rt.alloc(), rt, &told, &sent, "1 loaded\n", &Ended::Closed));
    Ok(())
}

#[test]
fn a_server_that_closes_ends_a_session(rt: HostRuntime) -> Result<(), Fail> {
    let told = [CONNECTED];
    let sent = [HELLO, FETCH];
    assert!(rt; goes(rt.alloc(), rt, &told, &sent, "", &Ended::Closed));
    Ok(())
}

#[test]
fn a_text_that_does_not_parse_is_given_up(rt: HostRuntime) -> Result<(), Fail> {
    let told = [CONNECTED, BAD_TEXT, DONE, IDLE, DONE];
    let sent = [HELLO, FETCH, ABORTED, ASK, BYE];
    let lines = "1 aborted broken /m.js\n";
    assert!(rt; goes(rt.alloc(), rt, &told, &sent, lines, &Ended::Closed));
    Ok(())
}

#[test]
fn done_is_no_answer_to_an_ask(rt: HostRuntime) -> Result<(), Fail> {
    let told = [CONNECTED, TEXT, DONE, DONE, DONE];
    let sent = [HELLO, FETCH, APPLIED, ASK];
    let ended = Ended::Unexpected { wanted: 2, got: 8 };
    assert!(rt; goes(rt.alloc(), rt, &told, &sent, "1 loaded\n", &ended));
    Ok(())
}

#[test]
fn a_bad_message_ends_a_session(rt: HostRuntime) -> Result<(), Fail> {
    let told = [CONNECTED, UNKNOWN, DONE];
    let sent = [HELLO, FETCH];
    let ended = Ended::BadMessage(MsgFault::NoType);
    assert!(rt; goes(rt.alloc(), rt, &told, &sent, "", &ended));
    Ok(())
}
