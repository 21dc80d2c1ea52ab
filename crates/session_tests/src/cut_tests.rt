// Connections that are cut, at each place of a session: the k-th call of the server's end fails.
use crate::ends::{ask_one, serve_one};
use sessions::Ended;
use std::alloc::Global;
use std::collections::VecDeque;
use std::sync::Wait;
use std::test::Fail;
use std::thread;
use std::thread::Threads;
use transport::{MemNet, Net};

/// The calls of a whole session: its handshake, and three messages with their answers.
const CALLS: u64 = 7;

/// A session whose k-th call fails: how it ended, and which answers came.
fn cut_at<R: Threads + Wait + Copy + Drop + Send + Sync>(
    alloc: Global,
    rt: R,
    call: u64,
) -> Option<(Option<Ended>, Option<[bool; 4]>)> {
    let mut failing = Vec::new(alloc);
    failing.push(call).ok()?;
    let mut ends = VecDeque::new(alloc);
    ends.push_back(failing).ok()?;
    let mut net = MemNet::new(alloc, rt, Vec::new(alloc), ends).ok()?;
    let mut beside = net.beside(Vec::new(alloc), VecDeque::new(alloc)).ok()?;
    let port = net.listen(alloc, 0).ok()?;
    Some(thread::join(
        &rt,
        || serve_one(alloc, &rt, &mut net),
        || ask_one(alloc, &mut beside, port),
    ))
}

#[test]
fn a_cut_ends_a_session_and_closes_its_link(rt: HostRuntime) -> Result<(), Fail> {
    // after the handshake each message is two calls: it is received, and its answer is sent
    let none = [false, false, false, false];
    let one = [true, false, false, false];
    let two = [true, true, false, false];
    let three = [true, true, true, false];
    let mut call: u64 = 0;
    for answers in [none, none, none, one, one, two, two] {
        match cut_at(rt.alloc(), rt, call) {
            Some((ended, came)) => {
                assert!(rt; ended == Some(Ended::LinkFault) && came == Some(answers));
            }
            None => assert!(rt; false),
        }
        call = call.wrapping_add(1);
    }
    match cut_at(rt.alloc(), rt, CALLS) {
        Some((ended, came)) => {
            assert!(rt; ended == Some(Ended::Closed) && came == Some(three));
        }
        None => assert!(rt; false),
    }
    Ok(())
}
