// One call that fails, each in turn: of the input and of the output of each command, and of the folder, the
// net, its ends and the starts of threads where a folder is served to three clients. The status and what is
// written are those of the table of statuses, whatever the schedule.
use crate::outcomes::{Faults, NONE, WRITTEN, joined, outcome};
use crate::worked::{ANSWERS, CHECKED, COUNTER, JOINED, MADE, REQUESTS, TOLD};
use std::alloc::{AllocError, Global};
use std::sync::Wait;
use std::test::Fail;
use std::thread::Threads;

/// A folder that is served to three clients of the server's own, and looked at once more; its whole output.
const SERVE: &str = "serve site /m.js --clients 3 --turns 4 --rounds 1";

const SERVED: &str =
    "listening 5173\nsteps 20\nfresh\n/m.js 1\nclient 1\n/m.js 1\nclient 2\n/m.js 1\nclient 3\n/m.js 1\n1 loaded\n2 loaded\n3 loaded\n";

/// What is written first of a server that listened and then failed: its port, and a report.
const REPORT: &[u8] = b"listening 5173\nsteps ";

/// An edit as `serve` reads it from its input, and what is written of a server without clients that makes it.
const EDITED: (&str, &str) = (
    "edit /m.js\n|export const n = 2;\n",
    "listening 5173\nsteps 4\nfresh\n/m.js 2\n",
);

/// The calls of a look at the folder: it is opened and listed, and its file is read.
const LOOK_CALLS: u64 = 3;

/// The calls of the net: it listens, and each client connects and is accepted.
const NET_CALLS: u64 = 7;

/// The ends of three clients and of their sessions.
const ENDS: u64 = 6;

/// The calls of one end: its handshake, and six messages with their answers.
const END_CALLS: u64 = 13;

/// The starts of two workers, and of a client and a session for each connection.
const STARTS: u64 = 8;

/// The calls of a client's end until its page is loaded: its handshake, and three messages with their
/// answers. Two messages more end its session.
const LOADING_CALLS: u64 = 7;

const CLIENT_CALLS: u64 = 11;

/// More than there are writes of an output.
const MANY: u64 = 150;

/// The first answers to the requests, so many of them.
fn first_answers(alloc: Global, count: u64) -> Result<String, AllocError> {
    let mut text = String::new(alloc);
    let mut left = count;
    for answer in ANSWERS {
        if left > 0 {
            text.push_str(answer)?;
        }
        left = left.saturating_sub(1);
    }
    Ok(text)
}

/// Whether a folder that is served with these calls failing comes to this status, and writes a report where
/// one is due, and else nothing.
fn is_served_so<R: Threads + Wait + Sync + Copy + Drop + Send + 'static>(
    rt: R,
    alloc: Global,
    faults: Faults,
    wanted: u8,
    reported: bool,
) -> Result<bool, AllocError> {
    let (status, written) = outcome(rt, alloc, SERVE, b"", &faults)?;
    let is_written = if reported {
        written.starts_with(REPORT)
    } else {
        written.is_empty()
    };
    Ok(status == wanted && is_written)
}

/// Whether a folder that is served with these calls failing is served as if none failed.
fn is_served_well<R: Threads + Wait + Sync + Copy + Drop + Send + 'static>(
    rt: R,
    alloc: Global,
    faults: Faults,
) -> Result<bool, AllocError> {
    let (status, written) = outcome(rt, alloc, SERVE, b"", &faults)?;
    Ok(status == 0 && written.as_slice() == SERVED.as_bytes())
}

#[test]
fn a_read_fails(rt: HostRuntime) -> Result<(), Fail> {
    let alloc = rt.alloc();
    // in pieces of 40 bytes, and once more for the end
    let rows = [
        ("play", COUNTER, 17),
        ("check /m.js", CHECKED, 4),
        ("serve site /m.js --edits", EDITED, 2),
        ("make 1 1", ("", MADE), 0),
    ];
    for (words, (input, output), reads) in rows {
        for read in 0..reads {
            let faults = Faults { read, ..NONE };
            let (status, written) = outcome(rt, alloc, words, input.as_bytes(), &faults)?;
            assert_eq!(rt; status, 4, "{words}, read {read}");
            assert_eq!(rt; written.len(), 0);
        }
        let faults = Faults {
            read: reads,
            ..NONE
        };
        let (status, written) = outcome(rt, alloc, words, input.as_bytes(), &faults)?;
        assert_eq!(rt; status, 0, "{words}");
        assert_eq!(rt; written.as_slice(), output.as_bytes());
    }
    // each piece but the last brings the end of a request, and nothing is read behind the answer that closes
    for (read, wanted) in [(0, 4), (1, 4), (2, 4), (3, 0)] {
        let faults = Faults { read, ..NONE };
        let (status, written) = outcome(rt, alloc, "page site", REQUESTS.as_bytes(), &faults)?;
        assert_eq!(rt; status, wanted, "page, read {read}");
        let expected = first_answers(alloc, read)?;
        assert_eq!(rt; written.as_slice(), expected.as_bytes());
    }
    Ok(())
}

#[test]
fn a_write_fails(rt: HostRuntime) -> Result<(), Fail> {
    let alloc = rt.alloc();
    let answers = first_answers(alloc, 3)?;
    let rows = [
        ("play", COUNTER.0, COUNTER.1),
        ("check /m.js", CHECKED.0, CHECKED.1),
        ("make 1 1", "", MADE),
        ("page site", REQUESTS, answers.as_str()),
        (SERVE, "", SERVED),
    ];
    for (words, input, output) in rows {
        let mut failed: usize = 0;
        for write in 0..MANY {
            let faults = Faults { write, ..NONE };
            let (status, written) = outcome(rt, alloc, words, input.as_bytes(), &faults)?;
            if status == 0 {
                assert_eq!(rt; written.as_slice(), output.as_bytes());
                break;
            }
            assert_eq!(rt; status, 5, "{words}, write {write}");
            assert!(rt; output.as_bytes().starts_with(&written) && written.len() < output.len());
            failed = failed.saturating_add(1);
        }
        // no more than so many bytes go at a time
        assert!(rt;
            output.len() <= failed.saturating_mul(WRITTEN),
            "{words}: {failed} writes"
        );
        assert!(rt; (failed as u64) < MANY);
    }
    Ok(())
}

#[test]
fn a_call_of_the_folder_fails(rt: HostRuntime) -> Result<(), Fail> {
    let alloc = rt.alloc();
    for tree in 0..2 * LOOK_CALLS {
        let faults = Faults { tree, ..NONE };
        // the first look is before it listens
        let so = is_served_so(rt, alloc, faults, 6, tree >= LOOK_CALLS)?;
        assert!(rt; so, "call {tree} of the folder");
    }
    for tree in 0..LOOK_CALLS {
        let faults = Faults { tree, ..NONE };
        let (status, written) = outcome(rt, alloc, "page site", REQUESTS.as_bytes(), &faults)?;
        assert_eq!(rt; status, 6, "page, call {tree} of the folder");
        assert_eq!(rt; written.len(), 0);
    }
    Ok(())
}

#[test]
fn a_call_of_the_net_or_a_start_fails(rt: HostRuntime) -> Result<(), Fail> {
    let alloc = rt.alloc();
    for net in 0..NET_CALLS {
        let so = is_served_so(rt, alloc, Faults { net, ..NONE }, 7, net > 0)?;
        assert!(rt; so, "call {net} of the net");
    }
    for start in 0..STARTS {
        let so = is_served_so(rt, alloc, Faults { start, ..NONE }, 7, true)?;
        assert!(rt; so, "start {start}");
    }
    let after = Faults {
        tree: 2 * LOOK_CALLS,
        net: NET_CALLS,
        start: STARTS,
        ..NONE
    };
    assert!(rt; is_served_well(rt, alloc, after)?);
    Ok(())
}

#[test]
fn a_call_of_an_end_fails(rt: HostRuntime) -> Result<(), Fail> {
    let alloc = rt.alloc();
    for end in 0..ENDS {
        for end_call in 0..END_CALLS {
            let faults = Faults {
                end,
                end_call,
                ..NONE
            };
            let so = is_served_so(rt, alloc, faults, 7, true)?;
            assert!(rt; so, "call {end_call} of the end {end}");
        }
        let after = Faults {
            end,
            end_call: END_CALLS,
            ..NONE
        };
        assert!(rt; is_served_well(rt, alloc, after)?, "the end {end}");
    }
    Ok(())
}

#[test]
fn a_call_of_a_client_fails(rt: HostRuntime) -> Result<(), Fail> {
    let alloc = rt.alloc();
    let (status, written) = joined(rt, alloc, &TOLD, &Faults { net: 0, ..NONE })?;
    assert_eq!(rt; status, 7);
    assert_eq!(rt; written.len(), 0);
    for end_call in 0..=CLIENT_CALLS {
        let (status, written) = joined(rt, alloc, &TOLD, &Faults { end_call, ..NONE })?;
        let wanted = if end_call < CLIENT_CALLS { 7 } else { 0 };
        assert_eq!(rt; status, wanted, "call {end_call} of the client's end");
        let lines = if end_call < LOADING_CALLS { "" } else { JOINED };
        assert_eq!(rt; written.as_slice(), lines.as_bytes());
    }
    // the one line goes in two writes
    for (write, wanted) in [(0, 5), (1, 5), (2, 0)] {
        let (status, written) = joined(rt, alloc, &TOLD, &Faults { write, ..NONE })?;
        assert_eq!(rt; status, wanted, "write {write} of the client");
        assert!(rt; JOINED.as_bytes().starts_with(&written));
    }
    Ok(())
}
