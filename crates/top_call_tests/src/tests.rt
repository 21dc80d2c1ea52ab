// Runs through the top call that the program can't show: an output that fails after some bytes, and a server
// that answers a client wrongly.
use crate::outcomes::{Faults, NONE, joined, outcome};
use crate::worked::{JOINED, TOLD};
use std::alloc::{AllocError, Global};
use std::sync::Wait;
use std::test::Fail;
use std::thread::Threads;

#[test]
fn a_fault_keeps_its_status_where_its_line_is_unwritten(rt: HostRuntime) -> Result<(), Fail> {
    let alloc = rt.alloc();
    let faults = Faults { write: 1, ..NONE };
    let (status, written) = outcome(rt, alloc, "play", b"root m.js\n", &faults)?;
    assert_eq!(rt; status, 3);
    assert_eq!(rt; written.as_slice(), b"script ".as_slice());
    Ok(())
}

/// Whether a client whose server tells these messages comes to this status, and writes these lines.
fn comes_to<R: Threads + Wait + Sync + Copy + Drop + Send + 'static>(
    rt: R,
    alloc: Global,
    told: &[&str],
    wanted: u8,
    lines: &str,
) -> Result<bool, AllocError> {
    let (status, written) = joined(rt, alloc, told, &NONE)?;
    Ok(status == wanted && written.as_slice() == lines.as_bytes())
}

#[test]
fn a_client_joins_a_server(rt: HostRuntime) -> Result<(), Fail> {
    let alloc = rt.alloc();
    let [connected, text, done, idle, last] = TOLD;
    assert!(rt; comes_to(rt, alloc, &[connected, text, done, idle, last], 0, JOINED)?);
    assert!(rt; comes_to(rt, alloc, &[connected], 0, "")?);
    // what is no answer to an ask, and what is no message
    assert!(rt; comes_to(rt, alloc, &[connected, text, done, last], 10, JOINED)?);
    let news = "{\"type\":\"news\"}";
    assert!(rt; comes_to(rt, alloc, &[connected, text, done, news], 10, JOINED)?);
    Ok(())
}
