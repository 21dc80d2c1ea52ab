// Messages between two threads, and what an end in memory tells.
ghost use Rattle.std.specs.Prelude.{◌≡◌, None};

use crate::{ask, receive, send_all, serve};
use std::alloc::Global;
use std::collections::VecDeque;
use std::test::Fail;
use std::thread;
use transport::{Link, MemNet, Net, OutFault, TellNet};

/// Two connections, of which the server closes the first and the client the second: what the server
/// received of each.
fn serve_two<N: Net>(alloc: Global, net: &mut N) -> Result<(Vec<u8>, Vec<u8>), OutFault>
    requires unasked { N.asked net.old ≡ None }
{
    net.listen(alloc, 0)?;
    let first = serve(alloc, net, 2, &[b"three", b"four"])?;
    let second = serve(alloc, net, 9, &[])?;
    Ok((first, second))
}

/// The client's side of the two connections: what it received of each.
fn ask_two<N: Net>(
    alloc: Global,
    one: &mut N,
    other: &mut N,
) -> Result<(Vec<u8>, Vec<u8>), OutFault>
    requires one { (N.asked one.old ≡ None) × (N.heard one.old ≡ None) }
    requires other { (N.asked other.old ≡ None) × (N.heard other.old ≡ None) }
{
    let first = ask(alloc, one, 5173, &[b"one", b"two"], 9)?;
    let second = ask(alloc, other, 5173, &[b"five"], 0)?;
    Ok((first, second))
}

#[test]
fn two_threads_are_told_what_was_sent_in_order(rt: HostRuntime) -> Result<(), Fail> {
    let alloc = rt.alloc();
    let mut net = MemNet::new(alloc, rt, Vec::new(alloc), VecDeque::new(alloc))?;
    let mut one = net.beside(Vec::new(alloc), VecDeque::new(alloc))?;
    let mut other = net.beside(Vec::new(alloc), VecDeque::new(alloc))?;
    let (served, asked) = thread::join(
        &rt,
        || serve_two(alloc, &mut net),
        || ask_two(alloc, &mut one, &mut other),
    );
    let (by_client, by_client_later) = served?;
    assert_eq!(rt; by_client.as_slice(), b"one,two,".as_slice());
    assert_eq!(rt; by_client_later.as_slice(), b"five,.".as_slice());
    let (by_server, by_server_later) = asked?;
    assert_eq!(rt; by_server.as_slice(), b"three,four,.".as_slice());
    assert_eq!(rt; by_server_later.len(), 0);
    Ok(())
}

#[test]
fn an_end_tells_what_was_sent(rt: HostRuntime) -> Result<(), Fail> {
    let alloc = rt.alloc();
    let mut coming = VecDeque::new(alloc);
    coming.push_back(Vec::from_slice(alloc, b"a")?)?;
    coming.push_back(Vec::from_slice(alloc, b"b")?)?;
    let mut net = TellNet::new(rt, coming, Vec::new(alloc), VecDeque::new(alloc));
    let mut end = net.connect(alloc, 5173)?;
    end.open(alloc)?;
    send_all(alloc, &mut end, &[b"x", b"yz"])?;
    assert_eq!(rt;
        receive(alloc, &mut end, 9)?.as_slice(),
        b"a,b,.".as_slice()
    );
    let mut text = vec![in alloc; b'#'; 16_777_217]?;
    assert!(rt; end.send(alloc, &text) == Err(OutFault::Failed));
    assert_eq!(rt; end.sent().len(), 2);
    text.truncate(16_777_216);
    assert!(rt; end.send(alloc, &text).is_ok());
    let [x, yz, long] = end.sent() else {
        panic!(rt; "not three messages")
    };
    assert!(rt; x.as_slice() == b"x".as_slice() && yz.as_slice() == b"yz".as_slice());
    assert_eq!(rt; long.len(), 16_777_216);
    assert_eq!(rt; end.faults(), 1);
    Ok(())
}

#[test]
fn the_first_end_accepted_receives_what_was_handed_in(rt: HostRuntime) -> Result<(), Fail> {
    let alloc = rt.alloc();
    let mut coming = VecDeque::new(alloc);
    coming.push_back(Vec::from_slice(alloc, b"a")?)?;
    let mut net = TellNet::new(rt, coming, Vec::new(alloc), VecDeque::new(alloc));
    net.listen(alloc, 0)?;
    let first = serve(alloc, &mut net, 9, &[])?;
    assert_eq!(rt; first.as_slice(), b"a,.".as_slice());
    let second = serve(alloc, &mut net, 9, &[])?;
    assert_eq!(rt; second.as_slice(), b".".as_slice());
    Ok(())
}

#[test]
fn listening_answers_the_port_that_was_asked_for(rt: HostRuntime) -> Result<(), Fail> {
    let alloc = rt.alloc();
    for (asked, heard) in [(80, 80), (0, 5173)] {
        let mut net = TellNet::new(
            rt,
            VecDeque::new(alloc),
            Vec::new(alloc),
            VecDeque::new(alloc),
        );
        let port = net.listen(alloc, asked)?;
        assert_eq!(rt; port, heard);
    }
    Ok(())
}
