// The port of a server: the one that is wanted, or the next free one; and the same again for a further server.
ghost use Rattle.std.specs.Prelude.{◌≡◌};

use doors::Entrance;
use std::alloc::Global;
use std::sync::Wait;
use std::thread::Parker;
use std::time::Duration;

/// How many ports are tried behind the first.
const TRIES: u16 = 100;

/// How often a port is tried again that the server before had.
const AGAIN: u32 = 50;

/// How long one rests in between, in milliseconds.
const REST_MILLIS: u64 = 100;

/// Listens at the port that the server before had, and where there was none at the one that is wanted, or
/// where that is taken and may be another, at the next free one of the hundred behind it; answers which it
/// is, None where all are taken. Where the server before had one it waits, for five seconds at most.
pub fn listen_next<R: Wait, E: Entrance>(
    rt: &R,
    alloc: Global,
    entrance: &mut E,
    wanted: u16,
    is_strict: bool,
    before: Option<u16>,
) -> Option<u16>
    ensures is_shut { E.is_shut entrance.new ≡ E.is_shut entrance.old }
{
    match before {
        None => listen(alloc, entrance, wanted, is_strict),
        Some(port) => listen_again(rt, alloc, entrance, port),
    }
}

// Listens at the port that is wanted, or at the next free one.
fn listen<E: Entrance>(alloc: Global, entrance: &mut E, port: u16, is_strict: bool) -> Option<u16>
    ensures is_shut { E.is_shut entrance.new ≡ E.is_shut entrance.old }
{
    if let Ok(found) = entrance.listen(alloc, port) {
        return Some(found);
    }
    if is_strict || port == 0 {
        return None;
    }
    listen_behind(alloc, entrance, port)
}

fn listen_behind<E: Entrance>(alloc: Global, entrance: &mut E, port: u16) -> Option<u16>
    ensures is_shut { E.is_shut entrance.new ≡ E.is_shut entrance.old }
{
    for step in 0..TRIES {
        let next = port.checked_add(step)?.checked_add(1)?;
        if let Ok(found) = entrance.listen(alloc, next) {
            return Some(found);
        }
    }
    None
}

// Listens at the port that the server before had. The system may take some time until it is free: it is tried
// for five seconds. None where it is then taken.
fn listen_again<R: Wait, E: Entrance>(
    rt: &R,
    alloc: Global,
    entrance: &mut E,
    port: u16,
) -> Option<u16>
    ensures is_shut { E.is_shut entrance.new ≡ E.is_shut entrance.old }
{
    let parker = Parker::new();
    for _ in 0..AGAIN {
        if let Ok(found) = entrance.listen(alloc, port) {
            return Some(found);
        }
        parker.park_timeout(rt, Duration::from_millis(REST_MILLIS));
    }
    None
}
