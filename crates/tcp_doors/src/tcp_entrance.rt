// What listens at the loopback addresses. A door that waits is woken by a connection of the entrance's own.
ghost use Rattle.std.specs.Prelude.{◌≡◌, ◌≤◌, ◌<◌, ◌+◌, ◌^◌, false, true, IfOk};
ghost use Rattle.hmr_base.specs.Causes.{Rose};
ghost use Rattle.hmr_base.specs.declared.out_fault.OutFault.{OutFault};

use crate::tcp_door::TcpDoor;
use doors::{Door, Entrance, OutFault};
use std::alloc::{AllocError, Global};
use std::net::{IpAddr, Ipv4Addr, Ipv6Addr, OpenListener, SocketAddr, TcpListener, TcpStream};
use std::random::RandomSource;
use std::sync::atomic::{AtomicBool, Ordering};
use std::sync::{Arc, Wait};
use std::time::{Clock, Duration};

/// How long a connection that wakes a door may take, in milliseconds.
const WAKE_MILLIS: u64 = 1000;

/// An entrance over TCP, at 127.0.0.1 and, where there is one and its port is free, at ::1.
#[derive(Drop)]
pub struct TcpEntrance<R: std::net::Net + Drop> {
    rt: R,
    first: Option<R::Listener>,
    second: Option<R::Listener>,
    port: u16,
    shut: Arc<AtomicBool, Global>,
    given: u64,
    faults: u64,
    closed: bool,
}

impl<R: std::net::Net + Drop> TcpEntrance<R> {
    /// An entrance that doesn't listen yet. `AllocError` where memory ran out.
    pub fn new(alloc: Global, rt: R) -> Result<Self, AllocError>
        ensures none { IfOk result (λ e. (e.given ≡ 0) × (e.faults ≡ 0) × (e.closed ≡ false)) }
    {
        Ok(TcpEntrance {
            rt,
            first: None,
            second: None,
            port: 0,
            shut: Arc::new(alloc, AtomicBool::new(false))?,
            given: 0,
            faults: 0,
            closed: false,
        })
    }

    // Counts a failure.
    fn fail(&mut self) -> OutFault
        ensures failed { result ≡ OutFault.Failed }
        ensures later { self.old.faults ≤ self.new.faults }
        ensures rose { Rose self.old.faults self.new.faults }
        ensures same { (self.new.given ≡ self.old.given) × (self.new.closed ≡ self.old.closed) }
    {
        self.faults = self.faults.saturating_add(1);
        OutFault::Failed
    }

    // A share of the listener whose turn it is.
    fn share(&self) -> Option<R::Listener> {
        if self.given % 2 == 1
            && let Some(listener) = &self.second
        {
            return listener.try_clone().ok();
        }
        match &self.first {
            Some(listener) => listener.try_clone().ok(),
            None => None,
        }
    }

    // Makes a connection to each address, which wakes a door that waits there.
    fn knock(&self) {
        let wait = Duration::from_millis(WAKE_MILLIS);
        let _ = TcpStream::connect_timeout(&self.rt, &first_address(self.port), wait);
        if self.second.is_some() {
            let _ = TcpStream::connect_timeout(&self.rt, &second_address(self.port), wait);
        }
    }
}

fn first_address(port: u16) -> SocketAddr {
    SocketAddr::new(IpAddr::V4(Ipv4Addr::LOCALHOST), port)
}

fn second_address(port: u16) -> SocketAddr {
    SocketAddr::new(IpAddr::V6(Ipv6Addr::LOCALHOST), port)
}

impl<R: std::net::Net + RandomSource + Clock + Wait + Copy + Drop> Entrance for TcpEntrance<R> {
    type Door = TcpDoor<R>;

    ghost faults = { λ entrance. entrance.faults };

    ghost given = { λ entrance. entrance.given };

    ghost is_shut = { λ entrance. entrance.closed };

    fn listen(&mut self, _alloc: Global, port: u16) -> Result<u16, OutFault> {
        let Ok(listener) = TcpListener::bind(&self.rt, first_address(port)) else {
            return Err(self.fail());
        };
        let Ok(address) = listener.local_addr() else {
            return Err(self.fail());
        };
        self.port = address.port();
        self.first = Some(listener);
        self.second = TcpListener::bind(&self.rt, second_address(self.port)).ok();
        Ok(self.port)
    }

    fn addresses(&self) -> usize {
        if self.second.is_some() { 2 } else { 1 }
    }

    fn door(&mut self, _alloc: Global) -> Result<TcpDoor<R>, OutFault> {
        if self.given == u64::MAX {
            return Err(OutFault::NoMemory);
        }
        let Some(listener) = self.share() else {
            return Err(self.fail());
        };
        let shut = Arc::try_clone(&self.shut)?;
        self.given += 1;
        Ok(TcpDoor::new(self.rt, listener, shut))
    }

    fn shut(&mut self) {
        self.shut.store(true, Ordering::SeqCst);
        self.closed = true;
        for _ in 0..self.given {
            self.knock();
        }
    }

    fn take_back(&mut self, door: TcpDoor<R>) {
        self.given = self.given.saturating_sub(1);
        if door.faults() > 0 {
            self.fail();
        }
    }
}
