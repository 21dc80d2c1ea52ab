// A net of WebSockets over TCP, on this machine alone: it listens and connects at 127.0.0.1.
ghost use Rattle.std.specs.Prelude.{◌≡◌, ◌≢◌, ◌≤◌, ◌-◌, Option, Some, None};
ghost use Rattle.std.specs.Prelude.{false, IfErr, IfOk, IsSome, OnErr, OnOk};
ghost use Rattle.hmr_base.specs.Causes.{Rose};
ghost use Rattle.transport.specs.declared.link.Phase.{Phase};
ghost use Rattle.hmr_base.specs.declared.out_fault.OutFault.{OutFault};
ghost use Rattle.transport.specs.declared.net.Asked.{Asked};
ghost use Rattle.transport.specs.Lending.{HasGiven, HasRefused};
ghost use Rattle.transport.specs.Told.{told_none, told_of};

use crate::ws_link::WsLink;
use std::alloc::Global;
use std::net::{IpAddr, Ipv4Addr, OpenListener, SocketAddr, TcpListener, TcpStream};
use std::random::RandomSource;
use std::sync::Wait;
use std::time::Clock;
use transport::{Asked, Net, OutFault};

/// A net whose ends are WebSockets over TCP on this machine. It tells no messages.
#[derive(Drop)]
pub struct TcpNet<R: std::net::Net + Drop> {
    rt: R,
    listener: Option<R::Listener>,
    asked: Option<Asked>,
    heard: Option<u16>,
    faults: u64,
    lent: u64,
    refused: bool,
    late: bool,
}

impl<R: std::net::Net + RandomSource + Clock + Wait + Copy + Drop> TcpNet<R> {
    /// A net that was asked nothing.
    pub fn new(rt: R) -> Self
        ensures unasked { (result.asked ≡ None) × (result.heard ≡ None) }
        ensures faults { result.faults ≡ 0 }
        ensures none { (result.lent ≡ 0) × (result.refused ≡ false) × (result.late ≡ false) }
    {
        TcpNet {
            rt,
            listener: None,
            asked: None,
            heard: None,
            faults: 0,
            lent: 0,
            refused: false,
            late: false,
        }
    }

    // Counts a failure.
    fn fail(&mut self) -> OutFault
        ensures failed { result ≡ OutFault.Failed }
        ensures asked { self.new.asked ≡ self.old.asked }
        ensures heard { self.new.heard ≡ self.old.heard }
        ensures later { self.old.faults ≤ self.new.faults }
        ensures rose { Rose self.old.faults self.new.faults }
        ensures lent { self.new.lent ≡ self.old.lent }
        ensures refused { (self.new.refused ≡ self.old.refused) × (self.new.late ≡ self.old.late) }
    {
        self.faults = self.faults.saturating_add(1);
        OutFault::Failed
    }

    // Counts a failure, by which an end is refused.
    fn refuse(&mut self) -> OutFault
        ensures failed { result ≡ OutFault.Failed }
        ensures kept { HasRefused self.old.lent self.new.lent self.new.refused self.old.late self.new.late }
        ensures asked { self.new.asked ≡ self.old.asked }
        ensures heard { self.new.heard ≡ self.old.heard }
        ensures later { self.old.faults ≤ self.new.faults }
        ensures rose { Rose self.old.faults self.new.faults }
    {
        self.refused = true;
        self.fail()
    }

    // Counts an end that is given now, and says whether it could be counted; else it is refused.
    fn count(&mut self) -> Result<(), OutFault>
        ensures gave { OnOk result (HasGiven self.old.lent self.new.lent
            self.old.refused self.new.refused self.old.late self.new.late) }
        ensures kept { OnErr result (HasRefused self.old.lent self.new.lent
            self.new.refused self.old.late self.new.late) }
        ensures only { IfErr result (λ fault. fault ≡ OutFault.NoMemory) }
        ensures asked { self.new.asked ≡ self.old.asked }
        ensures heard { self.new.heard ≡ self.old.heard }
        ensures faults { self.new.faults ≡ self.old.faults }
    {
        if self.lent == u64::MAX {
            self.refused = true;
            return Err(OutFault::NoMemory);
        }
        self.lent += 1;
        self.late = self.late || self.refused;
        Ok(())
    }
}

// The address of a port of this machine.
fn address(port: u16) -> SocketAddr {
    SocketAddr::new(IpAddr::V4(Ipv4Addr::LOCALHOST), port)
}

impl<R: std::net::Net + RandomSource + Clock + Wait + Copy + Drop> Net for TcpNet<R> {
    type End = WsLink<R::Stream, R>;

    ghost faults = { λ net. net.faults };

    ghost lent = { λ net. net.lent };

    ghost refused = { λ net. net.refused };

    ghost late = { λ net. net.late };

    ghost asked = { λ net. net.asked };

    ghost heard = { λ net. net.heard };

    ghost coming = { λ _. None };

    ghost unread = { λ _. None };

    ghost spoken = { λ _. None };

    ghost plan = { λ _. None };

    ghost ends = { λ _. None };

    fn listen(&mut self, _alloc: Global, port: u16) -> Result<u16, OutFault> {
        self.asked = Some(Asked::Listen(port));
        let Ok(listener) = TcpListener::bind(&self.rt, address(port)) else {
            return Err(self.fail());
        };
        let Ok(address) = listener.local_addr() else {
            return Err(self.fail());
        };
        let heard = address.port();
        self.listener = Some(listener);
        self.heard = Some(heard);
        Ok(heard)
    }

    fn accept(&mut self, _alloc: Global) -> Result<WsLink<R::Stream, R>, OutFault> {
        let Some(listener) = &self.listener else {
            return Err(self.refuse());
        };
        let Ok((stream, _)) = listener.accept() else {
            return Err(self.refuse());
        };
        self.count()?;
        Ok(WsLink::server(self.rt, stream))
    }

    fn connect(&mut self, _alloc: Global, port: u16) -> Result<WsLink<R::Stream, R>, OutFault> {
        if self.asked.is_none() {
            self.asked = Some(Asked::Connect(port));
        }
        let Ok(stream) = TcpStream::connect(&self.rt, address(port)) else {
            return Err(self.refuse());
        };
        self.count()?;
        Ok(WsLink::client(self.rt, stream))
    }

    fn retire(&mut self, end: WsLink<R::Stream, R>) {
        self.lent = self.lent.saturating_sub(1);
        if end.faults() > 0 {
            self.fail();
        }
    }
}
