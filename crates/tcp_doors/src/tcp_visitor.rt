// A visitor over a stream: HTTP first, and a WebSocket once it is opened.
ghost use Rattle.std.specs.Prelude.{◌≡◌, ◌≤◌, None, IfErr, IfOk};
ghost use Rattle.std.specs.Option.{ForSome};
ghost use Rattle.hmr_base.specs.Causes.{Rose};
ghost use Rattle.hmr_base.specs.declared.out_fault.OutFault.{OutFault};
ghost use Rattle.transport.specs.declared.link.Phase.{Phase};

use crate::http_stream::HttpStream;
use crate::patient_stream::PatientStream;
use doors::{Coming, OutFault, Visitor};
use std::alloc::Global;
use std::io::{Read, Write};
use std::mem;
use std::random::RandomSource;
use std::sync::atomic::AtomicBool;
use std::sync::{Arc, Wait};
use std::time::Clock;
use transport::{Link, Phase};
use ws_links::WsLink;

/// A visitor over a stream, whose reads end after half a second without bytes. It tells neither bytes nor
/// messages.
#[derive(Drop)]
pub struct TcpVisitor<S: Drop, R: Drop> {
    rt: R,
    http: Option<HttpStream<S, R>>,
    // The head that was taken last; empty where none was.
    last: Vec<u8>,
    link: Option<WsLink<PatientStream<S, R>, R>>,
    phase: Phase,
    faults: u64,
    ghost open: { ForSome link (λ l. l.phase ≡ Phase.Open) },
}

impl<S: Read + Write + Drop, R: RandomSource + Clock + Wait + Copy + Drop> TcpVisitor<S, R> {
    /// A fresh visitor over this stream. The flag says whether the doors are shut.
    pub fn new(alloc: Global, rt: R, stream: S, shut: Arc<AtomicBool, Global>) -> Self
        ensures fresh { result.phase ≡ Phase.Fresh }
        ensures faults { result.faults ≡ 0 }
    {
        TcpVisitor {
            rt,
            http: Some(HttpStream::new(alloc, rt, stream, shut)),
            last: Vec::new(alloc),
            link: None,
            phase: Phase::Fresh,
            faults: 0,
        }
    }

    /// How often it has failed, up to the largest `u64`.
    pub fn faults(&self) -> u64
        ensures { result ≡ self.now.faults }
    {
        self.faults
    }

    // Counts a refusal, unless memory ran out.
    fn count(&mut self, fault: OutFault) -> OutFault
        ensures fault { result ≡ fault }
        ensures phase { self.new.phase ≡ self.old.phase }
        ensures later { self.old.faults ≤ self.new.faults }
        ensures rose { fault ≡ OutFault.Failed → Rose self.old.faults self.new.faults }
    {
        if fault == OutFault::Failed {
            self.faults = self.faults.saturating_add(1);
        }
        fault
    }

    // Keeps a copy of a head that came, for an upgrade.
    fn keep(&mut self, alloc: Global, coming: Coming) -> Result<Coming, OutFault>
        ensures same { IfOk result (λ kept. kept ≡ coming) }
        ensures only { IfErr result (λ fault. fault ≡ OutFault.NoMemory) }
        ensures phase { self.new.phase ≡ self.old.phase }
        ensures faults { self.new.faults ≡ self.old.faults }
    {
        if let Coming::Head(head) = &coming {
            self.last = Vec::from_slice(alloc, head)?;
        }
        Ok(coming)
    }

    // The WebSocket that the last head asks for.
    fn upgrade(&mut self, alloc: Global) -> Result<WsLink<PatientStream<S, R>, R>, OutFault>
        ensures open { IfOk result (λ l. l.phase ≡ Phase.Open) }
        ensures same { (self.new.phase ≡ self.old.phase) × (self.new.faults ≡ self.old.faults) }
    {
        let head = mem::replace(&mut self.last, Vec::new(alloc));
        let Some(http) = self.http.take() else {
            return Err(OutFault::Failed);
        };
        if head.is_empty() {
            return Err(OutFault::Failed);
        }
        let stream = http.behind(head)?;
        let mut link = WsLink::server(self.rt, stream);
        link.open(alloc)?;
        Ok(link)
    }
}

impl<S: Read + Write + Drop, R: RandomSource + Clock + Wait + Copy + Drop> Link
    for TcpVisitor<S, R> {
    ghost phase = { λ visitor. visitor.phase };

    ghost faults = { λ visitor. visitor.faults };

    ghost left = { λ _. None };

    ghost sent = { λ _. None };

    ghost plan = { λ _. None };

    fn open(&mut self, alloc: Global) -> Result<(), OutFault> {
        match self.upgrade(alloc) {
            Ok(link) => {
                self.link = Some(link);
                self.phase = Phase::Open;
                Ok(())
            }
            Err(fault) => Err(self.count(fault)),
        }
    }

    fn send(&mut self, alloc: Global, message: &[u8]) -> Result<(), OutFault> {
        let sent = match &mut self.link {
            Some(link) => link.send(alloc, message),
            None => Err(OutFault::Failed),
        };
        match sent {
            Ok(()) => Ok(()),
            Err(fault) => Err(self.count(fault)),
        }
    }

    fn recv(&mut self, alloc: Global) -> Result<Option<Vec<u8>>, OutFault> {
        let got = match &mut self.link {
            Some(link) => link.recv(alloc),
            None => Err(OutFault::Failed),
        };
        match got {
            Ok(got) => Ok(got),
            Err(fault) => Err(self.count(fault)),
        }
    }

    fn pause(&self) {
        if let Some(link) = &self.link {
            link.pause();
        }
    }

    fn close(&mut self) {
        if let Some(mut link) = self.link.take() {
            link.close();
        }
        if let Some(mut http) = self.http.take() {
            http.linger();
        }
        self.phase = Phase::Shut;
    }
}

impl<S: Read + Write + Drop, R: RandomSource + Clock + Wait + Copy + Drop> Visitor
    for TcpVisitor<S, R> {
    ghost unread = { λ _. None };

    ghost written = { λ _. None };

    fn next_head(&mut self, alloc: Global) -> Result<Coming, OutFault> {
        let coming = match &mut self.http {
            Some(http) => http.next_head(alloc),
            None => Err(OutFault::Failed),
        };
        match coming {
            Ok(coming) => self.keep(alloc, coming),
            Err(fault) => Err(self.count(fault)),
        }
    }

    fn next_body(&mut self, alloc: Global, count: usize) -> Result<Option<Vec<u8>>, OutFault> {
        let body = match &mut self.http {
            Some(http) => http.next_body(alloc, count),
            None => Err(OutFault::Failed),
        };
        match body {
            Ok(body) => Ok(body),
            Err(fault) => Err(self.count(fault)),
        }
    }

    fn answer(&mut self, text: &[u8]) -> Result<(), OutFault> {
        let answered = match &mut self.http {
            Some(http) => http.answer(text),
            None => Err(OutFault::Failed),
        };
        match answered {
            Ok(()) => Ok(()),
            Err(fault) => Err(self.count(fault)),
        }
    }
}
