// A share of a listener.
ghost use Rattle.std.specs.Prelude.{◌≡◌, ◌≤◌, None, false, true};
ghost use Rattle.hmr_base.specs.Causes.{Rose};
ghost use Rattle.hmr_base.specs.declared.out_fault.OutFault.{OutFault};

use crate::tcp_visitor::TcpVisitor;
use doors::{Door, OutFault};
use std::alloc::Global;
use std::net::{OpenListener, OpenStream};
use std::random::RandomSource;
use std::sync::atomic::{AtomicBool, Ordering};
use std::sync::{Arc, Wait};
use std::time::{Clock, Duration};
use std::{io, thread};

/// How long a read waits for bytes, in milliseconds.
const READ_MILLIS: u64 = 500;

/// How long a write waits until the other end takes bytes, in milliseconds.
const WRITE_MILLIS: u64 = 5000;

/// How long one rests to whom an end was refused, in milliseconds.
const PAUSE_MILLIS: u64 = 100;

/// A door of a [`TcpEntrance`](crate::TcpEntrance). It tells nothing of what is to come.
#[derive(Drop)]
pub struct TcpDoor<R: std::net::Net + Drop> {
    rt: R,
    listener: R::Listener,
    shut: Arc<AtomicBool, Global>,
    faults: u64,
    visits: u64,
    out: bool,
    ended: bool,
}

impl<R: std::net::Net + Drop> TcpDoor<R> {
    /// A door at a listener. The flag says whether the doors are shut.
    pub(crate) fn new(rt: R, listener: R::Listener, shut: Arc<AtomicBool, Global>) -> Self
        ensures faults { result.faults ≡ 0 }
        ensures visits { result.visits ≡ 0 }
        ensures none { (result.out ≡ false) × (result.ended ≡ false) }
    {
        TcpDoor {
            rt,
            listener,
            shut,
            faults: 0,
            visits: 0,
            out: false,
            ended: false,
        }
    }

    /// How often it, or an end that it took back, has failed, up to the largest `u64`.
    pub fn faults(&self) -> u64
        ensures { result ≡ self.now.faults }
    {
        self.faults
    }

    fn is_shut(&self) -> bool {
        self.shut.load(Ordering::SeqCst)
    }

    // Counts a failure.
    fn fail(&mut self) -> OutFault
        ensures failed { result ≡ OutFault.Failed }
        ensures later { self.old.faults ≤ self.new.faults }
        ensures rose { Rose self.old.faults self.new.faults }
        ensures visits { self.new.visits ≡ self.old.visits }
        ensures same { (self.new.out ≡ self.old.out) × (self.new.ended ≡ self.old.ended) }
    {
        self.faults = self.faults.saturating_add(1);
        OutFault::Failed
    }
}

// Sets a stream up for small messages that come at once, and for waits that end.
fn set_up<S: OpenStream>(stream: &S) -> io::Result<()> {
    stream.set_nodelay(true)?;
    stream.set_read_timeout(Some(Duration::from_millis(READ_MILLIS)))?;
    stream.set_write_timeout(Some(Duration::from_millis(WRITE_MILLIS)))
}

impl<R: std::net::Net + RandomSource + Clock + Wait + Copy + Drop> Door for TcpDoor<R> {
    type End = TcpVisitor<R::Stream, R>;

    ghost faults = { λ door. door.faults };

    ghost is_shut = { λ door. door.ended };

    ghost is_out = { λ door. door.out };

    ghost visits = { λ door. door.visits };

    ghost coming = { λ _. None };

    fn accept(&mut self, alloc: Global) -> Result<Option<TcpVisitor<R::Stream, R>>, OutFault> {
        if self.is_shut() {
            self.ended = true;
            return Ok(None);
        }
        let accepted = self.listener.accept();
        if self.is_shut() {
            self.ended = true;
            return Ok(None);
        }
        let Ok((stream, _)) = accepted else {
            return Err(self.fail());
        };
        if set_up(&stream).is_err() {
            return Err(self.fail());
        }
        let shut = Arc::try_clone(&self.shut)?;
        self.visits = self.visits.saturating_add(1);
        self.out = true;
        Ok(Some(TcpVisitor::new(alloc, self.rt, stream, shut)))
    }

    fn pause(&self) {
        thread::sleep(&self.rt, Duration::from_millis(PAUSE_MILLIS));
    }

    fn retire(&mut self, end: TcpVisitor<R::Stream, R>) {
        self.out = false;
        if end.faults() > 0 {
            self.fail();
        }
    }
}
