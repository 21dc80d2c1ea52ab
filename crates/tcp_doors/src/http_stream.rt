// A stream before it is opened as a WebSocket: heads and bodies are taken of it within a time, and answers
// written.
ghost use Rattle.std.specs.Prelude.{◌≡◌, ◌++◌, IfOk};
ghost use Rattle.tcp_doors.specs.OneHead.{IsOneBody, IsOneHead};

use crate::patient_stream::{PatientStream, waits};
use doors::{Coming, OutFault, take_body, take_front};
use http_heads::{Cut, find_head};
use std::alloc::{AllocError, Global};
use std::io::{Read, Write};
use std::sync::atomic::{AtomicBool, Ordering};
use std::sync::{Arc, Wait};
use std::time::{Clock, Instant};

/// How long a head, or a body, may take, in seconds, from the time at which it is asked for.
const HEAD_SECONDS: u64 = 5;

/// How long one who was answered for the last time may go on sending, in seconds.
const LINGER_SECONDS: u64 = 2;

/// How many bytes are asked of the stream at a time.
const PIECE: usize = 2048;

/// A stream, and what was read of it and not taken.
#[derive(Drop)]
pub(crate) struct HttpStream<S: Drop, R: Drop> {
    rt: R,
    stream: S,
    held: Vec<u8>,
    // Whether nothing more comes of the stream, or none is waited for.
    over: bool,
    shut: Arc<AtomicBool, Global>,
}

impl<S: Drop, R: Drop> HttpStream<S, R> {
    /// A stream of which nothing was read. The flag says whether the doors are shut.
    pub(crate) fn new(alloc: Global, rt: R, stream: S, shut: Arc<AtomicBool, Global>) -> Self {
        HttpStream {
            rt,
            stream,
            held: Vec::new(alloc),
            over: false,
            shut,
        }
    }

    /// The stream as it was before this head was taken of it.
    pub(crate) fn behind(self, head: Vec<u8>) -> Result<PatientStream<S, R>, AllocError>
        ensures stream { IfOk result (λ s. s.stream ≡ self.stream) }
        ensures ahead { IfOk result (λ s. s.ahead.items ≡ head.items ++ self.held.items) }
        ensures none { IfOk result (λ s. s.at ≡ 0) }
    {
        let HttpStream {
            rt,
            stream,
            held,
            over: _,
            shut,
        } = self;
        PatientStream::behind(rt, stream, head, &held, shut)
    }

    fn is_shut(&self) -> bool {
        self.shut.load(Ordering::SeqCst)
    }
}

impl<S: Read + Write + Drop, R: Wait + Clock + Copy + Drop> HttpStream<S, R> {
    /// The next head, where it comes whole within five seconds and before the doors are shut. It waits.
    pub(crate) fn next_head(&mut self, alloc: Global) -> Result<Coming, OutFault>
        ensures { IfOk result IsOneHead }
    {
        let rt = self.rt;
        let Ok(start) = Instant::now(&rt) else {
            return Err(OutFault::Failed);
        };
        for _ in rt.forever() {
            match find_head(&self.held, 0) {
                Cut::Head(end) => return Ok(Coming::Head(take_front(alloc, &mut self.held, end)?)),
                Cut::TooLong => return Ok(Coming::TooLong),
                Cut::Partial => {}
            }
            if self.is_shut() || is_late(&rt, start, HEAD_SECONDS) {
                self.over = true;
            } else {
                self.read_more()?;
            }
            if self.over {
                return Ok(Coming::Gone);
            }
        }
        unreachable!()
    }

    /// The next bytes, as many as this, where they come whole within five seconds and before the doors are
    /// shut. It waits.
    pub(crate) fn next_body(
        &mut self,
        alloc: Global,
        count: usize,
    ) -> Result<Option<Vec<u8>>, OutFault>
        ensures { IfOk result (IsOneBody count) }
    {
        let rt = self.rt;
        let Ok(start) = Instant::now(&rt) else {
            return Err(OutFault::Failed);
        };
        for _ in rt.forever() {
            if self.held.len() >= count {
                return Ok(take_body(alloc, &mut self.held, count)?);
            }
            if self.over || self.is_shut() || is_late(&rt, start, HEAD_SECONDS) {
                self.over = true;
                return Ok(None);
            }
            self.read_more()?;
        }
        unreachable!()
    }

    // Reads a piece, where one comes in time.
    fn read_more(&mut self) -> Result<(), OutFault> {
        let mut piece = [0; PIECE];
        let got = self.stream.read(&mut piece);
        if waits(&got) {
            return Ok(());
        }
        let Ok(count) = got else {
            self.over = true;
            return Err(OutFault::Failed);
        };
        self.over = count == 0;
        self.held.extend_from_slice(&piece[..count])?;
        Ok(())
    }

    /// Writes these bytes, whole.
    pub(crate) fn answer(&mut self, text: &[u8]) -> Result<(), OutFault> {
        match self.stream.write_all(text) {
            Ok(()) => Ok(()),
            Err(_) => {
                self.over = true;
                Err(OutFault::Failed)
            }
        }
    }

    /// Takes what the other end still sends, until it closes, sends nothing for the time of a read, or two
    /// seconds have passed. A stream that is closed with bytes unread can lose the last answer.
    pub(crate) fn linger(&mut self) {
        let rt = self.rt;
        let Ok(start) = Instant::now(&rt) else {
            return;
        };
        for _ in rt.forever() {
            if self.over || self.is_shut() || is_late(&rt, start, LINGER_SECONDS) {
                return;
            }
            self.pass_over();
        }
    }

    // Reads a piece that nobody wants.
    fn pass_over(&mut self) {
        let mut piece = [0; PIECE];
        self.over = match self.stream.read(&mut piece) {
            Ok(count) => count == 0,
            Err(_) => true,
        };
    }
}

// Whether so many seconds have passed since then. Where the clock fails, they have.
fn is_late(clock: &impl Clock, start: Instant, seconds: u64) -> bool {
    match start.elapsed(clock) {
        Ok(taken) => taken.as_secs() >= seconds,
        Err(_) => true,
    }
}
