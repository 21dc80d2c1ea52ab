// A stream whose reads end after a short time without bytes, so that one who waits for bytes sees when the
// doors are shut. The bytes that were read ahead of it are given again: first those of a head, and what stood
// behind it by later reads, so that who reads a head of it reads no byte more.
ghost use Rattle.std.specs.Prelude.{◌≡◌, ◌≤◌, ◌<◌, ◌++◌, drop, take, vec_len, length, nat_lt, IfOk, false};
ghost use Rattle.std.specs.Io.{ReadsAtMost};
ghost use Rattle.std.specs.Io.KnownBytes.{ReadConsumes};

use std::alloc::{AllocError, Global};
use std::io;
use std::io::{ErrorKind, Read, Write};
use std::sync::atomic::{AtomicBool, Ordering};
use std::sync::{Arc, Wait};

/// A stream with the bytes that were read ahead of it. A read waits until there are bytes, the stream ends or
/// fails, or the doors are shut, which is a failure.
#[derive(Drop)]
pub struct PatientStream<S: Drop, R: Drop> {
    rt: R,
    stream: S,
    // The bytes that were read ahead; those before `at` were given, and no read passes `stop`.
    ahead: Vec<u8>,
    at: usize,
    stop: usize,
    shut: Arc<AtomicBool, Global>,
    ghost within: { at ≤ vec_len ahead },
    ghost stops: { stop ≤ vec_len ahead },
}

impl<S: Drop, R: Drop> PatientStream<S, R> {
    /// The stream, of which a head and then the rest were read ahead. The flag says whether the doors are
    /// shut.
    pub fn behind(
        rt: R,
        stream: S,
        head: Vec<u8>,
        rest: &[u8],
        shut: Arc<AtomicBool, Global>,
    ) -> Result<Self, AllocError>
        ensures stream { IfOk result (λ s. s.stream ≡ stream) }
        ensures ahead { IfOk result (λ s. s.ahead.items ≡ head.items ++ rest.now) }
        ensures none { IfOk result (λ s. s.at ≡ 0) }
        ensures head { IfOk result (λ s. s.stop ≡ length head.items) }
    {
        let stop = head.len();
        let mut ahead = head;
        ahead.extend_from_slice(rest)?;
        Ok(PatientStream {
            rt,
            stream,
            ahead,
            at: 0,
            stop,
            shut,
        })
    }

    // Whether the doors are shut.
    fn is_shut(&self) -> bool {
        self.shut.load(Ordering::SeqCst)
    }
}

impl<S: Read + Drop, R: Wait + Copy + Drop> PatientStream<S, R> {
    // Reads of the stream itself, again after each wait without bytes. Once the doors are shut no more is
    // read, also where bytes are there: one who sends without end is left all the same.
    #[tactic(auto, using(crate::proofs::Waits::waited, crate::proofs::Waits::keeps_same, crate::proofs::Waits::keeps_on, crate::proofs::Waits::reads_on))]
    pub(crate) fn read_on(&mut self, buf: &mut [u8]) -> io::Result<usize>
        ensures bound { ReadsAtMost result buf.new }
        ensures bytes { ReadConsumes (S.remaining self.old.stream) (S.remaining self.new.stream) result buf.new }
        ensures ahead { (self.new.ahead ≡ self.old.ahead) × (self.new.at ≡ self.old.at) }
    {
        let rt = self.rt;
        for _ in rt.forever() {
            if self.is_shut() {
                return Err(io::Error::from(ErrorKind::ConnectionAborted));
            }
            let got = self.stream.read(buf);
            if !waits(&got) {
                return got;
            }
        }
        unreachable!()
    }

    // Whether there are bytes that were read ahead.
    pub(crate) fn has_ahead(&self) -> bool
        ensures { result ≡ nat_lt self.now.at (vec_len self.now.ahead) }
    {
        self.at < self.ahead.len()
    }

    // Gives bytes that were read ahead.
    #[tactic(auto, using(crate::proofs::Ahead::given_front))]
    pub(crate) fn give(&mut self, buf: &mut [u8]) -> usize
        ensures bound { result ≤ length buf.new }
        ensures stream { self.new.stream ≡ self.old.stream }
        ensures some { 0 < length buf.new → self.old.at < vec_len self.old.ahead → 0 < result }
        ensures given { drop self.old.at self.old.ahead.items
            ≡ take result buf.new ++ drop self.new.at self.new.ahead.items }
    {
        let until = if self.at < self.stop {
            self.stop
        } else {
            self.ahead.len()
        };
        let count = copy_front(&self.ahead[self.at..until], buf);
        self.at += count;
        count
    }
}

// Copies as much of a piece as there is room for, and says how much.
fn copy_front(piece: &[u8], into: &mut [u8]) -> usize
    ensures piece { result ≤ length piece.now }
    ensures room { result ≤ length into.new }
    ensures same_room { length into.new ≡ length into.old }
    ensures some { 0 < length into.old → 0 < length piece.now → 0 < result }
    ensures copied { take result into.new ≡ take result piece.now }
{
    let count = piece.len().min(into.len());
    into[..count].copy_from_slice(&piece[..count]);
    count
}

/// Whether no byte came in time.
pub(crate) fn waits(got: &io::Result<usize>) -> bool
    ensures { IfOk got.now (λ _. result ≡ false) }
{
    match got {
        Ok(_count) => false,
        Err(error) => error.kind() == ErrorKind::WouldBlock,
    }
}

impl<S: Write + Drop, R: Drop> Write for PatientStream<S, R> {
    ghost contents = { λ s. S.contents s.stream };

    fn write(&mut self, buf: &[u8]) -> io::Result<usize> {
        self.stream.write(buf)
    }

    fn flush(&mut self) -> io::Result<()> {
        self.stream.flush()
    }
}
