// What threads wait at for a change of a hub.
use std::alloc::{AllocError, Global};
use std::sync::atomic::{AtomicBool, AtomicU64, Ordering};
use std::sync::{Arc, Wait};
use std::time::Duration;

/// The longest wait, in seconds.
const SECONDS: u32 = 25;

/// How long it must be still before a wait ends, in milliseconds, so that many changes at once are one.
const STILL_MILLIS: u64 = 10;

/// How often it is looked at for that: who waits is not held up for longer by changes that go on.
const LOOKS: u32 = 50;

/// How often it is looked at whether what there is at the start is there.
const OPENING_LOOKS: u32 = 1000;

/// A counter that rises with each change. Threads share it by reference.
#[derive(Drop)]
pub struct Bell {
    count: AtomicU64,
    results: AtomicU64,
    jobs: AtomicU64,
    claims: AtomicU64,
    opened: AtomicBool,
    closed: AtomicBool,
    full: AtomicBool,
}

impl Bell {
    /// A bell that hasn't rung, which threads share. `AllocError` where memory ran out.
    pub fn new(alloc: Global) -> Result<Arc<Bell, Global>, AllocError> {
        Ok(Arc::new(
            alloc,
            Bell {
                count: AtomicU64::new(0),
                results: AtomicU64::new(0),
                jobs: AtomicU64::new(0),
                claims: AtomicU64::new(0),
                opened: AtomicBool::new(false),
                closed: AtomicBool::new(false),
                full: AtomicBool::new(false),
            },
        )?)
    }

    /// How often it has rung.
    pub fn count(&self) -> u64 {
        self.count.load(Ordering::SeqCst)
    }

    /// Something changed: whoever waits goes on.
    pub fn ring(&self) {
        self.count.fetch_add(1, Ordering::SeqCst);
        self.count.wake_all();
    }

    /// A worker has told a result: it is counted, and rung for.
    pub fn note_result(&self) {
        self.results.fetch_add(1, Ordering::SeqCst);
        self.ring();
    }

    /// How many results workers have told.
    pub fn results(&self) -> u64 {
        self.results.load(Ordering::SeqCst)
    }

    /// A job was put for the workers: one of those that wait for it goes on.
    pub fn note_job(&self) {
        self.jobs.fetch_add(1, Ordering::SeqCst);
        self.jobs.wake_all();
    }

    /// Waits until there is a job for one more worker, or no more come: each call has one job of its own, so
    /// that who takes one after it finds it there.
    pub fn wait_for_job<R: Wait>(&self, rt: &R) {
        let claimed = self.claims.fetch_add(1, Ordering::SeqCst);
        for _ in rt.forever() {
            let jobs = self.jobs.load(Ordering::SeqCst);
            if jobs > claimed || self.is_closed() {
                return;
            }
            self.jobs
                .park_timeout(rt, low_bits(jobs), Duration::from_secs(1));
        }
    }

    /// What there is at the start is there: whoever waits for that goes on.
    pub fn open(&self) {
        self.opened.store(true, Ordering::SeqCst);
        self.ring();
    }

    /// Waits until what there is at the start is there, for 10 seconds at most.
    pub fn wait_till_open<R: Wait>(&self, rt: &R) {
        for _ in 0..OPENING_LOOKS {
            if self.opened.load(Ordering::SeqCst) || self.is_closed() {
                return;
            }
            self.count.park_timeout(
                rt,
                low_bits(self.count()),
                Duration::from_millis(STILL_MILLIS),
            );
        }
    }

    /// Notes whether the hub answered that its transcript is full; it stays noted.
    pub fn note_full(&self, full: bool) {
        if full {
            self.full.store(true, Ordering::SeqCst);
        }
    }

    /// Whether the hub answered so.
    pub fn is_full(&self) -> bool {
        self.full.load(Ordering::SeqCst)
    }

    /// No more changes come: whoever waits goes on, and nobody waits from now on.
    pub fn close(&self) {
        self.closed.store(true, Ordering::SeqCst);
        self.ring();
        self.jobs.wake_all();
    }

    /// Whether no more changes come.
    pub fn is_closed(&self) -> bool {
        self.closed.load(Ordering::SeqCst)
    }

    /// Waits until it has rung since it was counted so, and then was still for 10 milliseconds; for 25
    /// seconds, and half a second more, at most. It returns at once where it is closed.
    pub fn wait<R: Wait>(&self, rt: &R, seen: u64) {
        for _ in 0..SECONDS {
            if self.count() != seen || self.is_closed() {
                self.wait_till_still(rt);
                return;
            }
            self.count
                .park_timeout(rt, low_bits(seen), Duration::from_secs(1));
        }
    }

    // Waits until it didn't ring for a while.
    fn wait_till_still<R: Wait>(&self, rt: &R) {
        let mut last = self.count();
        for _ in 0..LOOKS {
            if self.is_closed() {
                return;
            }
            self.count
                .park_timeout(rt, low_bits(last), Duration::from_millis(STILL_MILLIS));
            let now = self.count();
            if now == last {
                return;
            }
            last = now;
        }
    }
}

// The bits that a thread sleeps on.
fn low_bits(count: u64) -> u32 {
    (count & 0xffff_ffff) as u32
}
