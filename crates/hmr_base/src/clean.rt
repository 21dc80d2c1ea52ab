// A source and a sink that never fail: their count of faults is always 0. The source tells its
// bytes. The sink keeps none, since keeping them could run out of memory, and so tells none.
ghost use Rattle.std.specs.Prelude.{◌≡◌, ◌≤◌, Some, None, drop, vec_len};

use crate::{Failed, Sink, Source};

/// A source of bytes in memory that never fails.
#[derive(Drop)]
pub struct CleanSource {
    bytes: Vec<u8>,
    at: usize,
    ghost within: { at ≤ vec_len bytes },
}

impl CleanSource {
    ghost use Rattle.hmr_base.specs.Memory.{clean_left};

    /// A source of these bytes.
    pub fn new(bytes: Vec<u8>) -> Self
        ensures { clean_left result ≡ bytes.items }
    {
        CleanSource { bytes, at: 0 }
    }
}

impl Source for CleanSource {
    ghost left = { λ s. Some (drop s.at s.bytes.items) };

    ghost faults = { λ _. 0 };

    ghost plan = { λ _. None };

    ghost most = { λ _. None };

    fn read(&mut self, into: &mut [u8]) -> Result<usize, Failed> {
        let rest = &self.bytes[self.at..];
        let count = rest.len().min(into.len());
        let (front, _) = rest.split_at(count);
        into[..count].copy_from_slice(front);
        self.at += count;
        Ok(count)
    }
}

/// A sink that never fails. It keeps no byte and counts those it was given, up to the largest `u64`.
#[derive(Drop)]
pub struct CleanSink {
    /// How many bytes were written.
    pub count: u64,
}

impl CleanSink {
    /// A sink that was given nothing.
    pub fn new() -> Self
        ensures { result.count ≡ 0 }
    {
        CleanSink { count: 0 }
    }
}

impl Sink for CleanSink {
    ghost written = { λ _. None };

    ghost faults = { λ _. 0 };

    ghost plan = { λ _. None };

    ghost most = { λ _. None };

    ghost taken = { λ s. Some s.count };

    ghost room = { λ _. None };

    fn write(&mut self, piece: &[u8]) -> Result<usize, Failed> {
        self.count = self.count.saturating_add(piece.len() as u64);
        Ok(piece.len())
    }
}
