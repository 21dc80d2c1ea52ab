// A source in memory. It holds its bytes, the place up to which they were read, and the numbers of
// the calls that are to fail, so that a test can break the input at any point.
ghost use Rattle.std.specs.Prelude.{◌≡◌, ◌≤◌, Some, drop, max, vec_len};
ghost use Rattle.hmr_base.specs.Plans.{faults_of, fresh_plan, plan_of};

use crate::{Failed, FaultPlan, Source};

/// A source of bytes in memory, whose calls fail where a test wants it.
#[derive(Drop)]
pub struct MemSource {
    bytes: Vec<u8>,
    at: usize,
    piece: usize,
    plan: FaultPlan,
    ghost within: { at ≤ vec_len bytes },
}

impl MemSource {
    ghost use Rattle.hmr_base.specs.Memory.{left_of, failures_of};

    /// A source of these bytes, which gives at most `piece` of them in a call (0 counts as 1). The
    /// calls whose numbers, from 0, stand in `failing` fail.
    pub fn new(bytes: Vec<u8>, piece: usize, failing: Vec<u64>) -> Self
        ensures left { left_of result ≡ bytes.items }
        ensures piece { result.piece ≡ piece }
        ensures plan { plan_of result.plan ≡ fresh_plan failing.items }
        ensures faults { failures_of result ≡ 0 }
    {
        MemSource {
            bytes,
            at: 0,
            piece,
            plan: FaultPlan::new(failing),
        }
    }
}

impl Source for MemSource {
    ghost left = { λ s. Some (drop s.at s.bytes.items) };

    ghost faults = { λ s. faults_of s.plan };

    ghost plan = { λ s. Some (plan_of s.plan) };

    ghost most = { λ s. Some (max s.piece 1) };

    fn read(&mut self, into: &mut [u8]) -> Result<usize, Failed> {
        self.plan.begin()?;
        let rest = &self.bytes[self.at..];
        let count = rest.len().min(into.len()).min(self.piece.max(1));
        let (front, _) = rest.split_at(count);
        into[..count].copy_from_slice(front);
        self.at += count;
        Ok(count)
    }
}
