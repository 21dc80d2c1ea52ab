// A sink in memory. Its room is set aside when it is made, so that a write takes none; beside its
// bytes it holds the numbers of the calls that are to fail.
ghost use Rattle.std.specs.Prelude.{◌≡◌, ◌≤◌, [], Some, IfOk, max, vec_len, vec_capacity};
ghost use Rattle.hmr_base.specs.Plans.{faults_of, fresh_plan, plan_of};

use crate::{Failed, FaultPlan, Sink};
use std::alloc::{AllocError, Global};

/// A sink that keeps its bytes in memory, whose calls fail where a test wants it.
#[derive(Drop)]
pub struct MemSink {
    bytes: Vec<u8>,
    room: usize,
    piece: usize,
    plan: FaultPlan,
    ghost within: { vec_len bytes ≤ room },
    ghost reserved: { room ≤ vec_capacity bytes },
}

impl MemSink {
    ghost use Rattle.hmr_base.specs.Memory.{taken_by, refusals_of, room_of};

    /// An empty sink with room for `room` bytes, which takes at most `piece` of them in a call (0
    /// counts as 1). The calls whose numbers, from 0, stand in `failing` fail, and so does each call
    /// whose prefix doesn't fit the room that is left. `AllocError` where the room can't be had.
    pub fn new(
        alloc: Global,
        room: usize,
        piece: usize,
        failing: Vec<u64>,
    ) -> Result<Self, AllocError>
        ensures taken { IfOk result (λ sink. taken_by sink ≡ []) }
        ensures faults { IfOk result (λ sink. refusals_of sink ≡ 0) }
        ensures room { IfOk result (λ sink. room_of sink ≡ room) }
        ensures piece { IfOk result (λ sink. sink.piece ≡ piece) }
        ensures plan { IfOk result (λ sink. plan_of sink.plan ≡ fresh_plan failing.items) }
    {
        Ok(MemSink {
            bytes: Vec::with_capacity(alloc, room)?,
            room,
            piece,
            plan: FaultPlan::new(failing),
        })
    }

    /// The bytes that were written so far.
    pub fn bytes(&self) -> &[u8]
        ensures { result.now ≡ taken_by self.now }
    {
        &self.bytes
    }
}

impl Sink for MemSink {
    ghost written = { λ s. Some s.bytes.items };

    ghost faults = { λ s. faults_of s.plan };

    ghost plan = { λ s. Some (plan_of s.plan) };

    ghost most = { λ s. Some (max s.piece 1) };

    ghost taken = { λ s. Some (vec_len s.bytes) };

    ghost room = { λ s. Some s.room };

    fn write(&mut self, piece: &[u8]) -> Result<usize, Failed> {
        self.plan.begin()?;
        let count = piece.len().min(self.piece.max(1));
        if count > self.room - self.bytes.len() {
            return Err(self.plan.fail());
        }
        let (front, _) = piece.split_at(count);
        match self.bytes.extend_from_slice(front) {
            Ok(()) => Ok(count),
            Err(_) => Err(self.plan.fail()),
        }
    }
}
