// The life of a worker.
ghost use Rattle.std.specs.Prelude.{◌≡◌, ◌+◌, ◌≤◌, ◌∷◌, [], OnErr, OnOk, false, length, true};
ghost use Rattle.hmr_types.specs.declared.limits.TheConstants.{MESSAGE_BYTES};
ghost use Rattle.transform_pool.specs.Boards.{full_after, told_more};
ghost use Rattle.transform_pool.specs.Working.{IsGated, Worked};

use crate::Board;
use hmr_types::Ver;
use jobs::Gate;
use std::alloc::Global;
use std::sync::Wait;
use transforms::Transformed;
use update_msgs::HubStop;

/// Takes jobs from a board that is not full and has not ended until it has ended, transforms each, passes
/// the gate with its version and posts the result. It answers how many it posted, up to the largest `u64`.
///
/// `TranscriptFull` comes exactly where a post answered so, `NoMemory` where one did or a text could not be
/// transformed; the results of all jobs that were taken before the last one were then posted. It waits.
pub fn work<R: Wait, B: Board, G: Gate>(
    rt: &R,
    alloc: Global,
    board: &mut B,
    gate: &G,
) -> Result<u64, HubStop>
    requires going { B.ended board.old ≡ false }
    requires room { B.full board.old ≡ false }
    ensures ended { OnOk result (B.ended board.new ≡ true) }
    ensures full { B.full board.new ≡ full_after false result }
    ensures worked { Worked
        (B.taken board.old) (B.taken board.new) (B.posted board.old) (B.posted board.new) result }
    ensures gated { IsGated (G.passed gate.now) (B.posted board.old) (B.posted board.new) }
    ensures stays { B.stays board.old board.new }
{
    let mut count = 0u64;
    for _ in rt.forever() {
        let Some(job) = board.take_job(rt) else {
            return Ok(count);
        };
        let ver = job.ver();
        let done = job.transformed(alloc)?;
        gate.pass(rt, ver);
        post_passed(rt, alloc, board, gate, done, ver)?;
        count = count.saturating_add(1);
    }
    unreachable!()
}

// Posts a result whose version has passed the gate.
fn post_passed<R: Wait, B: Board, G: Gate>(
    rt: &R,
    alloc: Global,
    board: &mut B,
    gate: &G,
    done: Transformed,
    ver: Ver,
) -> Result<(), HubStop>
    requires short { length done.name + length done.text ≤ MESSAGE_BYTES }
    requires passed { G.passed gate.now ver }
    ensures ended { B.ended board.new ≡ B.ended board.old }
    ensures full { B.full board.new ≡ full_after (B.full board.old) result }
    ensures taken { B.taken board.new ≡ B.taken board.old }
    ensures posted { OnOk result (B.posted board.new ≡ told_more (B.posted board.old) ((done, ver) ∷ [])) }
    ensures unposted { OnErr result (B.posted board.new ≡ B.posted board.old) }
    ensures stays { B.stays board.old board.new }
{
    let _passed = gate;
    board.post(rt, alloc, done, ver)
}
