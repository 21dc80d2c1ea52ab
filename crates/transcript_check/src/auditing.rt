// The check of a record, over its lines.
ghost use Rattle.std.specs.Prelude.{◌≡◌, ◌≤◌, IfOk, length};
ghost use Rattle.play_script.specs.Script.{lines_from};
ghost use Rattle.record_laws.specs.Course as meant;
ghost use Rattle.record_laws.specs.Course.{at_end, line_taken, roots_alone, roots_fault, verdict_of};
ghost use Rattle.transcript_check.specs.Following.{IsAt, IsJudged, IsSomewhere, IsTaken};

use crate::course::{Course, take};
use crate::halt::{Halt, bad};
use crate::opening::new_core;
use hmr_types::ModName;
use play_script::first_line;
use record_laws::{Verdict, Why};
use record_text::{Refusal, read_line};
use std::alloc::{AllocError, Global};

/// Whether bytes are a sound record: its lines have their forms, its roots are good, its events have a place in
/// a transcript, each reply is what the core answers to the event behind those before it, and each client
/// that is said to be at rest is so there and has that table. [`Verdict::No`] has the first line that is
/// wrong, and why. No reply and no client at rest is believed: a core is told the events again. It goes over
/// the bytes once, without recursion on them; beside what that core keeps it takes memory for one event at a
/// time, and it holds no record.
pub fn audit(alloc: Global, bytes: &[u8]) -> Result<Verdict, AllocError>
    ensures { IfOk result (λ verdict. verdict ≡ verdict_of bytes.now) }
{
    match judge(alloc, bytes) {
        Ok(verdict) => Ok(verdict),
        Err(Halt::At(line, why)) => Ok(Verdict::No { line, why }),
        Err(Halt::NoMemory) => Err(AllocError),
    }
}

fn judge(alloc: Global, bytes: &[u8]) -> Result<Verdict, Halt>
    ensures { IsJudged result (verdict_of bytes.now) }
{
    let mut course = Course::InRoots(Vec::new(alloc));
    let mut passed: u64 = 0;
    let mut left = bytes;
    while let Some(first) = first_line(left) {
        passed += 1;
        course = take_line(alloc, course, passed, first.bytes, first.ended)?;
        left = first.below;
    }
    end(alloc, passed + 1, course)
}

fn take_line(
    alloc: Global,
    course: Course,
    number: u64,
    line: &[u8],
    ended: bool,
) -> Result<Course, Halt>
    requires somewhere { IsSomewhere course }
    ensures { (so_far : meant.Course) → IsAt so_far course
        → IsTaken result (line_taken number line.now ended so_far) }
{
    if !ended {
        return Err(bad(number));
    }
    match read_line(alloc, line) {
        Ok(said) => take(alloc, course, number, said),
        Err(Refusal::BadLine) => Err(bad(number)),
        Err(Refusal::NoMemory) => Err(Halt::NoMemory),
    }
}

/// No line is left; this is the number of the next.
fn end(alloc: Global, line: u64, course: Course) -> Result<Verdict, Halt>
    ensures { (so_far : meant.Course) → IsAt so_far course → IsJudged result (at_end line so_far) }
{
    match course {
        Course::InRoots(roots) => end_of_roots(alloc, line, roots),
        Course::Between(replay, _) => Ok(Verdict::Yes {
            steps: replay.steps,
            rests: replay.rests,
        }),
        Course::Within(_, _, _) => Err(bad(line)),
    }
}

fn end_of_roots(alloc: Global, line: u64, roots: Vec<ModName>) -> Result<Verdict, Halt>
    ensures { IsJudged result (roots_alone (roots_fault roots.items) line) }
{
    let _core = new_core(alloc, line, roots)?;
    Ok(Verdict::Yes { steps: 0, rests: 0 })
}
