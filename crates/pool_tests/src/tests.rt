// What no clause says: that a worker gets on and ends behind the last job, and that a full queue is closed job
// by job. That each result is that of its job, at its place, is proved (`transform_pool::run_jobs`, `work`).
use crate::queue_board::{QueueBoard, next_version, put_all};
use hmr_types::{ModName, Outcome, Ver};
use jobs::OpenGate;
use std::alloc::{AllocError, Global};
use std::collections::VecDeque;
use std::sync::Arc;
use std::test::Fail;
use transform_pool::{JobQueue, MemBoard, TextJob, work};

/// The text of a version: a module that exports one name, or nonsense for every third version.
fn text_of(alloc: Global, ver: Ver) -> Result<String, AllocError> {
    if ver % 3 == 0 {
        format!(in alloc; "export let = {ver};")
    } else {
        format!(in alloc; "export let k = {ver};")
    }
}

/// The job of a version, by this text.
fn job(alloc: Global, ver: Ver) -> Result<TextJob, AllocError> {
    let name = format!(in alloc; "/m{ver}.js")?;
    let Ok(name) = ModName::read(alloc, name.as_bytes()) else {
        return Err(AllocError);
    };
    let text = text_of(alloc, ver)?.into_bytes();
    if name.as_str().len() + text.len() > 4096 {
        return Err(AllocError);
    }
    Ok(TextJob::new(name, text, ver))
}

fn jobs_to(alloc: Global, last: Ver) -> Result<VecDeque<TextJob>, AllocError> {
    let mut jobs = VecDeque::new(alloc);
    for ver in 1..last {
        if jobs.push_back(job(alloc, ver)?).is_err() {
            return Err(AllocError);
        }
    }
    Ok(jobs)
}

#[test]
fn a_board_is_worked_to_its_end(rt: HostRuntime) -> Result<(), Fail> {
    let alloc = rt.alloc();
    let mut board = MemBoard::new(alloc, jobs_to(alloc, 6)?);
    assert!(rt; work(&rt, alloc, &mut board, &OpenGate) == Ok(5));
    let mut next = 1u64;
    for (done, ver) in board.posted() {
        assert_eq!(rt; *ver, next);
        assert_eq!(rt; matches!(done.outcome(), Outcome::Good(_)), next % 3 != 0);
        next = next.saturating_add(1);
    }
    assert_eq!(rt; next, 6);
    Ok(())
}

#[test]
fn a_full_queue_gives_its_first_job_for_a_mark(rt: HostRuntime) -> Result<(), Fail> {
    let alloc = rt.alloc();
    let (queue, mut putter, mut passes) = JobQueue::new(alloc, 1)?;
    let queue = Arc::new(alloc, queue)?;
    let put = put_all(&rt, &queue, &mut putter, jobs_to(alloc, 71)?);
    assert_eq!(rt; put, 64);
    let Some(first) = queue.close(&rt, &mut putter) else {
        panic!(rt; "a full queue was closed at once")
    };
    assert_eq!(rt; first.ver(), 1);
    assert!(rt; queue.close(&rt, &mut putter).is_none());
    let Some(pass) = passes.pop() else {
        panic!(rt; "there is one pass")
    };
    let mut board = QueueBoard::new(alloc, queue, pass);
    assert!(rt; work(&rt, alloc, &mut board, &OpenGate) == Ok(63));
    let mut next = 2u64;
    for ver in board.posted() {
        assert_eq!(rt; *ver, next);
        next = next.saturating_add(1);
    }
    assert_eq!(rt; next, 65);
    Ok(())
}

#[test]
fn a_taker_ends_behind_the_last_job(rt: HostRuntime) -> Result<(), Fail> {
    let alloc = rt.alloc();
    let (queue, mut putter, mut passes) = JobQueue::new(alloc, 2)?;
    let queue = Arc::new(alloc, queue)?;
    let put = put_all(&rt, &queue, &mut putter, jobs_to(alloc, 3)?);
    assert_eq!(rt; put, 2);
    assert!(rt; queue.close(&rt, &mut putter).is_none());
    let (Some(mut first), Some(mut second)) = (passes.pop(), passes.pop()) else {
        panic!(rt; "there are two passes")
    };
    assert!(rt; next_version(&rt, &queue, &mut first) == Some(1));
    assert!(rt; next_version(&rt, &queue, &mut first) == Some(2));
    assert!(rt; next_version(&rt, &queue, &mut second).is_none());
    Ok(())
}
