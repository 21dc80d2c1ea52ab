// A list of jobs is transformed by several threads: it is halved, and the halves are transformed side by
// side, until each part has one thread.
ghost use Rattle.std.specs.Prelude.{◌≡◌, IfOk, map};
ghost use Rattle.std.specs.Thread.{IsSync};
ghost use Rattle.transform_pool.specs.Results.{result_of};

use crate::TextJob;
use std::alloc::{AllocError, Global};
use std::thread;
use std::thread::Threads;
use transforms::Transformed;

/// The results of the jobs, each at the place of its job, whatever the number of workers. At most so many
/// threads are used, the caller's among them; 0 counts as 1. Where a thread can't be made its part is done
/// by another. It takes the time of the jobs, shared among the threads, and memory in proportion to them.
#[cycle(halves)]
pub fn run_jobs<R: Threads + Sync>(
    rt: &R,
    alloc: Global,
    mut jobs: Vec<TextJob>,
    workers: usize,
) -> Result<Vec<Transformed>, AllocError>
    ensures { IfOk result (λ done. done.items ≡ map result_of jobs.items) }
{
    if workers < 2 || jobs.len() < 2 {
        return run_in_turn(alloc, jobs);
    }
    let few = workers / 2;
    let many = workers - few;
    let rest = jobs.split_off(jobs.len() / 2)?;
    let front = move || -> Result<Vec<Transformed>, AllocError>
        requires { IsSync R.row }
        ensures { IfOk result (λ done. done.items ≡ map result_of jobs.items) }
    { run_jobs(rt, alloc, jobs, few) };
    let back = move || -> Result<Vec<Transformed>, AllocError>
        requires { IsSync R.row }
        ensures { IfOk result (λ done. done.items ≡ map result_of rest.items) }
    { run_jobs(rt, alloc, rest, many) };
    let (first, second) = thread::join(rt, front, back);
    let mut done = first?;
    let mut more = second?;
    done.append(&mut more)?;
    Ok(done)
}

// One job after another.
fn run_in_turn(alloc: Global, jobs: Vec<TextJob>) -> Result<Vec<Transformed>, AllocError>
    ensures { IfOk result (λ done. done.items ≡ map result_of jobs.items) }
{
    let mut done = Vec::with_capacity(alloc, jobs.len())?;
    for job in jobs {
        done.push(job.transformed(alloc)?)?;
    }
    Ok(done)
}
