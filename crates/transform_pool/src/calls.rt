// What is done with a queue: it is made, jobs are put into it and taken from it, and it is closed.
ghost use Rattle.std.specs.Prelude.{◌≡◌, ◌≤◌, ◌<◌, ◌++◌, ◌∷◌, []};
ghost use Rattle.std.specs.Prelude.{All, IfErr, IfNone, IfOk, IfSome, OnErr, OnOk, false, length, true};
ghost use Rattle.crossbeam_queue.specs.Passes.{view};
ghost use Rattle.transform_pool.specs.Passes.{HeldLast, HeldLastPut, IsAtEnd, IsPassOf, IsSeatOf};
ghost use Rattle.transform_pool.specs.Passes.{IsTakerOf, places, role_of, takers_of};
ghost use Rattle.transform_pool.specs.Roles.{SamePuts, at_end, back_with, most_takers};
ghost use Rattle.transform_pool.specs.Roles.{put_more, putting, taking, took_more};

use crate::TextJob;
use crate::item::{Item, Role};
use crate::queue::{JobPass, JobQueue, Ring};
use crate::rule::{PutsJob, PutsMark, Taker, Takes, TakesBack};
use crossbeam_queue::Pass;
use std::alloc::{AllocError, Global};
use std::sync::Wait;
use std::thread;

impl JobPass {
    // A pass that has put no end mark.
    fn unmarked(seat: Pass<Item, Role>) -> JobPass
        requires idle { seat.me.1 ≡ [] }
        requires marks { (view seat).marks ≡ 0 }
        ensures { result.seat ≡ seat }
    {
        JobPass { seat, marks: 0 }
    }
}

// So many passes that take, beside the one that puts.
fn takers_beside(
    alloc: Global,
    ring: &Ring,
    seat: &mut Pass<Item, Role>,
    takers: usize,
) -> Result<Vec<JobPass>, AllocError>
    requires of { IsSeatOf ring.now seat.old }
    requires puts { view seat.old ≡ putting }
    ensures of { IsSeatOf ring.now seat.new }
    ensures same { view seat.new ≡ putting }
    ensures count { IfOk result (λ passes. length passes.items ≡ takers) }
    ensures each_of { IfOk result (λ passes. All (λ p. IsTakerOf ring.now takers p) passes.items) }
    ensures each_takes { IfOk result (λ passes. All (λ p. role_of p ≡ taking) passes.items) }
{
    let mut passes = Vec::with_capacity(alloc, takers)?;
    for _ in 0..takers {
        let taker = ring.another::<Taker>(seat);
        passes.push(JobPass::unmarked(taker))?;
    }
    Ok(passes)
}

impl JobQueue {
    /// A queue with one pass that puts and as many that take as there are takers, from 1 to 16. It fails
    /// only where memory runs out.
    pub fn new(
        alloc: Global,
        takers: usize,
    ) -> Result<(JobQueue, JobPass, Vec<JobPass>), AllocError>
        requires some { 0 < takers }
        requires few { takers ≤ most_takers }
        ensures takers { IfOk result (λ r. takers_of r.0 ≡ takers) }
        ensures of { IfOk result (λ r. IsPassOf r.0 r.1) }
        ensures puts { IfOk result (λ r. role_of r.1 ≡ putting) }
        ensures count { IfOk result (λ r. length r.2.items ≡ takers) }
        ensures each_of { IfOk result (λ r. All (λ p. IsPassOf r.0 p) r.2.items) }
        ensures each_takes { IfOk result (λ r. All (λ p. role_of p ≡ taking) r.2.items) }
    {
        let (ring, mut seat) = Ring::ruled(alloc, 64)?;
        let passes = takers_beside(alloc, &ring, &mut seat, takers)?;
        Ok((JobQueue { ring, takers }, JobPass::unmarked(seat), passes))
    }

    /// Puts a job at the back, by the pass that puts, before it is closed. The job comes back only where the
    /// queue held 64 items at a step of this call.
    pub fn put<R: Wait>(&self, rt: &R, pass: &mut JobPass, job: TextJob) -> Result<(), TextJob>
        requires of { IsPassOf self.now pass.old }
        requires puts { (role_of pass.old).puts ≡ true }
        requires unclosed { (role_of pass.old).closed ≡ false }
        ensures of { IsPassOf self.now pass.new }
        ensures put { OnOk result (role_of pass.new ≡ put_more (role_of pass.old) job) }
        ensures same { OnErr result (role_of pass.new ≡ role_of pass.old) }
        ensures back { IfErr result (λ back. back ≡ job) }
        ensures full { OnErr result (HeldLastPut places (role_of pass.old).put) }
    {
        match self
            .ring
            .push_as::<PutsJob, R>(rt, &mut pass.seat, Item::Job(job))
        {
            Ok(()) => Ok(()),
            Err(Item::Job(job)) => Err(job),
            Err(Item::End) => unreachable!(),
        }
    }

    /// Closes the pass that puts, and puts an end mark for each taker. Where a mark finds 64 items, the one
    /// at the front is taken: a job is answered, which the caller works before it calls `close` again, and
    /// an end mark counts as not yet put. None comes exactly where all marks were put.
    pub fn close<R: Wait>(&self, rt: &R, pass: &mut JobPass) -> Option<TextJob>
        requires of { IsPassOf self.now pass.old }
        requires puts { (role_of pass.old).puts ≡ true }
        ensures of { IsPassOf self.now pass.new }
        ensures same { SamePuts (role_of pass.old) (role_of pass.new) }
        ensures closed { (role_of pass.new).closed ≡ true }
        ensures none { IfNone result ((role_of pass.new).marks ≡ takers_of self.now) }
        ensures kept { IfNone result ((role_of pass.new).took ≡ (role_of pass.old).took) }
        ensures some { IfSome result (λ _. (role_of pass.new).marks < takers_of self.now) }
        ensures taken { IfSome result
            (λ job. (role_of pass.new).took ≡ (role_of pass.old).took ++ job ∷ []) }
        ensures full { IfSome result (λ _. HeldLast places (role_of pass.old).put) }
    {
        for _ in rt.forever() {
            if pass.marks >= self.takers {
                return None;
            }
            if let Some(job) = self.put_mark(rt, pass) {
                return Some(job);
            }
        }
        unreachable!()
    }

    // Puts an end mark where there is a place for it, or else takes the item at the front back. A job that
    // was taken is answered.
    fn put_mark<R: Wait>(&self, rt: &R, pass: &mut JobPass) -> Option<TextJob>
        requires of { IsPassOf self.now pass.old }
        requires puts { (role_of pass.old).puts ≡ true }
        requires more { (role_of pass.old).marks < takers_of self.now }
        ensures of { IsPassOf self.now pass.new }
        ensures same { SamePuts (role_of pass.old) (role_of pass.new) }
        ensures kept { IfNone result ((role_of pass.new).took ≡ (role_of pass.old).took) }
        ensures some { IfSome result (λ job. role_of pass.new ≡ back_with (role_of pass.old) job) }
        ensures full { IfSome result (λ _. HeldLast places (role_of pass.old).put) }
    {
        match self
            .ring
            .push_as::<PutsMark, R>(rt, &mut pass.seat, Item::End)
        {
            Ok(()) => {
                pass.marks += 1;
                None
            }
            Err(_) => self.take_back(rt, pass),
        }
    }

    // Takes the item at the front back, and answers it where it is a job. Where the others have taken all
    // items in the meantime, nothing happens.
    fn take_back<R: Wait>(&self, rt: &R, pass: &mut JobPass) -> Option<TextJob>
        requires of { IsPassOf self.now pass.old }
        requires puts { (role_of pass.old).puts ≡ true }
        ensures of { IsPassOf self.now pass.new }
        ensures same { SamePuts (role_of pass.old) (role_of pass.new) }
        ensures kept { IfNone result ((role_of pass.new).took ≡ (role_of pass.old).took) }
        ensures some { IfSome result (λ job. role_of pass.new ≡ back_with (role_of pass.old) job) }
    {
        match self.ring.pop_as::<TakesBack, R>(rt, &mut pass.seat) {
            Some(Item::Job(job)) => Some(job),
            Some(Item::End) => {
                pass.marks -= 1;
                None
            }
            None => None,
        }
    }

    /// Waits for an item, by a pass that takes and has not ended: Some of a job, None exactly where the item
    /// is an end mark, and then the pass has ended: the pass that puts is closed, and from then on the queue
    /// holds no job.
    #[tactic(auto, using(crate::proofs::Ends::ends))]
    pub fn take<R: Wait>(&self, rt: &R, pass: &mut JobPass) -> Option<TextJob>
        requires of { IsPassOf self.now pass.old }
        requires takes { (role_of pass.old).puts ≡ false }
        requires going { (role_of pass.old).ended ≡ false }
        ensures of { IsPassOf self.now pass.new }
        ensures some { IfSome result (λ job. role_of pass.new ≡ took_more (role_of pass.old) job) }
        ensures none { IfNone result (role_of pass.new ≡ at_end (role_of pass.old)) }
        ensures closed { IfNone result (IsAtEnd pass.new) }
    {
        for _ in rt.forever() {
            match self.ring.pop_as::<Takes, R>(rt, &mut pass.seat) {
                None => thread::yield_now(),
                Some(Item::Job(job)) => return Some(job),
                Some(Item::End) => return None,
            }
        }
        unreachable!()
    }
}
