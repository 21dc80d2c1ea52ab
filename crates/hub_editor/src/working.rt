// What the editor does with the job of an edit.
ghost use Rattle.std.specs.Prelude.{◌≡◌, ◌++◌, ◌∷◌, [], IfErr, OnOk, Some, false, is_ok, true};
ghost use Rattle.core_model.specs.Formed.{IsVersion};
ghost use Rattle.transform_pool.specs.Passes as pool;
ghost use Rattle.transform_pool.specs.Tasks.{Task};
ghost use Rattle.hmr_hub.specs.Calls.{SameKnower};
ghost use Rattle.hmr_hub.specs.Passes.{HasTranscript, IsPassOf, number_of, seen_of};
ghost use Rattle.hmr_hub.specs.Moves.{KnowsOwn};
ghost use Rattle.hub_editor.specs.Causes.{IsCause, IsRoomStop, IsStopBy};
ghost use Rattle.hub_editor.specs.Edits.{IsGiven, jobs_of, jobs_put};
ghost use Rattle.hub_editor.specs.Results.{HasOwnResults, HasResult, last_in};
ghost use Rattle.hub_editor.specs.Editing.{IsAnswered, Steps, WorkedOut};
ghost use Rattle.hub_editor.specs.declared.worked.Worked.TheVariants.{AtEnd, AtOnce, No};

use crate::caller::HubCaller;
use crate::stop::EditStop;
use crate::telling::{settle, stop_by};
use crate::work::Work;
use crate::worked::Worked;
use hmr_hub::Pass;
use std::sync::Wait;
use transform_pool::{JobPass, JobQueue, TextJob};

impl Work {
    // Puts the job of an edit that was just answered into the queue, by the pass that puts. Where the queue
    // has no place for it, the editor works it. A refusal of the edit stops the editor.
    pub(crate) fn place<R: Wait>(
        &mut self,
        caller: &HubCaller<R>,
        pass: &mut Pass,
        queue: &JobQueue,
        jobs: &mut JobPass,
    ) -> Result<(), EditStop>
        requires of { IsPassOf caller.now.hub.now pass.old }
        requires number { number_of pass.old ≡ 0 }
        requires answered { IsAnswered pass.old self.old }
        requires unworked { self.old.worked ≡ No }
        requires of_queue { pool.IsPassOf queue.now jobs.old }
        requires puts { (pool.role_of jobs.old).puts ≡ true }
        requires unclosed { (pool.role_of jobs.old).closed ≡ false }
        ensures of { IsPassOf caller.now.hub.now pass.new }
        ensures same { SameKnower pass.old pass.new }
        ensures transcript { HasTranscript pass.old → HasTranscript pass.new }
        ensures steps { Steps AtOnce self.old self.new pass.old pass.new }
        ensures of_queue { pool.IsPassOf queue.now jobs.new }
        ensures puts { (pool.role_of jobs.new).puts ≡ true }
        ensures unclosed { (pool.role_of jobs.new).closed ≡ false }
        ensures put { OnOk result
            ((pool.role_of jobs.new).put ≡ (pool.role_of jobs.old).put ++ jobs_put self.new) }
        ensures accepted { OnOk result (is_ok self.new.answer ≡ true) }
        ensures held { self.new.worked ≡ AtOnce → pool.HeldLastPut pool.places (pool.role_of jobs.old).put }
        ensures stopped { IfErr result (IsStopBy self.new.answer) }
        ensures cause { IfErr result (IsCause pass.new) }
    {
        if let Err(refusal) = self.answer() {
            return Err(stop_by(refusal));
        }
        let Some(job) = self.job(caller.alloc)? else {
            return Ok(());
        };
        match queue.put(caller.rt, jobs, job) {
            Ok(()) => Ok(()),
            Err(job) => self.work_out(caller, pass, job, Worked::AtOnce),
        }
    }

    // Works the job of the edit, tells its result and marks it so.
    fn work_out<R: Wait>(
        &mut self,
        caller: &HubCaller<R>,
        pass: &mut Pass,
        job: TextJob,
        worked: Worked,
    ) -> Result<(), EditStop>
        requires of { IsPassOf caller.now.hub.now pass.old }
        requires number { number_of pass.old ≡ 0 }
        requires unworked { self.old.worked ≡ No }
        requires job { jobs_of self.old ≡ job ∷ [] }
        requires version { IsVersion job.ver }
        ensures of { IsPassOf caller.now.hub.now pass.new }
        ensures same { SameKnower pass.old pass.new }
        ensures transcript { HasTranscript pass.old → HasTranscript pass.new }
        ensures worked_out { OnOk result (WorkedOut worked self.old self.new pass.old pass.new) }
        ensures steps { Steps worked self.old self.new pass.old pass.new }
        ensures room { IfErr result IsRoomStop }
        ensures cause { IfErr result (IsCause pass.new) }
    {
        settle(caller.rt, caller.alloc, caller.hub, pass, job)?;
        self.mark(worked);
        Ok(())
    }

    // Works the job after all edits, unless the editor worked it before.
    pub(crate) fn work_left<R: Wait>(
        &mut self,
        caller: &HubCaller<R>,
        pass: &mut Pass,
    ) -> Result<(), EditStop>
        requires of { IsPassOf caller.now.hub.now pass.old }
        requires number { number_of pass.old ≡ 0 }
        ensures of { IsPassOf caller.now.hub.now pass.new }
        ensures same { SameKnower pass.old pass.new }
        ensures transcript { HasTranscript pass.old → HasTranscript pass.new }
        ensures steps { Steps AtEnd self.old self.new pass.old pass.new }
        ensures resulted { OnOk result (HasOwnResults (seen_of pass.old) self.old
            → (job : Task) → jobs_of self.old ≡ job ∷ [] → HasResult (seen_of pass.new) job) }
        ensures room { IfErr result IsRoomStop }
        ensures cause { IfErr result (IsCause pass.new) }
    {
        if !self.is_waiting() {
            return Ok(());
        }
        let Some(job) = self.job(caller.alloc)? else {
            return Ok(());
        };
        self.work_out(caller, pass, job, Worked::AtEnd)
    }

    // Works the job after all edits, where the hub still tells that its result hasn't come. So the job of
    // the last counted edit of its name has its result then.
    pub(crate) fn settle_outstanding<R: Wait>(
        &mut self,
        caller: &HubCaller<R>,
        pass: &mut Pass,
    ) -> Result<(), EditStop>
        requires of { IsPassOf caller.now.hub.now pass.old }
        requires number { number_of pass.old ≡ 0 }
        requires knows { KnowsOwn pass.old }
        ensures of { IsPassOf caller.now.hub.now pass.new }
        ensures same { SameKnower pass.old pass.new }
        ensures transcript { HasTranscript pass.old → HasTranscript pass.new }
        ensures steps { Steps AtEnd self.old self.new pass.old pass.new }
        ensures resulted { OnOk result (HasOwnResults (seen_of pass.old) self.old
            → (job : Task) → jobs_of self.old ≡ job ∷ []
            → last_in (seen_of pass.old) job.name ≡ Some (job.ver, job.text)
            → HasResult (seen_of pass.new) job) }
        ensures room { IfErr result IsRoomStop }
        ensures cause { IfErr result (IsCause pass.new) }
    {
        if !self.is_waiting() {
            return Ok(());
        }
        let name = self.name()?;
        if !caller.hub.outstanding(caller.rt, pass, name) {
            return Ok(());
        }
        self.work_left(caller, pass)
    }
}
