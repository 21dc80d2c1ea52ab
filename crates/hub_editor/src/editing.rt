// Later edits, while workers run: each is told to the hub and its job put into the queue of the workers; at
// the end the queue is closed, and what is left of the jobs is worked here.
ghost use Rattle.std.specs.Prelude.{◌≡◌, ◌≤◌, ◌<◌, ◌∷◌, []};
ghost use Rattle.std.specs.Prelude.{IfErr, IfSome, OnOk, false, get_or, length, true};
ghost use Rattle.hmr_types.specs.declared.limits.TheConstants.{MESSAGE_BYTES};
ghost use Rattle.transform_pool.specs.Passes as pool;
ghost use Rattle.transform_pool.specs.Roles.{SamePuts};
ghost use Rattle.hmr_hub.specs.Calls.{SameKnower};
ghost use Rattle.hmr_hub.specs.declared.pass.Pass.{Pass};
ghost use Rattle.hmr_hub.specs.Passes.{HasTranscript, IsPassOf, number_of};
ghost use Rattle.hmr_hub.specs.Moves.{KnowsOwn};
ghost use Rattle.hub_editor.specs.Causes.{IsCause, IsRoomStop};
ghost use Rattle.hub_editor.specs.Edits.{has_version, length_of, text_in};
ghost use Rattle.hub_editor.specs.Editing.{Added, Edited, Fronted, HaveLastResults};
ghost use Rattle.hub_editor.specs.Editing.{IsGoing, SameEdits, StoppedAt, made_by};

use crate::caller::HubCaller;
use crate::editor::Editor;
use crate::stop::EditStop;
use crate::telling::told_work;
use hmr_hub::Pass;
use hmr_types::{ModName, Ver};
use std::alloc::Global;
use std::sync::Wait;
use transform_pool::{JobPass, JobQueue};

impl Editor {
    /// An editor that made no edit yet.
    pub fn new(alloc: Global) -> Editor
        ensures { made_by result ≡ [] }
    {
        Editor {
            works: Vec::new(alloc),
        }
    }

    /// Makes an edit of a name and a text of at most 16,777,216 bytes together, by the pass with the number
    /// 0, before any job was worked at the end. Where a job comes of it, it is put into the queue by the
    /// pass that puts; where the queue has no place, the editor works it and tells its result. It waits.
    ///
    /// [`EditStop::Text`], `Names` and `Sources` come where the edit was refused, `Full` where the
    /// transcript has no place, `NoMemory` where memory ran out. After each the edit was made, or nothing
    /// was; its job may be neither in the queue nor worked. A refused edit gives the stop of its refusal. It
    /// keeps a copy of the text.
    pub fn edit<R: Wait>(
        &mut self,
        caller: &HubCaller<R>,
        pass: &mut Pass,
        queue: &JobQueue,
        jobs: &mut JobPass,
        edit: (ModName, Option<Vec<u8>>),
    ) -> Result<(), EditStop>
        requires of { IsPassOf caller.now.hub.now pass.old }
        requires number { number_of pass.old ≡ 0 }
        requires short { length_of (edit.0, text_in edit.1) ≤ MESSAGE_BYTES }
        requires going { IsGoing (made_by self.old) }
        requires of_queue { pool.IsPassOf queue.now jobs.old }
        requires puts { (pool.role_of jobs.old).puts ≡ true }
        requires unclosed { (pool.role_of jobs.old).closed ≡ false }
        ensures of { IsPassOf caller.now.hub.now pass.new }
        ensures same { SameKnower pass.old pass.new }
        ensures transcript { HasTranscript pass.old → HasTranscript pass.new }
        ensures edited { (p : Pass) → Edited p pass.old (made_by self.old)
            → Edited p pass.new (made_by self.new) }
        ensures going { IsGoing (made_by self.new) }
        ensures front { Fronted (made_by self.old) (made_by self.new) ((edit.0, text_in edit.1) ∷ []) }
        ensures added { OnOk result (Added (edit.0, text_in edit.1) (made_by self.old) (made_by self.new)
            (pool.role_of jobs.old) (pool.role_of jobs.new)) }
        ensures of_queue { pool.IsPassOf queue.now jobs.new }
        ensures puts { (pool.role_of jobs.new).puts ≡ true }
        ensures unclosed { (pool.role_of jobs.new).closed ≡ false }
        ensures stopped { IfErr result
            (StoppedAt (edit.0, text_in edit.1) (made_by self.old) (made_by self.new)) }
        ensures cause { IfErr result (IsCause pass.new) }
    {
        let (name, text) = edit;
        self.works.reserve(1)?;
        let mut work = told_work(caller.rt, caller.alloc, caller.hub, pass, name, text)?;
        let placed = work.place(caller, pass, queue, jobs);
        self.works.push_reserved(work);
        placed
    }

    /// Closes the queue, whatever it answers, by the pass that puts. The jobs that it hands back are worked
    /// and told, unless the editor worked them before; after the first stop they are let go. It looks for
    /// each among the edits from the first on. It waits.
    pub fn close<R: Wait>(
        &mut self,
        caller: &HubCaller<R>,
        pass: &mut Pass,
        queue: &JobQueue,
        jobs: &mut JobPass,
    ) -> Result<(), EditStop>
        requires of { IsPassOf caller.now.hub.now pass.old }
        requires number { number_of pass.old ≡ 0 }
        requires of_queue { pool.IsPassOf queue.now jobs.old }
        requires puts { (pool.role_of jobs.old).puts ≡ true }
        ensures of { IsPassOf caller.now.hub.now pass.new }
        ensures same { SameKnower pass.old pass.new }
        ensures transcript { HasTranscript pass.old → HasTranscript pass.new }
        ensures edited { (p : Pass) → Edited p pass.old (made_by self.old)
            → Edited p pass.new (made_by self.new) }
        ensures edits { SameEdits (made_by self.old) (made_by self.new) }
        ensures of_queue { pool.IsPassOf queue.now jobs.new }
        ensures same_puts { SamePuts (pool.role_of jobs.old) (pool.role_of jobs.new) }
        ensures closed { (pool.role_of jobs.new).closed ≡ true }
        ensures marks { (pool.role_of jobs.new).marks ≡ pool.takers_of queue.now }
        ensures room { IfErr result IsRoomStop }
        ensures cause { IfErr result (IsCause pass.new) }
    {
        let mut ended = Ok(());
        for _ in caller.rt.forever() {
            let Some(job) = queue.close(caller.rt, jobs) else {
                return ended;
            };
            self.take_back(caller, pass, job.ver(), &mut ended);
        }
        unreachable!()
    }

    // Works the job of this version, unless a stop came before.
    fn take_back<R: Wait>(
        &mut self,
        caller: &HubCaller<R>,
        pass: &mut Pass,
        ver: Ver,
        ended: &mut Result<(), EditStop>,
    )
        requires of { IsPassOf caller.now.hub.now pass.old }
        requires number { number_of pass.old ≡ 0 }
        requires room { IfErr ended.old IsRoomStop }
        requires cause { IfErr ended.old (IsCause pass.old) }
        ensures of { IsPassOf caller.now.hub.now pass.new }
        ensures same { SameKnower pass.old pass.new }
        ensures transcript { HasTranscript pass.old → HasTranscript pass.new }
        ensures edited { (p : Pass) → Edited p pass.old (made_by self.old)
            → Edited p pass.new (made_by self.new) }
        ensures edits { SameEdits (made_by self.old) (made_by self.new) }
        ensures room { IfErr ended.new IsRoomStop }
        ensures cause { IfErr ended.new (IsCause pass.new) }
    {
        if ended.is_err() {
            return;
        }
        if let Some(at) = self.place_of(ver) {
            *ended = self.works[at].work_left(caller, pass);
        }
    }

    // The first edit whose job has this version.
    fn place_of(&self, ver: Ver) -> Option<usize>
        ensures below { IfSome result (λ at. at < length (made_by self.now)) }
    {
        for at in 0..self.works.len() {
            if self.works[at].has_version(ver) {
                return Some(at);
            }
        }
        None
    }

    /// Works and tells each job of these edits that the hub still tells to be outstanding. It begins with
    /// the last edit, so that of each name only the job of the last counted one is worked, and each of these
    /// has its result at the end. It is asked when the workers have ended and their passes were joined. It
    /// waits.
    pub fn settle_rest<R: Wait>(
        &mut self,
        caller: &HubCaller<R>,
        pass: &mut Pass,
    ) -> Result<(), EditStop>
        requires of { IsPassOf caller.now.hub.now pass.old }
        requires number { number_of pass.old ≡ 0 }
        requires knows { KnowsOwn pass.old }
        ensures of { IsPassOf caller.now.hub.now pass.new }
        ensures same { SameKnower pass.old pass.new }
        ensures transcript { HasTranscript pass.old → HasTranscript pass.new }
        ensures edited { (p : Pass) → Edited p pass.old (made_by self.old)
            → Edited p pass.new (made_by self.new) }
        ensures edits { SameEdits (made_by self.old) (made_by self.new) }
        ensures results { OnOk result ((p : Pass) → Edited p pass.old (made_by self.old)
            → HaveLastResults pass.new (made_by self.new)) }
        ensures room { IfErr result IsRoomStop }
        ensures cause { IfErr result (IsCause pass.new) }
    {
        let mut left = self.works.len();
        while left > 0 {
            left -= 1;
            self.works[left].settle_outstanding(caller, pass)?;
        }
        Ok(())
    }
}
