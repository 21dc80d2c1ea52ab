// A client tells that one of its modules invalidated itself: the module is forced.
ghost use Rattle.std.specs.Prelude.{◌≡◌, ℕ, None, true, IfOk, OnErr, OnOk};
ghost use Rattle.core_model.specs.Client.{Client};
ghost use Rattle.core_model.specs.Names.{at, put_name};
ghost use Rattle.core_model.specs.Requests.{heard, invalidate, is_at_version};
ghost use Rattle.core_model.specs.Sources.{Sources};
ghost use Rattle.client_records.specs.Answers.{IsWritten, reply_of};
ghost use Rattle.client_records.specs.Record.{IsRecord};

use crate::answer::Answer;
use crate::client_record::ClientRecord;
use core_model::Refusal;
use hmr_types::{ModName, Ver};
use module_graph::View;
use std::alloc::AllocError;
use update_msgs::ServerMsg;

impl ClientRecord {
    /// The module is forced, where it is on the page at this version and accepts itself. Where
    /// memory runs out nothing changes.
    pub fn invalidate(&mut self, name: ModName, version: Ver) -> Result<Answer, AllocError>
        ensures stands { (i : ℕ) (s : Sources) (c : Client) → IsRecord s c self.old
            → OnOk result (IsRecord s (heard i s c (invalidate name version)).0 self.new) }
        ensures reply { (i : ℕ) (s : Sources) (c : Client) → IsRecord s c self.old
            → IfOk result (λ answer. reply_of answer ≡ (heard i s c (invalidate name version)).1) }
        ensures written { IfOk result IsWritten }
        ensures unchanged { (s : Sources) (c : Client) → IsRecord s c self.old
            → OnErr result (IsRecord s c self.new) }
    {
        if self.plan.is_some() {
            return Ok(Answer::Refused(Refusal::OutOfTurn));
        }
        if !is_at_version(&self.view, &name, version) {
            return Ok(Answer::Refused(Refusal::Ignored));
        }
        self.queue.force(name)?;
        self.queue.release();
        Ok(Answer::To(ServerMsg::Done))
    }
}

// Whether the module is on the page at this version, and accepts itself.
fn is_at_version(view: &View, name: &ModName, version: Ver) -> bool
    ensures { result ≡ is_at_version (at view.now name.now) version }
{
    match view.get(name) {
        None => false,
        Some((kept, analysis)) => kept == version && analysis.self_accepts,
    }
}
