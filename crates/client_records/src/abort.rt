// A client gives the plan under way up.
ghost use Rattle.std.specs.Prelude.{◌≡◌, ℕ};
ghost use Rattle.core_model.specs.Client.{Client};
ghost use Rattle.core_model.specs.Requests.{aborted, heard};
ghost use Rattle.client_records.specs.Answers.{IsWritten, reply_of};
ghost use Rattle.client_records.specs.Record.{IsRecord};

use crate::answer::Answer;
use crate::client_record::ClientRecord;
use core_model::Refusal;
use update_msgs::ServerMsg;
use version_map::VersionMap;

impl ClientRecord {
    /// The plan under way is given up, and the client is held until something is served or removed.
    pub fn aborted(&mut self, _sources: &VersionMap) -> Answer
        ensures stands { (i : ℕ) (c : Client) → IsRecord _sources.now c self.old
            → IsRecord _sources.now (heard i _sources.now c aborted).0 self.new }
        ensures reply { (i : ℕ) (c : Client) → IsRecord _sources.now c self.old
            → reply_of result ≡ (heard i _sources.now c aborted).1 }
        ensures written { IsWritten result }
    {
        if self.plan.is_none() {
            return Answer::Refused(Refusal::OutOfTurn);
        }
        self.plan = None;
        self.queue.hold(self.plan_at);
        Answer::To(ServerMsg::Done)
    }
}
