// The core with its transcript, as a lock keeps it.
ghost use Rattle.std.specs.Prelude.{◌≡◌, true};
ghost use Rattle.turn_lock.specs.Histories.{grown};
ghost use Rattle.hmr_hub.specs.Kinds.{IsFormedKind, asked_of};
ghost use Rattle.hmr_hub.specs.Outcomes.{Answers, is_recorded};
ghost use Rattle.hmr_hub.specs.Questions.{history_of, may_ask};
ghost use Rattle.hmr_hub.specs.Recordings.{Recording};

use crate::hub_reply::HubReply;
use crate::question::{Kind, Question};
use crate::recorded_core::RecordedCore;
use events_and_replies::Reply;
use turn_lock::Keeps;
use update_msgs::HubStop;

impl Keeps for RecordedCore {
    type Entry = Question;

    type Reply = HubReply;

    ghost history = { λ recording. history_of recording.entries };

    ghost may = { may_ask };

    ghost follows = { λ opening recording. recording.roots ≡ opening.roots };

    ghost answers = { Answers };

    fn apply(&mut self, by: u64, question: Question) -> (HubReply, bool) {
        self.answer(by, question.kind)
    }
}

impl RecordedCore {
    // The answer to a question of this kind, and whether it was recorded.
    fn answer(&mut self, by: u64, kind: Kind) -> (HubReply, bool)
        requires formed { IsFormedKind kind }
        requires may { may_ask by (asked_of kind) ≡ true }
        ensures history { history_of self.new.entries
            ≡ grown (history_of self.old.entries) by (asked_of kind) result.1 }
        ensures roots { self.new.roots ≡ self.old.roots }
        ensures answer { (opening : Recording) → self.old.roots ≡ opening.roots
            → Answers opening (history_of self.old.entries) by (asked_of kind) result.0 result.1 }
    {
        match kind {
            Kind::Tell(event) => {
                let told = self.tell(by, event);
                let recorded = is_recorded(&told);
                (HubReply::Told(told), recorded)
            }
            Kind::Outstanding(name) => (HubReply::Outstanding(self.is_outstanding(&name)), false),
            Kind::Report => (HubReply::Report(self.report()), false),
            Kind::Events => (HubReply::Events(self.events()), false),
        }
    }
}

// Whether the event was answered.
fn is_recorded(told: &Result<Reply, HubStop>) -> bool
    ensures { result ≡ is_recorded told.now }
{
    told.is_ok()
}
