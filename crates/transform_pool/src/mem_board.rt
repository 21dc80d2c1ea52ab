// A board in memory, for tests: it holds its jobs, and keeps what is posted.
ghost use Rattle.std.specs.Prelude.{◌≡◌, [], Some, false, refl, true};
ghost use Rattle.std.proofs.Common.{◌∙◌};
ghost use Rattle.transform_pool.specs.Left.{IsLeft, taken_of};

use crate::{Board, TextJob};
use hmr_types::Ver;
use std::alloc::Global;
use std::collections::VecDeque;
use std::snapshot::Snapshot;
use std::sync::Wait;
use transforms::Transformed;
use update_msgs::HubStop;

/// A board that is made of a list of jobs. It tells what was taken and what was posted, and is never full.
#[derive(Drop)]
pub struct MemBoard {
    jobs: VecDeque<TextJob>,
    all: Snapshot<VecDeque<TextJob>>,
    posted: Vec<(Transformed, Ver)>,
    ended: bool,
    ghost left: { IsLeft all.value.items jobs.items },
    ghost done: { ended ≡ true → jobs.items ≡ [] },
}

impl MemBoard {
    ghost use Rattle.transform_pool.specs.MemBoards.{has_ended, jobs_of, posted_on, taken_from};

    #[tactic(auto, using(crate::proofs::Lefts::none_taken))]
    /// A board of these jobs, which has not ended.
    pub fn new(alloc: Global, jobs: VecDeque<TextJob>) -> MemBoard
        ensures jobs { jobs_of result ≡ jobs.items }
        ensures ended { has_ended result ≡ false }
        ensures taken { taken_from result ≡ [] }
        ensures posted { posted_on result ≡ [] }
    {
        let all = Snapshot::of(&jobs);
        MemBoard {
            jobs,
            all,
            posted: Vec::new(alloc),
            ended: false,
        }
    }

    #[tactic(auto, using(crate::proofs::Lefts::all_taken))]
    /// The results that were posted, in order, with their versions. A board that has ended has given all of
    /// its jobs.
    pub fn posted(&self) -> &[(Transformed, Ver)]
        ensures posted { result.now ≡ posted_on self.now }
        ensures whole { has_ended self.now ≡ true → taken_from self.now ≡ jobs_of self.now }
    {
        &self.posted
    }
}

impl Board for MemBoard {
    ghost ended = { λ b. b.ended };

    ghost full = { λ b. false };

    ghost taken = { λ b. Some (taken_of b.all.value.items b.jobs.items) };

    ghost posted = { λ b. Some b.posted.items };

    ghost stays = { λ x y. y.all.value.items ≡ x.all.value.items };

    #[tactic(auto, using(crate::proofs::Lefts::taken_next))]
    fn take_job<R: Wait>(&mut self, _rt: &R) -> Option<TextJob> {
        match self.jobs.pop_front() {
            Some(job) => Some(job),
            None => {
                self.ended = true;
                None
            }
        }
    }

    fn post<R: Wait>(
        &mut self,
        _rt: &R,
        _alloc: Global,
        done: Transformed,
        ver: Ver,
    ) -> Result<(), HubStop> {
        match self.posted.push((done, ver)) {
            Ok(()) => Ok(()),
            Err(_) => Err(HubStop::NoMemory),
        }
    }

    ghost same = { λ x. refl };

    ghost longer = { λ x y z p q. q ∙ p };
}
