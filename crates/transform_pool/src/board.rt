// Where a worker takes its jobs and posts their results.
ghost use Rattle.std.specs.Prelude.{◌≡◌, ◌+◌, ◌≤◌, ◌∷◌, []};
ghost use Rattle.std.specs.Prelude.{ℕ, Bool, List, MatchOption, OnErr, OnOk, Option, false, is_none, length};
ghost use Rattle.hmr_types.specs.declared.limits.TheConstants.{MESSAGE_BYTES};
ghost use Rattle.transforms.specs.Transform.{Transform};
ghost use Rattle.transform_pool.specs.Boards.{full_after, told_more};
ghost use Rattle.transform_pool.specs.Tasks.{Task};

use crate::TextJob;
use hmr_types::Ver;
use std::alloc::Global;
use std::sync::Wait;
use transforms::Transformed;
use update_msgs::HubStop;

/// The board of one worker.
pub trait Board {
    // Whether no job will come any more.
    ghost ended: { Self → Bool };
    // Whether a post was answered by `TranscriptFull`.
    ghost full: { Self → Bool };
    // The jobs that were taken, in order, where the board tells them.
    ghost taken: { Self → Option (List Task) };
    // The results that were posted, in order, with their versions, where the board tells them.
    ghost posted: { Self → Option (List (Transform × ℕ)) };
    // What both calls keep of the board, and any number of them: of which hub it is, for one.
    ghost stays: { Self → Self → Type 0 };

    /// The next job of a board that hasn't ended, or None, exactly where it has then ended. It waits.
    fn take_job<R: Wait>(&mut self, rt: &R) -> Option<TextJob>
        requires going { ended self.old ≡ false }
        ensures ended { ended self.new ≡ is_none result }
        ensures full { full self.new ≡ full self.old }
        ensures taken { MatchOption result
            (taken self.new ≡ taken self.old)
            (λ job. taken self.new ≡ told_more (taken self.old) (job ∷ [])) }
        ensures posted { posted self.new ≡ posted self.old }
        ensures stays { stays self.old self.new };

    /// Posts a result, whose name and text have together at most 16,777,216 bytes. After a refusal nothing
    /// was posted.
    fn post<R: Wait>(
        &mut self,
        rt: &R,
        alloc: Global,
        done: Transformed,
        ver: Ver,
    ) -> Result<(), HubStop>
        requires short { length done.name + length done.text ≤ MESSAGE_BYTES }
        ensures ended { ended self.new ≡ ended self.old }
        ensures full { full self.new ≡ full_after (full self.old) result }
        ensures taken { taken self.new ≡ taken self.old }
        ensures posted { OnOk result (posted self.new ≡ told_more (posted self.old) ((done, ver) ∷ [])) }
        ensures unposted { OnErr result (posted self.new ≡ posted self.old) }
        ensures stays { stays self.old self.new };

    // Nothing was called.
    ghost same: { (x : Self) → stays x x };
    // One call after another.
    ghost longer: { (x y z : Self) → stays x y → stays y z → stays x z };
}
