// A worker's board that rings for each result.
ghost use Rattle.std.specs.Prelude.{◌≡◌, ◌≤◌, ◌+◌, None, false, length, refl, true};
ghost use Rattle.std.proofs.Common.{◌∙◌};
ghost use Rattle.hmr_types.specs.declared.limits.TheConstants.{MESSAGE_BYTES};
ghost use Rattle.std.specs.Arc.{arc_value};
ghost use Rattle.hmr_hub.specs.Passes.{IsPassOf, seen_of};
ghost use Rattle.hmr_hub.specs.Fullness.{IsNearlyFull};
ghost use Rattle.session_desks.specs.Boards.{has_ended};

use hmr_hub::Pass;
use hmr_types::{Outcome, Ver};
use live_context::{Bell, NewsBoard};
use live_lines::{News, line_at};
use session_desks::HubBoard;
use std::alloc::{AllocError, Global};
use std::sync::{Arc, Wait};
use transform_pool::{Board, TextJob};
use transforms::Transformed;
use update_msgs::HubStop;

/// The board of one worker: a board of the hub, the bell that rings for each of its results, and where the
/// faults of texts are told.
#[derive(Drop)]
pub struct LiveBoard {
    board: HubBoard,
    bell: Arc<Bell, Global>,
    news: Arc<NewsBoard, Global>,
}

impl LiveBoard {
    /// A board round this one.
    pub fn new(board: HubBoard, bell: Arc<Bell, Global>, news: Arc<NewsBoard, Global>) -> Self
        ensures board { result.board ≡ board }
    {
        LiveBoard { board, bell, news }
    }

    /// Whether the hub answered that its transcript is full.
    pub fn is_full(&self) -> bool
        ensures { result ≡ self.now.board.full }
    {
        self.board.is_full()
    }

    /// The hub's pass of the board.
    pub fn into_pass(self) -> Pass
        ensures pass { result ≡ self.board.pass }
        ensures of { IsPassOf (arc_value self.board.hub) result }
        ensures near_full { self.board.full ≡ true → IsNearlyFull (seen_of result) }
    {
        let LiveBoard {
            board,
            bell: _,
            news: _,
        } = self;
        board.into_pass()
    }
}

// What is told of a result: the fault of its text, where it has one.
fn fault_of(alloc: Global, done: &Transformed) -> Result<Option<News>, AllocError> {
    let Outcome::Bad(fault) = done.outcome() else {
        return Ok(None);
    };
    Ok(Some(News::Fault {
        name: done.name().clone()?,
        fault: *fault,
        line_text: line_at(alloc, done.text(), fault.line)?,
    }))
}

impl Board for LiveBoard {
    ghost use Rattle.live_desk.specs.Boards.{SameLive, is_ended};

    ghost ended = { is_ended };

    ghost full = { λ board. board.board.full };

    ghost taken = { λ board. None };

    ghost posted = { λ board. None };

    ghost stays = { SameLive };

    fn take_job<R: Wait>(&mut self, rt: &R) -> Option<TextJob> {
        self.bell.wait_for_job(rt);
        self.board.take_job(rt)
    }

    fn post<R: Wait>(
        &mut self,
        rt: &R,
        alloc: Global,
        done: Transformed,
        ver: Ver,
    ) -> Result<(), HubStop> {
        if let Ok(Some(fault)) = fault_of(alloc, &done) {
            self.news.tell(rt, fault);
        }
        let posted = self.board.post(rt, alloc, done, ver);
        self.bell.note_result();
        posted
    }

    ghost same = { λ x. record { hub = refl; number = refl; queue = refl } };

    ghost longer = { λ x y z p q.
        record { hub = q.hub ∙ p.hub; number = q.number ∙ p.number; queue = q.queue ∙ p.queue } };
}
