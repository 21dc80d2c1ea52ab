// The jobs of a live server, and what each ends in, as types.
ghost use Rattle.std.specs.Prelude.{◌≡◌, false};
ghost use Rattle.live_desk.specs.Boards.{is_ended};
ghost use Rattle.live_crew.specs.Attendants.{is_done};

use crate::attendant::HubAttendant;
use doors::{Door, DoorEnd};
use live_desk::LiveBoard;
use update_msgs::HubStop;

/// A worker that is to take jobs from its board.
#[derive(Drop)]
pub struct LiveWorker {
    pub(crate) board: LiveBoard,
    ghost room: { board.board.full ≡ false },
    ghost going: { is_ended board ≡ false },
}

/// A door that is to be served by an attendant, which had as many visits as the door.
#[derive(Drop)]
pub struct LiveDoor<R: Drop, D: Door + Drop, S: Drop> {
    pub(crate) door: D,
    pub(crate) attendant: HubAttendant<R, S>,
    ghost going: { D.is_shut door ≡ false },
    ghost back: { D.is_out door ≡ false },
    ghost ready: { is_done attendant ≡ false },
    ghost even: { attendant.visits ≡ D.visits door },
}

/// What a thread of a live server is given to do.
#[derive(Drop)]
pub enum LiveJob<R: Drop, D: Door + Drop, S: Drop> {
    /// Kind 0.
    Worker(LiveWorker),
    /// Kind 1.
    Door(LiveDoor<R, D, S>),
}

/// What is handed back for a job. None stands exactly where the job was given up.
#[derive(Drop)]
pub enum LiveOut<R: Drop, D: Drop, S: Drop> {
    /// A worker's board, and how many results it told, or why it stopped.
    Worker(LiveBoard, Option<Result<u64, HubStop>>),
    /// A door, which has no end out, its attendant, and why it ended.
    Door(D, HubAttendant<R, S>, Option<DoorEnd>),
}

impl LiveWorker {
    /// The job of a worker with this board, which is not full and has not ended.
    pub fn new(board: LiveBoard) -> Self
        requires room { board.board.full ≡ false }
        requires going { is_ended board ≡ false }
        ensures board { result.board ≡ board }
    {
        LiveWorker { board }
    }
}

impl<R: Drop, D: Door + Drop, S: Drop> LiveDoor<R, D, S> {
    /// The job of an attendant at a door, both of which had equally many visits.
    pub fn new(door: D, attendant: HubAttendant<R, S>) -> Self
        requires going { D.is_shut door ≡ false }
        requires back { D.is_out door ≡ false }
        requires ready { is_done attendant ≡ false }
        requires even { attendant.visits ≡ D.visits door }
        ensures door { result.door ≡ door }
        ensures attendant { result.attendant ≡ attendant }
    {
        LiveDoor { door, attendant }
    }
}
