// The jobs of a server, and what each ends in, as types.
ghost use Rattle.std.specs.Prelude.{◌≡◌, false};
ghost use Rattle.transport.specs.declared.link.Phase.TheVariants.{Fresh};
ghost use Rattle.session_desks.specs.Boards.{has_ended};

use session_desks::{HubBoard, HubDesk};
use sessions::Ended;
use transport::Link;
use update_msgs::HubStop;

/// A worker that is to take jobs from its board, and pass a gate with each result.
#[derive(Drop)]
pub struct WorkerJob<G: Drop> {
    pub(crate) board: HubBoard,
    pub(crate) gate: G,
    ghost room: { board.full ≡ false },
    ghost going: { has_ended board ≡ false },
}

/// A session that is to be served, over a fresh link.
#[derive(Drop)]
pub struct SessionJob<R: Drop, L: Link + Drop> {
    pub(crate) desk: HubDesk<R>,
    pub(crate) link: L,
    ghost fresh: { L.phase link ≡ Fresh },
    ghost clean: { L.faults link ≡ 0 },
    ghost room: { desk.full ≡ false },
}

/// What a thread of a server is given to do.
#[derive(Drop)]
pub enum ServeJob<R: Drop, L: Link + Drop, G: Drop> {
    /// Kind 0.
    Worker(WorkerJob<G>),
    /// Kind 1.
    Session(SessionJob<R, L>),
}

/// What is handed back for a job. None stands exactly where the job was given up.
#[derive(Drop)]
pub enum ServeOut<R: Drop, L> {
    /// A worker's board, and how many results it told the hub, or why it stopped.
    Worker(HubBoard, Option<Result<u64, HubStop>>),
    /// A session's desk, the end of its link, and how the session ended.
    Session(HubDesk<R>, L, Option<Ended>),
}

impl<G: Drop> WorkerJob<G> {
    /// The job of a worker with this board, which is not full and has not ended, behind a gate.
    pub fn new(board: HubBoard, gate: G) -> Self
        requires room { board.full ≡ false }
        requires going { has_ended board ≡ false }
        ensures board { result.board ≡ board }
        ensures gate { result.gate ≡ gate }
    {
        WorkerJob { board, gate }
    }
}

impl<R: Drop, L: Link + Drop> SessionJob<R, L> {
    /// The job of a session with this desk, which is not full, over a fresh link that never failed.
    pub fn new(desk: HubDesk<R>, link: L) -> Self
        requires room { desk.full ≡ false }
        requires fresh { L.phase link ≡ Fresh }
        requires clean { L.faults link ≡ 0 }
        ensures desk { result.desk ≡ desk }
        ensures link { result.link ≡ link }
    {
        SessionJob { desk, link }
    }
}
