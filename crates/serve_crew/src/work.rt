// Jobs are worked, or given up.
ghost use Rattle.std.specs.Prelude.{◌≡◌, false, true};

use crate::job::{ServeJob, ServeOut, SessionJob, WorkerJob};
use jobs::{Gate, Job};
use sessions::serve_session;
use std::alloc::Global;
use std::sync::Wait;
use transform_pool::work;
use transport::Link;

impl<R: Wait + Drop, L: Link + Drop, G: Gate + Drop> Job for ServeJob<R, L, G> {
    type Out = ServeOut<R, L>;

    ghost use Rattle.serve_crew.specs.Outs.{HasLeft, IsUntouched, OutOf, is_unrun, kind_of};

    ghost works = { λ job out. OutOf ⟦<L as Link>⟧ job out × (is_unrun out ≡ false)
        × HasLeft ⟦<L as Link>⟧ job out };

    ghost gives_up = { λ job out. OutOf ⟦<L as Link>⟧ job out × (is_unrun out ≡ true)
        × IsUntouched ⟦<L as Link>⟧ job out };

    ghost kind_of = { kind_of };

    fn work<W: Wait>(self, rt: &W, alloc: Global) -> ServeOut<R, L> {
        match self {
            ServeJob::Worker(WorkerJob { mut board, gate }) => {
                let ended = work(rt, alloc, &mut board, &gate);
                ServeOut::Worker(board, Some(ended))
            }
            ServeJob::Session(SessionJob { mut desk, mut link }) => {
                let ended = serve_session(rt, alloc, &mut link, &mut desk);
                desk.leave();
                ServeOut::Session(desk, link, Some(ended))
            }
        }
    }

    fn give_up(self) -> ServeOut<R, L> {
        match self {
            ServeJob::Worker(WorkerJob { board, gate: _ }) => ServeOut::Worker(board, None),
            ServeJob::Session(SessionJob { desk, mut link }) => {
                link.close();
                ServeOut::Session(desk, link, None)
            }
        }
    }

    fn kind(&self) -> u8 {
        match self {
            ServeJob::Worker(_) => 0,
            ServeJob::Session(_) => 1,
        }
    }
}
