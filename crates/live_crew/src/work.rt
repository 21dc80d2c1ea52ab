// Jobs are worked, or given up.
ghost use Rattle.std.specs.Prelude.{◌≡◌, false};

use crate::job::{LiveDoor, LiveJob, LiveOut, LiveWorker};
use doors::{Door, serve_door};
use jobs::{Job, OpenGate};
use live_site::Site;
use std::alloc::Global;
use std::sync::Wait;
use transform_pool::work;

impl<R: Wait + Copy + Drop, D: Door + Drop, S: Site + Drop> Job for LiveJob<R, D, S> {
    type Out = LiveOut<R, D, S>;

    ghost use Rattle.live_crew.specs.Outs.{OutOf, kind_of};

    ghost works = { λ job out. OutOf ⟦<D as Door>⟧ job out };

    ghost gives_up = { λ job out. OutOf ⟦<D as Door>⟧ job out };

    ghost kind_of = { kind_of };

    fn work<W: Wait>(self, rt: &W, alloc: Global) -> LiveOut<R, D, S> {
        match self {
            LiveJob::Worker(LiveWorker { mut board }) => {
                let ended = work(rt, alloc, &mut board, &OpenGate);
                LiveOut::Worker(board, Some(ended))
            }
            LiveJob::Door(
                LiveDoor {
                    mut door,
                    mut attendant,
                },
            ) => {
                let ended = serve_door(rt, alloc, &mut door, &mut attendant);
                LiveOut::Door(door, attendant, Some(ended))
            }
        }
    }

    fn give_up(self) -> LiveOut<R, D, S> {
        match self {
            LiveJob::Worker(LiveWorker { board }) => LiveOut::Worker(board, None),
            LiveJob::Door(LiveDoor { door, attendant }) => LiveOut::Door(door, attendant, None),
        }
    }

    fn kind(&self) -> u8 {
        match self {
            LiveJob::Worker(_) => 0,
            LiveJob::Door(_) => 1,
        }
    }
}
