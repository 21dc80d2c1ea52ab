// The job of a door: its visitors are served in a thread, and door and attendant are handed back.
ghost use Rattle.std.specs.Prelude.{◌≡◌, false};
ghost use Rattle.doors.specs.Jobs.{HasServed, IsUnserved};

use crate::serving::{DoorEnd, serve_door};
use crate::{Attendant, Door};
use jobs::Job;
use std::alloc::Global;
use std::sync::Wait;

/// The kind of a door's job.
const SESSION: u8 = 1;

/// A door that is to be served by an attendant.
#[derive(Drop)]
pub struct DoorJob<D: Door + Drop, A: Attendant + Drop> {
    pub(crate) door: D,
    pub(crate) attendant: A,
    ghost going: { D.is_shut door ≡ false },
    ghost back: { D.is_out door ≡ false },
    ghost ready: { A.is_done attendant ≡ false },
    ghost even: { A.visits attendant ≡ D.visits door },
}

/// What is handed back for it: the door, which has no end out, the attendant, and why it ended, which is
/// `None` exactly where the job was given up.
#[derive(Drop)]
pub struct DoorOut<D: Drop, A: Drop> {
    pub door: D,
    pub attendant: A,
    pub ended: Option<DoorEnd>,
}

impl<D: Door + Drop, A: Attendant + Drop> DoorJob<D, A> {
    /// The job of an attendant at a door, both of which had equally many visits.
    pub fn new(door: D, attendant: A) -> Self
        requires going { D.is_shut door ≡ false }
        requires back { D.is_out door ≡ false }
        requires ready { A.is_done attendant ≡ false }
        requires even { A.visits attendant ≡ D.visits door }
        ensures door { result.door ≡ door }
        ensures attendant { result.attendant ≡ attendant }
    {
        DoorJob { door, attendant }
    }
}

impl<D: Door + Drop, A: Attendant + Drop> Job for DoorJob<D, A> {
    type Out = DoorOut<D, A>;

    ghost works = { λ job out. HasServed
        (D.is_out out.door) (D.is_shut out.door) (D.coming out.door)
        (D.visits out.door) (A.visits out.attendant) (A.is_done out.attendant)
        (D.faults job.door) (D.faults out.door)
        (A.stays job.attendant out.attendant) out.ended };

    ghost gives_up = { λ job out. IsUnserved job.door job.attendant out };

    ghost kind_of = { λ _. 1 };

    fn work<R: Wait>(self, rt: &R, alloc: Global) -> DoorOut<D, A> {
        let DoorJob {
            mut door,
            mut attendant,
        } = self;
        let ended = serve_door(rt, alloc, &mut door, &mut attendant);
        DoorOut {
            door,
            attendant,
            ended: Some(ended),
        }
    }

    fn give_up(self) -> DoorOut<D, A> {
        let DoorJob { door, attendant } = self;
        DoorOut {
            door,
            attendant,
            ended: None,
        }
    }

    fn kind(&self) -> u8 {
        SESSION
    }
}
