// One visitor after another, until the door is shut or the attendant has enough.
ghost use Rattle.std.specs.Prelude.{◌≡◌, ◌≤◌, ◌↔◌, true, false};
ghost use Rattle.transport.specs.declared.link.Phase.{Phase};
ghost use Rattle.transport.specs.Told.{IsNoneLeft};
ghost use Rattle.doors.specs.Accepting.{one_more};

use crate::{Attendant, Door};
use std::alloc::Global;
use std::sync::Wait;

/// Why no more visitors are served.
#[derive(Clone, Copy, Debug, PartialEq, Eq)]
pub enum DoorEnd {
    /// The door answered that no more come.
    Shut,
    /// The attendant serves no more.
    Done,
}

/// Accepts visitors, lets the attendant serve each, and gives its end back, until the door answers that no
/// more come, or the attendant serves no more. Where the door refuses an end it rests, and goes on.
///
/// Each end that was accepted was served once, is shut, and was given back before the next was accepted, and
/// the door is asked for none after it has answered that no more come: so a door that tells what is to come
/// has then nothing left. It waits, and has no bound on visitors.
pub fn serve_door<R: Wait, D: Door, A: Attendant>(
    rt: &R,
    alloc: Global,
    door: &mut D,
    attendant: &mut A,
) -> DoorEnd
    requires going { D.is_shut door.old ≡ false }
    requires back { D.is_out door.old ≡ false }
    requires ready { A.is_done attendant.old ≡ false }
    requires even { A.visits attendant.old ≡ D.visits door.old }
    ensures back { D.is_out door.new ≡ false }
    ensures even { A.visits attendant.new ≡ D.visits door.new }
    ensures shut { result ≡ DoorEnd.Shut ↔ D.is_shut door.new ≡ true }
    ensures done { result ≡ DoorEnd.Done ↔ A.is_done attendant.new ≡ true }
    ensures all { result ≡ DoorEnd.Shut → IsNoneLeft (D.coming door.new) }
    ensures later { D.faults door.old ≤ D.faults door.new }
    ensures stays { A.stays attendant.old attendant.new }
{
    for _ in rt.forever() {
        if let Some(end) = serve_next(rt, alloc, door, attendant) {
            return end;
        }
    }
    unreachable!()
}

// Waits for the next visitor, and serves it. None: it goes on.
fn serve_next<R: Wait, D: Door, A: Attendant>(
    rt: &R,
    alloc: Global,
    door: &mut D,
    attendant: &mut A,
) -> Option<DoorEnd>
    requires going { D.is_shut door.old ≡ false }
    requires back { D.is_out door.old ≡ false }
    requires ready { A.is_done attendant.old ≡ false }
    requires even { A.visits attendant.old ≡ D.visits door.old }
    ensures back { D.is_out door.new ≡ false }
    ensures even { A.visits attendant.new ≡ D.visits door.new }
    ensures shut { result ≡ Some DoorEnd.Shut ↔ D.is_shut door.new ≡ true }
    ensures done { result ≡ Some DoorEnd.Done ↔ A.is_done attendant.new ≡ true }
    ensures all { result ≡ Some DoorEnd.Shut → IsNoneLeft (D.coming door.new) }
    ensures later { D.faults door.old ≤ D.faults door.new }
    ensures stays { A.stays attendant.old attendant.new }
{
    match door.accept(alloc) {
        Ok(Some(end)) => {
            serve_end(rt, alloc, door, attendant, end);
            if attendant.is_done() {
                Some(DoorEnd::Done)
            } else {
                None
            }
        }
        Ok(None) => Some(DoorEnd::Shut),
        Err(_) => {
            door.pause();
            None
        }
    }
}

// Lets the attendant serve a visitor, and gives its end back.
fn serve_end<R: Wait, D: Door, A: Attendant>(
    rt: &R,
    alloc: Global,
    door: &mut D,
    attendant: &mut A,
    mut end: D::End,
)
    requires out { D.is_out door.old ≡ true }
    requires ready { A.is_done attendant.old ≡ false }
    requires fresh { D.End.phase end ≡ Phase.Fresh }
    requires clean { D.End.faults end ≡ 0 }
    ensures back { D.is_out door.new ≡ false }
    ensures is_shut { D.is_shut door.new ≡ D.is_shut door.old }
    ensures visits { D.visits door.new ≡ D.visits door.old }
    ensures attended { A.visits attendant.new ≡ one_more (A.visits attendant.old) }
    ensures coming { D.coming door.new ≡ D.coming door.old }
    ensures later { D.faults door.old ≤ D.faults door.new }
    ensures stays { A.stays attendant.old attendant.new }
{
    attendant.attend(rt, alloc, &mut end);
    door.retire(end);
}
