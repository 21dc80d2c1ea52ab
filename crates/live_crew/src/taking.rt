// What a job leaves is taken in: its pass, and its door.
ghost use Rattle.std.specs.Prelude.{◌≡◌, ◌<◌, ◌++◌, ◌∷◌, [], List, is_some, true, vec_capacity, vec_len};
ghost use Rattle.std.specs.Arc.{arc_value};
ghost use Rattle.core_model.specs.Names.{Name};
ghost use Rattle.hmr_hub.specs.Passes.{IsPassOf, hub_mark};
ghost use Rattle.live_crew.specs.Crews.{TakenIn};
ghost use Rattle.live_crew.specs.Doors.{OutIsHeld, kind_out};
ghost use Rattle.live_crew.specs.Held.{TakenBack};
ghost use Rattle.live_crew.specs.Outs.{OutIsGood};

use crate::attendant::HubAttendant;
use crate::job::LiveOut;
use doors::{Door, Entrance};
use hmr_hub::{Hub, Pass};

/// Takes in what a job leaves: its door goes back to the entrance, and its pass to the others.
pub(crate) fn take_in<R: Drop, E: Entrance, S: Drop>(
    hub: &Hub,
    entrance: &mut E,
    out: LiveOut<R, E::Door, S>,
    passes: &mut Vec<Pass>,
)
where
    E::Door: Drop,
    requires good { OutIsGood ⟦<E::Door as Door>⟧ (hub_mark hub.now) out }
    requires room { vec_len passes.old < vec_capacity passes.old }
    ensures taken { TakenIn hub.now passes.old passes.new }
    ensures back { (roots : List Name) → OutIsHeld roots out
        → TakenBack roots (kind_out out) passes.old.items passes.new.items }
    ensures shut { E.is_shut entrance.new ≡ E.is_shut entrance.old }
{
    match out {
        LiveOut::Worker(board, _ended) => put_pass(hub, board.into_pass(), passes),
        LiveOut::Door(door, attendant, _ended) => {
            entrance.take_back(door);
            put_pass(hub, attendant.into_pass(), passes);
        }
    }
}

// Puts a pass of the hub to the others.
fn put_pass(hub: &Hub, pass: Pass, passes: &mut Vec<Pass>)
    requires of { IsPassOf hub.now pass }
    requires room { vec_len passes.old < vec_capacity passes.old }
    ensures taken { TakenIn hub.now passes.old passes.new }
    ensures items { passes.new.items ≡ passes.old.items ++ pass ∷ [] }
{
    let _hub = hub;
    passes.push_reserved(pass);
}

/// Puts the pass of an attendant to the others.
pub(crate) fn hand_back<R: Drop, S: Drop>(attendant: HubAttendant<R, S>, passes: &mut Vec<Pass>)
    requires there { is_some attendant.pass ≡ true }
    requires room { vec_len passes.old < vec_capacity passes.old }
    ensures taken { TakenIn (arc_value attendant.hub) passes.old passes.new }
{
    passes.push_reserved(attendant.into_pass());
}
