// The clients that events wait for, behind a step of the world.
ghost use Rattle.std.specs.Prelude.{List, OnOk};
ghost use Rattle.hot_events.specs.Calls as lists;
ghost use Rattle.hot_events.specs.Calls.{Call};
ghost use Rattle.event_runs.specs.Courses.{calls_of};

use crate::event_step::Passage;
use crate::lines::opened_by;
use hot_events::Waiting;
use output_lines::OutLine;
use std::alloc::AllocError;

/// A client that came, by the lines of the step, gets events from now on, and one that went gets none.
/// [`AllocError`] comes where memory runs out; then no clause says what waits. It takes time in the number of
/// clients.
pub fn pass(waiting: &mut Waiting, passage: Passage, lines: &[OutLine]) -> Result<(), AllocError>
    ensures { (past : List Call) → lists.StandsFor past waiting.old
        → OnOk result (lists.StandsFor (calls_of passage lines.now past) waiting.new) }
{
    match passage {
        Passage::Comes => match opened_by(lines) {
            Some(client) => waiting.enter(client),
            None => Ok(()),
        },
        Passage::Goes(client) => {
            waiting.leave(client);
            Ok(())
        }
        Passage::Stays => Ok(()),
    }
}
