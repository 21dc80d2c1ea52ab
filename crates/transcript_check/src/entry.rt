// The lines of an entry: its event, the pieces of the text, the reply, and a client at rest behind it.
ghost use Rattle.std.specs.Prelude.{◌≡◌, ◌+◌, ℕ, Bool, true};
ghost use Rattle.hmr_types.specs.ModName.{is_text};
ghost use Rattle.record_laws.specs.Course.{Replayed, answered, begun, first_begun, rested};
ghost use Rattle.record_laws.specs.Course.{roots_fault, with_event, with_more};
ghost use Rattle.transcript_check.specs.Following.{IsBetween, IsOpen, IsSomeBetween, IsSomeWithin};
ghost use Rattle.transcript_check.specs.Following.{IsTaken, IsWithin, opened_as};

use crate::core_event::core_event;
use crate::course::Course;
use crate::halt::{Halt, bad};
use crate::opening::new_core;
use crate::replay::{Opened, Replay, rests_with, tell};
use crate::weighing::left_behind;
use event_facts::MOST_BYTES;
use hmr_types::{ClientId, ModName, Sequence, Table};
use record_laws::Why;
use record_text::{RecordEvent, has_text, with_piece, write_reply};
use std::alloc::Global;

/// The first event, behind its roots.
pub(crate) fn begin_first(
    alloc: Global,
    roots: Vec<ModName>,
    line: u64,
    event: RecordEvent,
) -> Result<Course, Halt>
    ensures { IsTaken result (first_begun (roots_fault roots.items) line event roots.items) }
{
    let core = new_core(alloc, line, roots)?;
    let replay = Replay {
        core,
        steps: 0,
        rests: 0,
        left: MOST_BYTES,
    };
    begin(replay, line, event)
}

/// An event begins on the line of this number.
pub(crate) fn begin(replay: Replay, line: u64, event: RecordEvent) -> Result<Course, Halt>
    ensures { (may : Bool) (r : Replayed) → IsBetween r may replay → IsTaken result (begun line event r) }
{
    let text = has_text(&event);
    place(replay, Opened { line, event, text })
}

/// An event has a place, as far as its text was read.
fn place(replay: Replay, opened: Opened) -> Result<Course, Halt>
    ensures { (r : Replayed) → IsOpen r replay → IsTaken result (with_event (opened_as opened) r) }
{
    match left_behind(replay.steps, replay.left, &opened.event) {
        Some(left) => Ok(Course::Within(replay, opened, left)),
        None => Err(Halt::At(opened.line, Why::Limit)),
    }
}

/// One more piece of the text of an event, where one may come; behind it another may come, or not.
pub(crate) fn add_piece(
    replay: Replay,
    opened: Opened,
    line: u64,
    more: bool,
    piece: &Sequence<u8>,
) -> Result<Course, Halt>
    ensures { (left : ℕ) (r : Replayed) → IsWithin r (opened_as opened) replay left
        → IsTaken result (with_more line more piece.now (opened_as opened) r) }
{
    if !opened.text {
        return Err(bad(line));
    }
    let event = with_piece(opened.event, piece)?;
    let longer = Opened {
        line: opened.line,
        event,
        text: more,
    };
    place(replay, longer)
}

/// The reply to the event above. The core is told the event, and the reply is compared with its own.
pub(crate) fn answer(
    alloc: Global,
    replay: Replay,
    opened: Opened,
    left: usize,
    line: u64,
    reply: &Sequence<u8>,
) -> Result<Course, Halt>
    requires within { IsSomeWithin opened replay left }
    ensures { (r : Replayed) → IsWithin r (opened_as opened) replay left
        → IsTaken result (answered line reply.now (opened_as opened) r) }
{
    let Replay {
        mut core,
        steps,
        rests,
        ..
    } = replay;
    let event = core_event(alloc, opened.event)?;
    let told = tell(alloc, &mut core, event)?;
    let text = write_reply(alloc, &told)?;
    if !is_text(reply.as_slice(), text.as_slice()) {
        return Err(Halt::At(line, Why::Reply));
    }
    let replay = Replay {
        core,
        steps: steps + 1,
        rests,
        left,
    };
    Ok(Course::Between(replay, true))
}

fn is_text(bytes: &[u8], text: &[u8]) -> bool
    ensures { result ≡ is_text bytes.now text.now }
{
    bytes == text
}

/// Directly behind an entry, a client is said to be at rest with a table.
pub(crate) fn rest(
    alloc: Global,
    replay: Replay,
    may: bool,
    line: u64,
    client: ClientId,
    table: &Table,
) -> Result<Course, Halt>
    requires between { IsSomeBetween may replay }
    ensures { (r : Replayed) → IsBetween r may replay
        → IsTaken result (rested line client table.now may r) }
{
    if !may {
        return Err(bad(line));
    }
    let rests = rests_with(alloc, &replay.core, client, table)?;
    if !rests {
        return Err(Halt::At(line, Why::Rest));
    }
    Ok(Course::Between(counted(replay), false))
}

fn counted(replay: Replay) -> Replay
    requires { IsSomeBetween true replay }
    ensures { result ≡ record replay { rests = replay.rests + 1 } }
{
    let Replay {
        core,
        steps,
        rests,
        left,
    } = replay;
    Replay {
        core,
        steps,
        rests: rests + 1,
        left,
    }
}
