// What was read of a record so far, and what a line makes of it. A core is told the events again, and what a
// line says of it is compared.
ghost use Rattle.std.specs.Prelude.{◌≡◌, [], ◌∷◌, ◌++◌, List, Ok};
ghost use Rattle.core_model.specs.Names.{Name};
ghost use Rattle.record_laws.specs.Course as meant;
ghost use Rattle.record_laws.specs.Course.{Replayed, in_roots, taken, taken_between, taken_in_roots};
ghost use Rattle.record_laws.specs.Course.{taken_within};
ghost use Rattle.transcript_check.specs.Following.{IsAt, IsBetween, IsSomeBetween, IsSomeWithin};
ghost use Rattle.transcript_check.specs.Following.{IsSomewhere, IsTaken, IsWithin, kept_roots, opened_as};

use crate::entry::{add_piece, answer, begin, begin_first, rest};
use crate::halt::{Halt, bad};
use crate::replay::{Opened, Replay};
use hmr_types::ModName;
use hmr_types::limits::ROOTS;
use record_text::Said;
use std::alloc::Global;

/// What was read of a record so far.
#[derive(Drop)]
pub(crate) enum Course {
    /// Roots: all of them, or one more than a core can have.
    InRoots(Vec<ModName>),
    /// Whole entries; and whether a client may be said to be at rest behind them.
    Between(Replay, bool),
    /// Whole entries, and an event whose reply is to come; and how many bytes are left behind it.
    Within(Replay, Opened, usize),
}

/// What is read behind a line of this number, which says this; or why the line is wrong.
pub(crate) fn take(alloc: Global, course: Course, line: u64, said: Said) -> Result<Course, Halt>
    requires somewhere { IsSomewhere course }
    ensures { (so_far : meant.Course) → IsAt so_far course → IsTaken result (taken line said so_far) }
{
    match course {
        Course::InRoots(roots) => take_in_roots(alloc, roots, line, said),
        Course::Between(replay, may) => take_between(alloc, replay, may, line, said),
        Course::Within(replay, opened, left) => {
            take_within(alloc, replay, opened, left, line, said)
        }
    }
}

fn take_in_roots(alloc: Global, roots: Vec<ModName>, line: u64, said: Said) -> Result<Course, Halt>
    ensures { (told : List Name) → roots.items ≡ kept_roots told
        → IsTaken result (taken_in_roots line told said) }
{
    match said {
        Said::Root(name) => add_root(roots, name),
        Said::Event(event) => begin_first(alloc, roots, line, event),
        Said::Text(_) | Said::Last(_) | Said::Reply(_) | Said::Rest(_, _) => Err(bad(line)),
    }
}

// One more root. Behind too many for a core no more are kept, so that no record of roots alone is held.
fn add_root(roots: Vec<ModName>, name: ModName) -> Result<Course, Halt>
    ensures { (told : List Name) → roots.items ≡ kept_roots told
        → IsTaken result (Ok (in_roots (told ++ name ∷ []))) }
{
    if roots.len() > ROOTS {
        return Ok(Course::InRoots(roots));
    }
    let mut names = roots;
    names.push(name)?;
    Ok(Course::InRoots(names))
}

fn take_between(
    alloc: Global,
    replay: Replay,
    may: bool,
    line: u64,
    said: Said,
) -> Result<Course, Halt>
    requires between { IsSomeBetween may replay }
    ensures { (r : Replayed) → IsBetween r may replay → IsTaken result (taken_between line r may said) }
{
    match said {
        Said::Event(event) => begin(replay, line, event),
        Said::Rest(client, table) => rest(alloc, replay, may, line, client, &table),
        Said::Root(_) | Said::Text(_) | Said::Last(_) | Said::Reply(_) => Err(bad(line)),
    }
}

fn take_within(
    alloc: Global,
    replay: Replay,
    opened: Opened,
    left: usize,
    line: u64,
    said: Said,
) -> Result<Course, Halt>
    requires within { IsSomeWithin opened replay left }
    ensures { (r : Replayed) → IsWithin r (opened_as opened) replay left
        → IsTaken result (taken_within line r (opened_as opened) said) }
{
    match said {
        Said::Text(piece) => add_piece(replay, opened, line, true, &piece),
        Said::Last(piece) => add_piece(replay, opened, line, false, &piece),
        Said::Reply(reply) => answer(alloc, replay, opened, left, line, &reply),
        Said::Root(_) | Said::Event(_) | Said::Rest(_, _) => Err(bad(line)),
    }
}
