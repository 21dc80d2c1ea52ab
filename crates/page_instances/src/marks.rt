// What is kept of each handler for good: what it was, and what became of it. The marks of an instance stand
// in the order of registration, so the first held mark of a kind is the mark of the first held handler of
// that kind.
ghost use Rattle.std.specs.Prelude.{◌≡◌, ◌++◌, ◌∷◌, [], OnOk};
ghost use Rattle.output_lines.specs.declared.words.HandlerEnd.TheVariants.{Held, Spent};
ghost use Rattle.page_instances.specs.Marks.{is_of, is_kind, is_held_of, marks_dropped, first_ended};

use hmr_types::HandlerKind;
use output_lines::{Handled, HandlerEnd};
use std::alloc::AllocError;

/// A handler that was registered, and what became of it.
#[derive(Drop)]
pub struct Mark {
    pub kind: HandlerKind,
    pub handled: Handled,
    pub end: HandlerEnd,
}

/// Which of the held handlers are dropped.
#[derive(Clone, Copy)]
pub enum Those {
    /// Those of a kind.
    Kind(HandlerKind),
    /// All but the callbacks on the module itself.
    ButOwn,
    /// All.
    All,
}

fn is_kind(kind: HandlerKind, other: HandlerKind) -> bool
    ensures { result ≡ is_kind kind other }
{
    match kind {
        HandlerKind::Dispose => matches!(other, HandlerKind::Dispose),
        HandlerKind::Prune => matches!(other, HandlerKind::Prune),
        HandlerKind::Own => matches!(other, HandlerKind::Own),
        HandlerKind::Dep => matches!(other, HandlerKind::Dep),
    }
}

fn is_of(those: Those, kind: HandlerKind) -> bool
    ensures { result ≡ is_of those kind }
{
    match those {
        Those::Kind(one) => is_kind(one, kind),
        Those::ButOwn => !is_kind(HandlerKind::Own, kind),
        Those::All => true,
    }
}

fn is_held(mark: &Mark, those: Those) -> bool
    ensures { result ≡ is_held_of (is_of those) mark.now }
{
    matches!(mark.end, HandlerEnd::Held) && is_of(those, mark.kind)
}

/// The held handlers of these kinds are dropped.
pub fn drop_marks(marks: &mut Vec<Mark>, those: Those)
    ensures { marks.new.items ≡ marks_dropped (is_held_of (is_of those)) marks.old.items }
{
    for place in 0..marks.len() {
        if is_held(&marks[place], those) {
            marks[place].end = HandlerEnd::Dropped;
        }
    }
}

/// The first held handler of a kind was run.
pub fn spend_mark(marks: &mut Vec<Mark>, kind: HandlerKind)
    ensures { marks.new.items ≡ first_ended (is_held_of (is_kind kind)) Spent marks.old.items }
{
    for place in 0..marks.len() {
        if is_held(&marks[place], Those::Kind(kind)) {
            marks[place].end = HandlerEnd::Spent;
            return;
        }
    }
}

/// One handler more is held. It fails only where memory runs out.
pub fn add_mark(
    marks: &mut Vec<Mark>,
    kind: HandlerKind,
    handled: Handled,
) -> Result<(), AllocError>
    ensures { OnOk result
        (marks.new.items ≡ marks.old.items ++ record { kind = kind; handled = handled; end = Held } ∷ []) }
{
    marks.push(Mark {
        kind,
        handled,
        end: HandlerEnd::Held,
    })?;
    Ok(())
}
