// The spelling of each word that stands in a line.
ghost use Rattle.std.specs.Prelude.{◌≡◌};
ghost use Rattle.word_texts.specs.Words.{fault_word, refusal_word, plan_word, cause_word, place_word};
ghost use Rattle.word_texts.specs.Words.{kind_word, state_word, end_word, status_word, ending_word};

use hmr_types::{EditRefusal, FaultWord, HandlerKind, PlanKind, ReloadCause};
use output_lines::{ClientState, EndWord, FaultPlace, HandlerEnd, InstanceStatus};

/// What is wrong with a module text, as stands behind its line and column.
pub fn fault_str(word: FaultWord) -> &'static str
    ensures { result.now ≡ fault_word word }
{
    match word {
        FaultWord::BadByte => "bad-byte",
        FaultWord::OpenString => "open-string",
        FaultWord::OpenComment => "open-comment",
        FaultWord::BadEscape => "bad-escape",
        FaultWord::NumberTooLarge => "number-too-large",
        FaultWord::TooManyTokens => "too-many-tokens",
        FaultWord::Unexpected => "unexpected",
        FaultWord::TooDeep => "too-deep",
        FaultWord::DuplicateName => "duplicate-name",
        FaultWord::NotUtf8 => "not-utf8",
        FaultWord::NotAssignable => "not-assignable",
        FaultWord::SpecifierBare => "specifier-bare",
        FaultWord::SpecifierClimbs => "specifier-climbs",
        FaultWord::SpecifierEmpty => "specifier-empty",
        FaultWord::SpecifierTooLong => "specifier-too-long",
        FaultWord::SpecifierBadSegment => "specifier-bad-segment",
        FaultWord::TooManyImports => "too-many-imports",
    }
}

/// Why an edit is refused, as stands behind `refused`.
pub fn refusal_str(word: EditRefusal) -> &'static str
    ensures { result.now ≡ refusal_word word }
{
    match word {
        EditRefusal::TextTooLong => "text-too-long",
        EditRefusal::TooManyNames => "too-many-names",
        EditRefusal::SourceTotal => "source-total",
        EditRefusal::NumbersSpent => "numbers-spent",
    }
}

/// The word of a client that applied a plan, by what the plan was.
pub fn plan_str(plan: PlanKind) -> &'static str
    ensures { result.now ≡ plan_word plan }
{
    match plan {
        PlanKind::Load => "loaded",
        PlanKind::Reload => "reloaded",
        PlanKind::Update => "updated",
    }
}

/// Why a page is loaded anew, as `reload` lines have it.
pub fn cause_str(cause: ReloadCause) -> &'static str
    ensures { result.now ≡ cause_word cause }
{
    match cause {
        ReloadCause::Root => "root",
        ReloadCause::Declined => "declined",
    }
}

/// Which code met a fault, as `fault` lines have it.
pub fn place_str(place: FaultPlace) -> &'static str
    ensures { result.now ≡ place_word place }
{
    match place {
        FaultPlace::Module => "module",
        FaultPlace::Dispose => "dispose",
        FaultPlace::Prune => "prune",
        FaultPlace::Own => "own",
        FaultPlace::Dep => "dep",
    }
}

/// The kind of a handler, as the lines of handlers have it.
pub fn kind_str(kind: HandlerKind) -> &'static str
    ensures { result.now ≡ kind_word kind }
{
    match kind {
        HandlerKind::Dispose => "dispose",
        HandlerKind::Prune => "prune",
        HandlerKind::Own => "own",
        HandlerKind::Dep => "dep",
    }
}

/// How far a client is, as `client` lines have it.
pub fn state_str(state: ClientState) -> &'static str
    ensures { result.now ≡ state_word state }
{
    match state {
        ClientState::Up => "up",
        ClientState::Behind => "behind",
    }
}

/// How a handler ended, as the lines of handlers have it.
pub fn end_str(end: HandlerEnd) -> &'static str
    ensures { result.now ≡ end_word end }
{
    match end {
        HandlerEnd::Held => "held",
        HandlerEnd::Spent => "spent",
        HandlerEnd::Dropped => "dropped",
    }
}

/// How far the evaluation of an instance went, as the lines of instances have it.
pub fn status_str(status: InstanceStatus) -> &'static str
    ensures { result.now ≡ status_word status }
{
    match status {
        InstanceStatus::Done => "done",
        InstanceStatus::Faulted => "faulted",
        InstanceStatus::Unrun => "unrun",
    }
}

/// How a session ended, as stands behind `ended`.
pub fn ending_str(word: EndWord) -> &'static str
    ensures { result.now ≡ ending_word word }
{
    match word {
        EndWord::Link => "link",
        EndWord::Message => "message",
        EndWord::Stopped => "stopped",
        EndWord::Memory => "memory",
        EndWord::Unexpected => "unexpected",
        EndWord::Instances => "instances",
    }
}
