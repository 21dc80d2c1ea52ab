// That an event is well formed: as its types keep it, and with a version that an edit can have.
ghost use Rattle.std.specs.Prelude.{◌≡◌, ◌↔◌, true};
ghost use Rattle.hmr_types.specs.Table.{is_version};
ghost use Rattle.module_semantics.specs.Analysis.{transformed};
ghost use Rattle.module_semantics.specs.ModuleText.{parsing};
ghost use Rattle.core_model.specs.Formed.{IsFormed};
ghost use Rattle.core_model.specs.Transcript.{IsTrueEvent};
ghost use Rattle.events_and_replies.specs.Said.{event_of};
ghost use Rattle.transcripts.specs.Transcripts.{HasVersion};

use event_facts::{note_event, note_result};
use events_and_replies::Event;
use hmr_types::Ver;
use hmr_types::limits::LARGEST_NUMBER;

/// Whether the version of a result or of an invalidation is one that an edit can have. It is true of every
/// other event.
pub fn has_version(event: &Event) -> bool
    ensures { (result ≡ true) ↔ HasVersion (event_of event.now) }
{
    match event {
        Event::Settle(_, version) | Event::Invalidate(_, _, version) => is_version(*version),
        Event::Edit(_, _)
        | Event::Connect(_)
        | Event::Ask(_)
        | Event::Fetch(_, _)
        | Event::Applied(_, _)
        | Event::Aborted(_)
        | Event::Disconnect(_) => true,
    }
}

fn is_version(version: Ver) -> bool
    ensures { result ≡ is_version version }
{
    1 <= version && version <= LARGEST_NUMBER
}

/// The event is well formed, and its result is that of transforming its text. It takes time in the number of
/// its names.
pub fn note_formed(event: &Event)
    requires { HasVersion (event_of event.now) }
    ensures formed { IsFormed (event_of event.now) }
    ensures true_result { IsTrueEvent (transformed parsing) (event_of event.now) }
{
    note_event(event);
    note_result(event);
}
