// What the types of events keep of each event that a line of a record has.
ghost use Rattle.std.specs.Prelude.{◌≤◌, All};
ghost use Rattle.hmr_types.specs.declared.limits.TheConstants.{LARGEST_CLIENT};
ghost use Rattle.module_semantics.specs.Analysis.{transformed};
ghost use Rattle.module_semantics.specs.ModuleText.{parsing};
ghost use Rattle.core_model.specs.Transcript.{IsTrueEvent};
ghost use Rattle.events_and_replies.specs.Said.{event_of};
ghost use Rattle.record_text.specs.Numbers.{largest_count};
ghost use Rattle.record_agreement.specs.Recordable.{HasClient, HasCount, IsRecordable};

use event_facts::{note_event, note_result};
use events_and_replies::Event;
use hmr_types::{ClientId, Ver};

/// Each event is one that a line of a record can have, and its result is true. It takes time in the number of
/// their names.
pub(crate) fn note_events(events: &[Event])
    ensures recordable { All (λ event. IsRecordable (event_of event)) events.now }
    ensures true_results { All (λ event. IsTrueEvent (transformed parsing) (event_of event)) events.now }
{
    for event in events.iter() {
        note_recordable(event);
        note_result(event);
    }
}

// One event.
fn note_recordable(event: &Event)
    ensures { IsRecordable (event_of event.now) }
{
    note_event(event);
    note_client(event);
    note_count(event);
}

// Its client has the number of one.
fn note_client(event: &Event)
    ensures { HasClient (event_of event.now) }
{
    match event {
        Event::Ask(client)
        | Event::Fetch(client, _)
        | Event::Applied(client, _)
        | Event::Aborted(client)
        | Event::Invalidate(client, _, _)
        | Event::Disconnect(client) => note_number(*client),
        Event::Edit(_, _) | Event::Settle(_, _) | Event::Connect(_) => (),
    }
}

// Its version has at most 64 bits.
fn note_count(event: &Event)
    ensures { HasCount (event_of event.now) }
{
    match event {
        Event::Settle(_, version) | Event::Invalidate(_, _, version) => note_version(*version),
        Event::Edit(_, _)
        | Event::Connect(_)
        | Event::Ask(_)
        | Event::Fetch(_, _)
        | Event::Applied(_, _)
        | Event::Aborted(_)
        | Event::Disconnect(_) => (),
    }
}

fn note_number(client: ClientId)
    ensures { client ≤ LARGEST_CLIENT }
{}

fn note_version(version: Ver)
    ensures { version ≤ largest_count }
{}
