// One event told to a hub by a pass, and whether the transcript is full since then.
ghost use Rattle.std.specs.Prelude.{◌≡◌, ◌≤◌, false, true};
ghost use Rattle.hmr_types.specs.declared.limits.TheConstants.{MESSAGE_BYTES};
ghost use Rattle.core_model.specs.Transcript.{event_bytes};
ghost use Rattle.events_and_replies.specs.Said.{event_of};
ghost use Rattle.hmr_hub.specs.Passes.{HasTranscript, IsPassOf, number_of, seen_of};
ghost use Rattle.transcripts.specs.Transcripts.{HasVersion, may_make};
ghost use Rattle.session_desks.specs.Fullness.{is_nearly_full};
ghost use Rattle.session_desks.specs.Telling.{Told, lacks_memory};
ghost use Rattle.transform_pool.specs.Boards.{full_after};

use events_and_replies::{Event, Reply};
use hmr_hub::{Hub, Pass};
use std::sync::Wait;
use update_msgs::HubStop;

/// Tells a hub an event of at most 16,777,216 bytes, and sets `full` where the transcript has no place for
/// it. It waits.
pub(crate) fn tell<R: Wait>(
    rt: &R,
    hub: &Hub,
    pass: &mut Pass,
    full: &mut bool,
    event: Event,
) -> Result<Reply, HubStop>
    requires of { IsPassOf hub.now pass.old }
    requires may { may_make (number_of pass.old) (event_of event) ≡ true }
    requires version { HasVersion (event_of event) }
    requires short { event_bytes (event_of event) ≤ MESSAGE_BYTES }
    ensures of { IsPassOf hub.now pass.new }
    ensures told { Told (event_of event) result pass.old pass.new full.old full.new }
    ensures transcript { HasTranscript pass.new }
    ensures near_full { (full.old ≡ true → is_nearly_full (seen_of pass.old) ≡ true)
        → full.new ≡ true → is_nearly_full (seen_of pass.new) ≡ true }
{
    let told = hub.call(rt, pass, event);
    *full = *full || is_full(&told);
    told
}

// Whether the transcript had no place.
fn is_full(told: &Result<Reply, HubStop>) -> bool
    ensures { result ≡ full_after false told.now }
{
    matches!(told, Err(HubStop::TranscriptFull))
}

/// Whether there was no memory.
pub(crate) fn lacks_memory(told: &Result<Reply, HubStop>) -> bool
    ensures { result ≡ lacks_memory told.now }
{
    matches!(told, Err(HubStop::NoMemory))
}
