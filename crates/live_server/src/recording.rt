// The record of a hub's transcript.
ghost use Rattle.std.specs.Prelude.{◌≡◌, IfOk};
ghost use Rattle.core_model.specs.Roots.{AreRoots};
ghost use Rattle.hmr_hub.specs.Calls.{Looked, SameKnower};
ghost use Rattle.hmr_hub.specs.Passes.{HasTranscript, IsPassOf, roots_of};
ghost use Rattle.live_server.specs.Serving.{IsRecordOf};

use hmr_hub::{Hub, Pass};
use hmr_types::ModName;
use std::alloc::{AllocError, Global};
use std::sync::Wait;
use transcript_check::write_record;
use written_records::records_are_confirmed;

/// The record of all that the pass has then seen, on a hub of these roots, of which the check of records says
/// yes. It waits for the turn, and takes time and memory in proportion to the names and texts of all entries.
pub(crate) fn put_record<R: Wait>(
    rt: &R,
    alloc: Global,
    hub: &Hub,
    pass: &mut Pass,
    roots: &[ModName],
) -> Result<Vec<u8>, AllocError>
    requires of { IsPassOf hub.now pass.old }
    requires are_roots { AreRoots roots.now }
    requires roots { roots_of pass.old ≡ roots.now }
    ensures same { SameKnower pass.old pass.new }
    ensures looked { Looked pass.old pass.new }
    ensures transcript { HasTranscript pass.new }
    ensures record_is { IfOk result (λ bytes. IsRecordOf pass.new bytes.items) }
{
    let events = hub.events(rt, pass)?;
    records_are_confirmed(roots, &events);
    write_record(alloc, roots, &events)
}
