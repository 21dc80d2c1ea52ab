// An event as a transcript keeps it. Of a result it keeps no outcome, which is that of transforming the
// text, and a table it keeps packed.
ghost use Rattle.std.specs.Prelude.{◌≡◌, IfOk};
ghost use Rattle.events_and_replies.specs.Said.{event_of};
ghost use Rattle.transcripts.specs.KeptEvents.{kept_as};

use events_and_replies::{Event, copy_text};
use hmr_types::{ClientId, ModName, Ver};
use module_graph::copy_of;
use packed_table::PackedTable;
use std::alloc::{AllocError, Global};

/// What is kept of an event.
#[derive(Drop)]
pub enum KeptEvent {
    Edit(ModName, Option<Vec<u8>>),
    Settle(ModName, Vec<u8>, Ver),
    Connect(Vec<ModName>),
    Ask(ClientId),
    Fetch(ClientId, ModName),
    Applied(ClientId, PackedTable),
    Aborted(ClientId),
    Invalidate(ClientId, ModName, Ver),
    Disconnect(ClientId),
}

/// An event under the number of its pass.
#[derive(Drop)]
pub struct Entry {
    pub by: u64,
    pub event: KeptEvent,
}

/// What is kept of this event. It takes time and memory in proportion to its names and texts.
pub fn keep(alloc: Global, event: &Event) -> Result<KeptEvent, AllocError>
    ensures { IfOk result (λ kept. kept_as kept ≡ event_of event.now) }
{
    match event {
        Event::Edit(name, text) => Ok(KeptEvent::Edit(name.clone()?, copy_text(alloc, text)?)),
        Event::Settle(done, version) => {
            let _exact = done.outcome();
            let text = Vec::from_slice(alloc, done.text())?;
            Ok(KeptEvent::Settle(done.name().clone()?, text, *version))
        }
        Event::Connect(names) => Ok(KeptEvent::Connect(copy_of(alloc, names)?)),
        Event::Ask(client) => Ok(KeptEvent::Ask(*client)),
        Event::Fetch(client, name) => Ok(KeptEvent::Fetch(*client, name.clone()?)),
        Event::Applied(client, table) => {
            Ok(KeptEvent::Applied(*client, PackedTable::pack(alloc, table)?))
        }
        Event::Aborted(client) => Ok(KeptEvent::Aborted(*client)),
        Event::Invalidate(client, name, version) => {
            Ok(KeptEvent::Invalidate(*client, name.clone()?, *version))
        }
        Event::Disconnect(client) => Ok(KeptEvent::Disconnect(*client)),
    }
}
