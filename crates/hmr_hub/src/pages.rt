// What an event is to the pages of clients: one comes, one goes, or neither. Of one that goes the core
// forgets the page, so it is kept for the report.
ghost use Rattle.std.specs.Prelude.{◌≡◌, ◌∷◌, ◌<◌, ◌≤◌, ℕ, IfOk, List, length, vec_capacity, vec_len};
ghost use Rattle.core_model.specs.Core as model;
ghost use Rattle.core_model.specs.Core.{core_after, step};
ghost use Rattle.core_model.specs.Names.{Name};
ghost use Rattle.server_core.specs.Kept.{StandsFor};
ghost use Rattle.events_and_replies.specs.Said.{event_of, said};
ghost use Rattle.hmr_hub.specs.Pages.{ArePages, Page};
ghost use Rattle.hmr_hub.specs.Passages.{IsPassage, is_to};
ghost use Rattle.hmr_hub.specs.declared.passage.Passage.TheVariants.{Goes};

use crate::passage::Passage;
use events_and_replies::{Event, Reply};
use hmr_types::Table;
use server_core::Core;
use std::alloc::{AllocError, Global};

/// What an event will be to the pages of clients. Of a client that goes it copies the page.
pub(crate) fn passage_of(alloc: Global, core: &Core, event: &Event) -> Result<Passage, AllocError>
    ensures { (past : List model.Event) → StandsFor past core.now
        → IfOk result (IsPassage (core_after core.now.roots past) (event_of event.now)) }
{
    match event {
        Event::Connect(_) => Ok(Passage::Comes),
        Event::Disconnect(client) => match core.table(alloc, *client)? {
            Some(page) => Ok(Passage::Goes(*client, page)),
            None => Ok(Passage::Stays),
        },
        Event::Edit(_, _)
        | Event::Settle(_, _)
        | Event::Ask(_)
        | Event::Fetch(_, _)
        | Event::Applied(_, _)
        | Event::Aborted(_)
        | Event::Invalidate(_, _, _) => Ok(Passage::Stays),
    }
}

/// The event was answered so. There is room for a client that came.
pub(crate) fn note_passage(pages: &mut Vec<Option<Table>>, passage: Passage, reply: &Reply)
    requires room { vec_len pages.old < vec_capacity pages.old }
    requires given { (i : ℕ) (page : Page) → passage ≡ Goes i page → (1 ≤ i) × (i ≤ length pages.old.items) }
    ensures { (roots : List Name) (past : List model.Event) (event : model.Event)
        → ArePages roots past pages.old.items → IsPassage (core_after roots past) event passage
        → said (step roots (core_after roots past) event).1 ≡ reply.now
        → ArePages roots (event ∷ past) pages.new.items }
{
    match passage {
        Passage::Comes => {
            if has_come(reply) {
                pages.push_reserved(None);
            }
        }
        Passage::Goes(client, page) => pages[client as usize - 1] = Some(page),
        Passage::Stays => (),
    }
}

// Whether a client that came was taken.
fn has_come(reply: &Reply) -> bool
    ensures { result ≡ is_to reply.now }
{
    matches!(reply, Reply::To(_))
}
