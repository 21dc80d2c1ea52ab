// A core that is told the events of a record again.
ghost use Rattle.std.specs.Prelude.{◌≡◌, IfOk, List, OnOk, ◌∷◌};
ghost use Rattle.core_model.specs.Core as model;
ghost use Rattle.server_core.specs.Kept.{StandsFor};
ghost use Rattle.events_and_replies.specs.Said.{event_of};
ghost use Rattle.record_text.specs.Told as text;
ghost use Rattle.record_laws.specs.Answers.{reply_after, reply_told};
ghost use Rattle.transcript_check.specs.Following.{IsTold, IsToldSome};
ghost use Rattle.record_laws.specs.Resting.{is_page_with, is_same_table, rests_with};

use crate::telling::reply_told;
use event_facts::note_event;
use events_and_replies::Event;
use hmr_types::{ClientId, Table};
use record_text::{RecordEvent, RecordReply};
use server_core::Core;
use std::alloc::{AllocError, Global};

/// A core that was told the events of a record.
#[derive(Drop)]
pub(crate) struct Replay {
    /// The core.
    pub(crate) core: Core,
    /// How many events it was told.
    pub(crate) steps: u64,
    /// How many times a client was said to be at rest.
    pub(crate) rests: u64,
    /// How many bytes a transcript of these events may still have.
    pub(crate) left: usize,
}

/// An event whose reply is to come.
#[derive(Drop)]
pub(crate) struct Opened {
    /// The number of its line.
    pub(crate) line: u64,
    /// The event, as far as its text was read.
    pub(crate) event: RecordEvent,
    /// Whether a piece of its text may come.
    pub(crate) text: bool,
}

/// Tells a core an event. What comes back is its reply, which can be written.
pub(crate) fn tell(alloc: Global, core: &mut Core, event: Event) -> Result<RecordReply, AllocError>
    requires told { IsToldSome core.old }
    ensures roots { core.new.roots ≡ core.old.roots }
    ensures told { (past : List model.Event) → IsTold past core.old
        → OnOk result (IsTold (event_of event ∷ past) core.new) }
    ensures reply { (past : List model.Event) → IsTold past core.old
        → IfOk result (λ told. told ≡ reply_told (reply_after core.old.roots past (event_of event))) }
    ensures writable { IfOk result text.IsTold }
{
    note_event(&event);
    let reply = core.step(alloc, event)?;
    Ok(reply_told(reply))
}

/// Whether a client is at rest, and its page has this table.
pub(crate) fn rests_with(
    alloc: Global,
    core: &Core,
    client: ClientId,
    table: &Table,
) -> Result<bool, AllocError>
    ensures { (past : List model.Event) → StandsFor past core.now
        → IfOk result (λ rests. rests ≡ rests_with core.now.roots past client table.now) }
{
    if !core.at_rest(client) {
        return Ok(false);
    }
    let page = core.table(alloc, client)?;
    Ok(is_page_with(&page, table))
}

fn is_page_with(page: &Option<Table>, table: &Table) -> bool
    ensures { result ≡ is_page_with page.now table.now }
{
    match page {
        Some(page) => is_same_table(page, table),
        None => false,
    }
}

fn is_same_table(table: &Table, other: &Table) -> bool
    ensures { result ≡ is_same_table table.now other.now }
{
    table == other
}
