// The record of events that a core was told.
ghost use Rattle.std.specs.Prelude.{◌≡◌, ◌≤◌, [], ◌∷◌, ◌++◌, IfOk, List, OnOk, length, map};
ghost use Rattle.std.specs.List.{flat_map};
ghost use Rattle.core_model.specs.Core as model;
ghost use Rattle.core_model.specs.Roots.{AreRoots};
ghost use Rattle.core_model.specs.Transcript.{most_bytes, most_entries};
ghost use Rattle.record_text.specs.Texts.{line_text, record_text};
ghost use Rattle.record_text.specs.Told as text;
ghost use Rattle.record_text.specs.Told.{reply_text};
ghost use Rattle.record_text.specs.declared.record.RecordLine.TheVariants as lines;
ghost use Rattle.server_core.specs.Kept.{StandsFor};
ghost use Rattle.events_and_replies.specs.Said.{event_of};
ghost use Rattle.record_laws.specs.Bounds.{past_bytes};
ghost use Rattle.transcript_check.specs.Following.{IsTold, IsToldSome};
ghost use Rattle.record_laws.specs.Written.{client_in, entry_lines, event_told, is_done};
ghost use Rattle.record_laws.specs.Written.{record_told, rest_lines};

use crate::replay::tell;
use events_and_replies::Event;
use hmr_types::{ClientId, ModName, Sequence, Table};
use module_graph::copy_of;
use record_text::{RecordEvent, RecordLine, RecordReply, put_line, put_roots, write_reply};
use server_core::Core;
use std::alloc::{AllocError, Global};
use update_msgs::ServerMsg;

/// The text of the record of these events, which a core of these roots is told: each event with the core's
/// reply, and behind each Done that leaves its client at rest, that the client is at rest, with its table.
/// The roots are those of a core, and the events have places in a transcript. It holds no record: beside the
/// text and what the core keeps it takes memory for one event at a time.
pub fn write_record(
    alloc: Global,
    roots: &[ModName],
    events: &[Event],
) -> Result<Vec<u8>, AllocError>
    requires roots { AreRoots roots.now }
    requires few { length events.now ≤ most_entries }
    requires small { past_bytes (map event_of events.now) ≤ most_bytes }
    ensures text { IfOk result
        (λ text. text.items ≡ record_text (record_told roots.now (map event_of events.now))) }
{
    let names = copy_of(alloc, roots)?;
    let mut core = core_of(alloc, names);
    let mut out = Vec::new(alloc);
    put_roots(&mut out, roots)?;
    for event in events {
        put_entry(alloc, &mut core, &mut out, event)?;
    }
    Ok(out)
}

fn core_of(alloc: Global, roots: Vec<ModName>) -> Core
    requires { AreRoots roots.items }
    ensures roots { result.roots ≡ roots.items }
    ensures stands { StandsFor [] result }
{
    match Core::new(alloc, roots) {
        Ok(core) => core,
        Err(_) => unreachable!(),
    }
}

// The lines of the event that the core is told.
fn put_entry(
    alloc: Global,
    core: &mut Core,
    out: &mut Vec<u8>,
    event: &Event,
) -> Result<(), AllocError>
    requires told { IsToldSome core.old }
    ensures roots { core.new.roots ≡ core.old.roots }
    ensures told { (past : List model.Event) → IsTold past core.old
        → OnOk result (IsTold (event_of event.now ∷ past) core.new) }
    ensures text { (past : List model.Event) → IsTold past core.old
        → OnOk result (out.new.items ≡ out.old.items
        ++ flat_map line_text (entry_lines core.old.roots past (event_of event.now))) }
{
    let copy = event.copy(alloc)?;
    let told = tell(alloc, core, copy)?;
    let line = entry(alloc, event, &told)?;
    put_line(out, &line)?;
    if !is_done(&told) {
        return Ok(());
    }
    put_rest(alloc, core, out, client_in(event))
}

fn entry(alloc: Global, event: &Event, told: &RecordReply) -> Result<RecordLine, AllocError>
    requires { text.IsTold told.now }
    ensures { IfOk result
        (λ line. line ≡ lines.Entry (event_told (event_of event.now)) (reply_text told.now)) }
{
    let event = record_event(alloc, event)?;
    let reply = write_reply(alloc, told)?;
    Ok(RecordLine::Entry(event, reply))
}

// The line of a client, where there is one and it is at rest.
fn put_rest(
    alloc: Global,
    core: &Core,
    out: &mut Vec<u8>,
    client: Option<ClientId>,
) -> Result<(), AllocError>
    ensures { (past : List model.Event) → StandsFor past core.now
        → OnOk result (out.new.items ≡ out.old.items
        ++ flat_map line_text (rest_lines (model.core_after core.now.roots past) client)) }
{
    let Some(client) = client else {
        return Ok(());
    };
    if !core.at_rest(client) {
        return Ok(());
    }
    match core.table(alloc, client)? {
        Some(table) => put_page(out, client, table),
        None => Ok(()),
    }
}

// The line of a client that is at rest with this table.
fn put_page(out: &mut Vec<u8>, client: ClientId, table: Table) -> Result<(), AllocError>
    ensures { OnOk result (out.new.items ≡ out.old.items ++ line_text (lines.Rest client table)) }
{
    put_line(out, &RecordLine::Rest(client, table))
}

fn is_done(told: &RecordReply) -> bool
    ensures { result ≡ is_done told.now }
{
    matches!(told, RecordReply::Message(ServerMsg::Done))
}

fn client_in(event: &Event) -> Option<ClientId>
    ensures { result ≡ client_in (event_of event.now) }
{
    match event {
        Event::Ask(client)
        | Event::Fetch(client, _)
        | Event::Applied(client, _)
        | Event::Aborted(client)
        | Event::Invalidate(client, _, _) => Some(*client),
        Event::Edit(_, _) | Event::Settle(_, _) | Event::Connect(_) | Event::Disconnect(_) => None,
    }
}

// An event, as a record tells it.
fn record_event(alloc: Global, event: &Event) -> Result<RecordEvent, AllocError>
    ensures { IfOk result (λ told. told ≡ event_told (event_of event.now)) }
{
    match event {
        Event::Edit(name, Some(text)) => {
            Ok(RecordEvent::Edit(name.clone()?, sequence(alloc, text)?))
        }
        Event::Edit(name, None) => Ok(RecordEvent::Remove(name.clone()?)),
        Event::Settle(done, version) => {
            let name = done.name().clone()?;
            Ok(RecordEvent::Settle(name, sequence(alloc, done.text())?, *version))
        }
        Event::Connect(names) => {
            let names = copy_of(alloc, names)?;
            Ok(RecordEvent::Connect(Sequence::from_vec(names)))
        }
        Event::Ask(client) => Ok(RecordEvent::Ask(*client)),
        Event::Fetch(client, name) => Ok(RecordEvent::Fetch(*client, name.clone()?)),
        Event::Applied(client, table) => Ok(RecordEvent::Applied(*client, table.clone()?)),
        Event::Aborted(client) => Ok(RecordEvent::Aborted(*client)),
        Event::Invalidate(client, name, version) => {
            Ok(RecordEvent::Invalidate(*client, name.clone()?, *version))
        }
        Event::Disconnect(client) => Ok(RecordEvent::Disconnect(*client)),
    }
}

fn sequence(alloc: Global, bytes: &[u8]) -> Result<Sequence<u8>, AllocError>
    ensures { IfOk result (λ text. text ≡ bytes.now) }
{
    Ok(Sequence::from_vec(Vec::from_slice(alloc, bytes)?))
}
