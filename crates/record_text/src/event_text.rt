// The lines of an event, each form put by one small function.
ghost use Rattle.std.specs.Prelude.{◌≡◌, ◌++◌, OnOk};
ghost use Rattle.record_text.specs.Texts.{event_text, table_line};
ghost use Rattle.record_text.specs.declared.record.RecordEvent.TheVariants as events;

use crate::pieces::{
    put, put_counted, put_end, put_named, put_names, put_rows, put_spaced, put_spaced_number,
    put_text,
};
use crate::record::RecordEvent;
use hmr_types::{ClientId, ModName, Table, Ver};
use std::alloc::AllocError;

/// Puts the line of an event, and the lines of its text.
pub(crate) fn put_event(out: &mut Vec<u8>, event: &RecordEvent) -> Result<(), AllocError>
    ensures { OnOk result (out.new.items ≡ out.old.items ++ event_text event.now) }
{
    match event {
        RecordEvent::Edit(name, text) => put_edit(out, name, text.as_slice()),
        RecordEvent::Remove(name) => put_named(out, "remove", name),
        RecordEvent::Settle(name, text, version) => {
            put_settle(out, name, text.as_slice(), *version)
        }
        RecordEvent::Connect(names) => put_connect(out, names.as_slice()),
        RecordEvent::Ask(client) => put_counted(out, "ask", *client),
        RecordEvent::Fetch(client, name) => put_fetch(out, *client, name),
        RecordEvent::Applied(client, table) => put_table(out, "applied", *client, table),
        RecordEvent::Aborted(client) => put_counted(out, "aborted", *client),
        RecordEvent::Invalidate(client, name, version) => {
            put_invalidate(out, *client, name, *version)
        }
        RecordEvent::Disconnect(client) => put_counted(out, "disconnect", *client),
    }
}

/// Puts a line of a word, the number of a client and a table.
pub(crate) fn put_table(
    out: &mut Vec<u8>,
    word: &str,
    client: ClientId,
    table: &Table,
) -> Result<(), AllocError>
    ensures { OnOk result (out.new.items ≡ out.old.items ++ table_line word.now client table.now) }
{
    put(out, word)?;
    put_spaced_number(out, u64::from(client))?;
    put_rows(out, table.as_slice())?;
    put_end(out)
}

fn put_edit(out: &mut Vec<u8>, name: &ModName, text: &[u8]) -> Result<(), AllocError>
    ensures { OnOk result (out.new.items ≡ out.old.items ++ event_text (events.Edit name.now text.now)) }
{
    put_named(out, "edit", name)?;
    put_text(out, text)
}

fn put_settle(
    out: &mut Vec<u8>,
    name: &ModName,
    text: &[u8],
    version: Ver,
) -> Result<(), AllocError>
    ensures { OnOk result
        (out.new.items ≡ out.old.items ++ event_text (events.Settle name.now text.now version)) }
{
    put(out, "settle")?;
    put_spaced(out, name)?;
    put_spaced_number(out, version)?;
    put_end(out)?;
    put_text(out, text)
}

fn put_connect(out: &mut Vec<u8>, names: &[ModName]) -> Result<(), AllocError>
    ensures { OnOk result (out.new.items ≡ out.old.items ++ event_text (events.Connect names.now)) }
{
    put(out, "connect")?;
    put_names(out, names)?;
    put_end(out)
}

fn put_fetch(out: &mut Vec<u8>, client: ClientId, name: &ModName) -> Result<(), AllocError>
    ensures { OnOk result (out.new.items ≡ out.old.items ++ event_text (events.Fetch client name.now)) }
{
    put(out, "fetch")?;
    put_spaced_number(out, u64::from(client))?;
    put_spaced(out, name)?;
    put_end(out)
}

fn put_invalidate(
    out: &mut Vec<u8>,
    client: ClientId,
    name: &ModName,
    version: Ver,
) -> Result<(), AllocError>
    ensures { OnOk result
        (out.new.items ≡ out.old.items ++ event_text (events.Invalidate client name.now version)) }
{
    put(out, "invalidate")?;
    put_spaced_number(out, u64::from(client))?;
    put_spaced(out, name)?;
    put_spaced_number(out, version)?;
    put_end(out)
}
