// A record as its bytes.
ghost use Rattle.std.specs.Prelude.{◌≡◌, ◌++◌, IfOk, OnOk};
ghost use Rattle.std.specs.List.{flat_map};
ghost use Rattle.record_text.specs.Texts.{line_text, record_text, reply_line, roots_text};

use crate::event_text::{put_event, put_table};
use crate::pieces::{put, put_end, put_named};
use crate::record::{Record, RecordLine};
use hmr_types::ModName;
use std::alloc::{AllocError, Global};

/// The text of a record: a line for each root, and then its entries and the clients at rest in order, each
/// line with its LF. It takes time and memory in proportion to the text.
pub fn write(alloc: Global, record: &Record) -> Result<Vec<u8>, AllocError>
    ensures { IfOk result (λ text. text.items ≡ record_text record.now) }
{
    let mut out = Vec::new(alloc);
    put_roots(&mut out, record.roots.as_slice())?;
    put_lines(&mut out, record.lines.as_slice())?;
    Ok(out)
}

/// Puts the lines of roots behind others. Where memory runs out, a part of them may stand there.
pub fn put_roots(out: &mut Vec<u8>, roots: &[ModName]) -> Result<(), AllocError>
    ensures { OnOk result (out.new.items ≡ out.old.items ++ roots_text roots.now) }
{
    for root in roots {
        put_named(out, "root", root)?;
    }
    Ok(())
}

fn put_lines(out: &mut Vec<u8>, lines: &[RecordLine]) -> Result<(), AllocError>
    ensures { OnOk result (out.new.items ≡ out.old.items ++ flat_map line_text lines.now) }
{
    for line in lines {
        put_line(out, line)?;
    }
    Ok(())
}

/// Puts the lines of an entry, or of a client at rest, behind others. Where memory runs out, a part of them
/// may stand there.
pub fn put_line(out: &mut Vec<u8>, line: &RecordLine) -> Result<(), AllocError>
    ensures { OnOk result (out.new.items ≡ out.old.items ++ line_text line.now) }
{
    match line {
        RecordLine::Entry(event, reply) => {
            put_event(out, event)?;
            put_reply_line(out, reply.as_slice())
        }
        RecordLine::Rest(client, table) => put_table(out, "rest", *client, table),
    }
}

fn put_reply_line(out: &mut Vec<u8>, reply: &[u8]) -> Result<(), AllocError>
    ensures { OnOk result (out.new.items ≡ out.old.items ++ reply_line reply.now) }
{
    put(out, "= ")?;
    out.extend_from_slice(reply)?;
    put_end(out)
}
