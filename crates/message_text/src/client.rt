// The messages of a client, as they are written: token by token, since one of them is as long as the page.
ghost use Rattle.std.specs.Prelude.{◌≡◌, ◌∷◌, ◌++◌, [], codes, true, Some, IfOk, OnOk};
ghost use Rattle.serde_json.specs.Data.{string};
ghost use Rattle.json_readings.specs.Object.{entries};
ghost use Rattle.update_msgs.specs.Writable.{IsSayable};
ghost use Rattle.update_msgs.specs.declared.message.ClientMsg.TheVariants as msg;
ghost use Rattle.hmr_types.specs.Table.{is_table};
ghost use Rattle.message_text.specs.Values.{HasReading, alone, list, tokens_of, whole};
ghost use Rattle.message_text.specs.ClientText.{HasTable, client_text, say};

use crate::members::{
    put_name_or_null, put_names, put_number, put_rows, put_text, put_text_or_null,
};
use crate::words::abort_str;
use hmr_types::{ModName, Table, Text, Ver};
use json::Writer;
use std::alloc::{AllocError, Global};
use update_msgs::{AbortCause, ClientMsg};

/// The text of a client's message that can be written: compact, with its keys in byte order. It reads as the
/// message. It takes time and memory in proportion to the text.
pub fn encode_client(alloc: Global, msg: &ClientMsg) -> Result<Vec<u8>, AllocError>
    requires ranged { IsSayable msg.now }
    ensures text { IfOk result (λ v. v.items ≡ client_text msg.now) }
    ensures reads { IfOk result (λ v. HasReading v.items (say msg.now)) }
{
    let mut out = Writer::new(Vec::with_capacity(alloc, 128)?);
    put(&mut out, msg)?;
    Ok(out.into_inner())
}

fn put(out: &mut Writer, msg: &ClientMsg) -> Result<(), AllocError>
    ensures tokens { OnOk result (out.new.tokens ≡ out.old.tokens ++ tokens_of (say msg.now)) }
    ensures before { out.new.before ≡ out.old.before }
    ensures table { HasTable msg.now }
{
    match msg {
        ClientMsg::Hello { format, roots } => put_hello(out, *format, roots.as_slice()),
        ClientMsg::Ask => put_alone(out, "ask"),
        ClientMsg::Fetch { path } => put_fetch(out, path),
        ClientMsg::Applied { table } => put_applied(out, table),
        ClientMsg::Aborted {
            cause,
            path,
            from,
            name,
        } => put_aborted(out, *cause, path, from, name),
        ClientMsg::Invalidate {
            path,
            version,
            message,
        } => put_invalidate(out, path, *version, message),
        ClientMsg::Bye => put_alone(out, "bye"),
    }
}

#[tactic(auto, using(crate::proofs::Written::some_roots))]
fn put_hello(out: &mut Writer, format: u8, roots: &[ModName]) -> Result<(), AllocError>
    ensures tokens { OnOk result
        (out.new.tokens ≡ out.old.tokens ++ tokens_of (say (msg.Hello format roots.now))) }
    ensures before { out.new.before ≡ out.old.before }
{
    if roots.is_empty() {
        put_rootless(out, u64::from(format))
    } else {
        put_rooted(out, u64::from(format), roots)
    }
}

fn put_rootless(out: &mut Writer, format: u64) -> Result<(), AllocError>
    ensures tokens { OnOk result
        (out.new.tokens ≡ out.old.tokens ++ tokens_of (say (msg.Hello format []))) }
    ensures before { out.new.before ≡ out.old.before }
{
    out.begin_object()?;
    out.key("format")?;
    out.u64(format)?;
    put_text(out, "type", "hello")?;
    out.end_object()
}

fn put_rooted(out: &mut Writer, format: u64, roots: &[ModName]) -> Result<(), AllocError>
    ensures tokens { OnOk result (out.new.tokens ≡ out.old.tokens ++ tokens_of (entries (
        (codes "format", Some (whole format)) ∷ (codes "roots", Some (list string roots.now))
        ∷ (codes "type", Some (string (codes "hello"))) ∷ []))) }
    ensures before { out.new.before ≡ out.old.before }
{
    out.begin_object()?;
    put_number(out, "format", format)?;
    out.key("roots")?;
    out.begin_array()?;
    put_names(out, roots)?;
    put_text(out, "type", "hello")?;
    out.end_object()
}

// A message that has no fields.
fn put_alone(out: &mut Writer, word: &str) -> Result<(), AllocError>
    ensures tokens { OnOk result (out.new.tokens ≡ out.old.tokens ++ tokens_of (alone word.now)) }
    ensures before { out.new.before ≡ out.old.before }
{
    out.begin_object()?;
    put_text(out, "type", word)?;
    out.end_object()
}

fn put_fetch(out: &mut Writer, path: &ModName) -> Result<(), AllocError>
    ensures tokens { OnOk result
        (out.new.tokens ≡ out.old.tokens ++ tokens_of (say (msg.Fetch path.now))) }
    ensures before { out.new.before ≡ out.old.before }
{
    out.begin_object()?;
    out.key("path")?;
    out.string(path.as_str())?;
    put_text(out, "type", "fetch")?;
    out.end_object()
}

fn put_applied(out: &mut Writer, table: &Table) -> Result<(), AllocError>
    ensures tokens { OnOk result
        (out.new.tokens ≡ out.old.tokens ++ tokens_of (say (msg.Applied table.now))) }
    ensures before { out.new.before ≡ out.old.before }
    ensures table { is_table table.now ≡ true }
{
    let rows = table.as_slice();
    out.begin_object()?;
    out.key("table")?;
    out.begin_array()?;
    put_rows(out, rows)?;
    put_text(out, "type", "applied")?;
    out.end_object()
}

fn put_aborted(
    out: &mut Writer,
    cause: AbortCause,
    path: &ModName,
    from: &Option<ModName>,
    name: &Option<Text>,
) -> Result<(), AllocError>
    ensures tokens { OnOk result (out.new.tokens
        ≡ out.old.tokens ++ tokens_of (say (msg.Aborted cause path.now from.now name.now))) }
    ensures before { out.new.before ≡ out.old.before }
{
    out.begin_object()?;
    out.key("cause")?;
    out.string(abort_str(cause))?;
    out.key("from")?;
    put_name_or_null(out, from)?;
    out.key("name")?;
    put_text_or_null(out, name)?;
    out.key("path")?;
    out.string(path.as_str())?;
    put_text(out, "type", "aborted")?;
    out.end_object()
}

fn put_invalidate(
    out: &mut Writer,
    path: &ModName,
    version: Ver,
    message: &Text,
) -> Result<(), AllocError>
    ensures tokens { OnOk result (out.new.tokens
        ≡ out.old.tokens ++ tokens_of (say (msg.Invalidate path.now version message.now))) }
    ensures before { out.new.before ≡ out.old.before }
{
    out.begin_object()?;
    out.key("message")?;
    out.string(message.as_str())?;
    out.key("path")?;
    out.string(path.as_str())?;
    put_text(out, "type", "invalidate")?;
    out.key("version")?;
    out.u64(version)?;
    out.end_object()
}
