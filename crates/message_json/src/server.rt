// The messages of a server, as they are read in a format.
ghost use Rattle.std.specs.Prelude.{◌≡◌, IfErr, IfOk, IsErrOf, Ok};
ghost use Rattle.serde_json.specs.Data.{Data};
ghost use Rattle.serde_json.specs.View.{view};
ghost use Rattle.core_model.specs.Exchange.{read_in};
ghost use Rattle.word_texts.specs.Words.{cause_word, fault_word};
ghost use Rattle.update_msgs.specs.Writable.{IsFormat, IsWritable};
ghost use Rattle.update_msgs.specs.declared.message.ServerMsg as told;
ghost use Rattle.update_msgs.specs.declared.message.ServerMsg.TheVariants as msg;
ghost use Rattle.message_text.specs.Values.{HasReading};
ghost use Rattle.message_json.specs.Reading.{Gives, HasCause, field, path_of};
ghost use Rattle.message_json.specs.Words.{fault_kinds, reload_causes, word_in};
ghost use Rattle.message_text.specs.ServerText.{tell};
ghost use Rattle.message_json.specs.ServerReading.{IsTyped, connected_of, fault_of, kind_by, prune_of};
ghost use Rattle.message_json.specs.ServerReading.{refused_of, reload_of, server_of, telling_by, text_of};
ghost use Rattle.message_json.specs.ServerReading.{update_of};

use crate::batch::{batch_of, only_by};
use crate::fault::MsgFault;
use crate::field::{
    found, module_text_field, name_field, number_field, only, only_path_of, plain_of,
    wanted_name_field, wanted_number_field,
};
use crate::list::{names_field, some_names_field};
use crate::update::updates_field;
use crate::words::{fault_of, reload_of};
use hmr_types::limits::LARGEST_NUMBER;
use hmr_types::{FaultWord, ReloadCause, Sequence};
use serde_json::Value;
use std::alloc::Global;
use update_msgs::ServerMsg;

/// The message of a server that bytes read as in a format, 1 or 2: their JSON reading is an object of
/// exactly the message's keys and values in that format. In format 1 an update or a reload has batch 0 and
/// no triggered names. The faults are those of [`crate::decode_client`].
#[tactic(auto, using(crate::proofs::Back::server_given_back))]
pub fn decode(alloc: Global, bytes: &[u8], format: u8) -> Result<ServerMsg, MsgFault>
    requires format { IsFormat format }
    ensures exact { IfOk result (λ m. HasReading bytes.now (tell format m)) }
    ensures ranged { IfOk result (IsWritable format) }
    ensures not_json { IsErrOf result MsgFault.NotJson → (d : Data) → ¬ (HasReading bytes.now d) }
    ensures cause { IfErr result (HasCause bytes.now (server_of format)) }
    ensures read { (d : Data) → HasReading bytes.now d → Gives result (server_of format d) }
    ensures written { (m : told.ServerMsg) → IsTyped m → IsWritable format m
        → HasReading bytes.now (tell format m)
        → Gives result (Ok (read_in format m)) }
{
    match Value::from_slice(alloc, bytes) {
        Ok(value) => message_of(alloc, &value, format),
        Err(e) if e.is_memory() => Err(MsgFault::NoMemory),
        Err(_) => Err(MsgFault::NotJson),
    }
}

#[tactic(auto, unfolding(crate::specs::ServerReading::server_of))]
fn message_of(alloc: Global, value: &Value, format: u8) -> Result<ServerMsg, MsgFault>
    ensures { Gives result (server_of format (view value.now)) }
{
    match value.get("type").and_then(Value::as_str) {
        Some(kind) => kind_of(alloc, value, format, kind),
        None => Err(MsgFault::NoType),
    }
}

fn kind_of(alloc: Global, value: &Value, format: u8, kind: &str) -> Result<ServerMsg, MsgFault>
    ensures { Gives result (kind_by format kind.now (view value.now)) }
{
    match kind {
        "connected" => connected_of(alloc, value),
        "update" => update_of(alloc, value, format),
        "prune" => prune_of(alloc, value),
        "full-reload" => reload_of_format(alloc, value, format),
        "error" => error_of(alloc, value),
        "broken" => broken_of(alloc, value),
        _ => telling_of(alloc, value, kind),
    }
}

fn telling_of(alloc: Global, value: &Value, kind: &str) -> Result<ServerMsg, MsgFault>
    ensures { Gives result (telling_by kind.now (view value.now)) }
{
    match kind {
        "idle" => plain_of(alloc, value, ServerMsg::Idle),
        "done" => plain_of(alloc, value, ServerMsg::Done),
        "text" => text_of(alloc, value),
        "missing" => missing_of(alloc, value),
        "not-yet" => not_yet_of(alloc, value),
        "refused" => refused_of(alloc, value),
        _ => Err(MsgFault::NoType),
    }
}

fn connected_of(alloc: Global, value: &Value) -> Result<ServerMsg, MsgFault>
    ensures { Gives result (connected_of (view value.now)) }
{
    let client = number_field(alloc, value, "client", 1, 4_294_967_295)?;
    let client = client as u32;
    let roots = Sequence::from_vec(names_field(alloc, value, "roots")?);
    only(alloc, value, &["client", "roots", "type"])?;
    Ok(ServerMsg::Connected { client, roots })
}

fn update_of(alloc: Global, value: &Value, format: u8) -> Result<ServerMsg, MsgFault>
    ensures { Gives result (update_of format (view value.now)) }
{
    let replaced = Sequence::from_vec(names_field(alloc, value, "replaced")?);
    let updates = Sequence::from_vec(updates_field(alloc, value, "updates")?);
    let batch = batch_of(alloc, value, format)?;
    only_by(
        alloc,
        value,
        format,
        &["replaced", "type", "updates"],
        &["batch", "replaced", "triggeredBy", "type", "updates"],
    )?;
    Ok(ServerMsg::Update {
        replaced,
        updates,
        batch: batch.number,
        triggered: batch.names,
    })
}

fn prune_of(alloc: Global, value: &Value) -> Result<ServerMsg, MsgFault>
    ensures { Gives result (prune_of (view value.now)) }
{
    let paths = Sequence::from_vec(names_field(alloc, value, "paths")?);
    only(alloc, value, &["paths", "type"])?;
    Ok(ServerMsg::Prune { paths })
}

#[tactic(auto, unfolding(crate::specs::Words::word_in, crate::specs::Reading::field))]
fn cause_field(alloc: Global, value: &Value, key: &str) -> Result<ReloadCause, MsgFault>
    ensures { Gives result (field (word_in cause_word reload_causes) key.now (view value.now)) }
{
    match value.get(key).and_then(Value::as_str) {
        Some(word) => found(alloc, key, reload_of(word)),
        None => found(alloc, key, None),
    }
}

fn reload_of_format(alloc: Global, value: &Value, format: u8) -> Result<ServerMsg, MsgFault>
    ensures { Gives result (reload_of format (view value.now)) }
{
    let cause = cause_field(alloc, value, "cause")?;
    let path = Sequence::from_vec(some_names_field(alloc, value, "path")?);
    let batch = batch_of(alloc, value, format)?;
    only_by(
        alloc,
        value,
        format,
        &["cause", "path", "type"],
        &["batch", "cause", "path", "triggeredBy", "type"],
    )?;
    Ok(ServerMsg::FullReload {
        cause,
        path,
        batch: batch.number,
        triggered: batch.names,
    })
}

#[tactic(auto, unfolding(crate::specs::Words::word_in, crate::specs::Reading::field))]
fn kind_field(alloc: Global, value: &Value, key: &str) -> Result<FaultWord, MsgFault>
    ensures { Gives result (field (word_in fault_word fault_kinds) key.now (view value.now)) }
{
    match value.get(key).and_then(Value::as_str) {
        Some(word) => found(alloc, key, fault_of(word)),
        None => found(alloc, key, None),
    }
}

fn error_of(alloc: Global, value: &Value) -> Result<ServerMsg, MsgFault>
    ensures { Gives result (fault_of msg.Error (view value.now)) }
{
    let path = name_field(alloc, value, "path")?;
    let line = number_field(alloc, value, "line", 0, LARGEST_NUMBER)?;
    let column = number_field(alloc, value, "column", 0, LARGEST_NUMBER)?;
    let kind = kind_field(alloc, value, "kind")?;
    only(alloc, value, &["column", "kind", "line", "path", "type"])?;
    Ok(ServerMsg::Error {
        path,
        line,
        column,
        kind,
    })
}

fn broken_of(alloc: Global, value: &Value) -> Result<ServerMsg, MsgFault>
    ensures { Gives result (fault_of msg.Broken (view value.now)) }
{
    let path = name_field(alloc, value, "path")?;
    let line = number_field(alloc, value, "line", 0, LARGEST_NUMBER)?;
    let column = number_field(alloc, value, "column", 0, LARGEST_NUMBER)?;
    let kind = kind_field(alloc, value, "kind")?;
    only(alloc, value, &["column", "kind", "line", "path", "type"])?;
    Ok(ServerMsg::Broken {
        path,
        line,
        column,
        kind,
    })
}

fn text_of(alloc: Global, value: &Value) -> Result<ServerMsg, MsgFault>
    ensures { Gives result (text_of (view value.now)) }
{
    let path = name_field(alloc, value, "path")?;
    let version = number_field(alloc, value, "version", 1, LARGEST_NUMBER)?;
    let text = module_text_field(alloc, value, "text")?;
    only(alloc, value, &["path", "text", "type", "version"])?;
    Ok(ServerMsg::Text {
        path,
        version,
        text,
    })
}

fn missing_of(alloc: Global, value: &Value) -> Result<ServerMsg, MsgFault>
    ensures { Gives result (path_of msg.Missing (view value.now)) }
{
    let path = only_path_of(alloc, value)?;
    Ok(ServerMsg::Missing { path })
}

fn not_yet_of(alloc: Global, value: &Value) -> Result<ServerMsg, MsgFault>
    ensures { Gives result (path_of msg.NotYet (view value.now)) }
{
    let path = only_path_of(alloc, value)?;
    Ok(ServerMsg::NotYet { path })
}

fn refused_of(alloc: Global, value: &Value) -> Result<ServerMsg, MsgFault>
    ensures { Gives result (refused_of (view value.now)) }
{
    let code = number_field(alloc, value, "code", 1, 7)?;
    let code = code as u8;
    let path = wanted_name_field(alloc, value, "path", code == 4 || code == 5)?;
    let told = wanted_number_field(alloc, value, "told", code == 4)?;
    let kept = wanted_number_field(alloc, value, "kept", code == 4)?;
    only(alloc, value, &["code", "kept", "path", "told", "type"])?;
    Ok(ServerMsg::Refused {
        code,
        path,
        told,
        kept,
    })
}
