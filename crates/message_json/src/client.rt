// The messages of a client, as they are read.
ghost use Rattle.std.specs.Prelude.{◌≡◌, ◌≤◌, IfErr, IfOk, IsErrOf, Ok, length};
ghost use Rattle.serde_json.specs.Data.{Data};
ghost use Rattle.serde_json.specs.View.{view};
ghost use Rattle.update_msgs.specs.Desk.{bytes_of};
ghost use Rattle.update_msgs.specs.Writable.{IsSayable};
ghost use Rattle.update_msgs.specs.declared.message.ClientMsg as told;
ghost use Rattle.update_msgs.specs.declared.message.ClientMsg.TheVariants as msg;
ghost use Rattle.message_text.specs.Values.{HasReading};
ghost use Rattle.message_json.specs.Reading.{Gives, HasCause, field, path_of};
ghost use Rattle.message_text.specs.Words.{abort_word};
ghost use Rattle.message_json.specs.Words.{abort_causes, word_in};
ghost use Rattle.message_text.specs.ClientText.{say};
ghost use Rattle.message_json.specs.ClientReading.{IsTyped, aborted_of, applied_of, client_of};
ghost use Rattle.message_json.specs.ClientReading.{hello_of, invalidate_of};

use crate::fault::MsgFault;
use crate::field::{
    found, name_field, number_field, only, only_path_of, plain_of, text_field, wanted_name_field,
    wanted_text_field,
};
use crate::list::{roots_field, table_field};
use crate::table_text::written_table;
use crate::words::{abort_of, is_link};
use hmr_types::Sequence;
use hmr_types::limits::LARGEST_NUMBER;
use serde_json::Value;
use std::alloc::Global;
use update_msgs::{AbortCause, ClientMsg};

/// The message of a client that bytes read as: their JSON reading is an object of exactly the message's keys
/// and values. Any spelling that JSON allows is read; of equal keys the last stands.
/// [`MsgFault::NotJson`] comes exactly where the bytes aren't UTF-8 or have no reading (nesting past 127 is
/// none), [`MsgFault::NoType`] where the reading is no object with a known `type`, [`MsgFault::BadField`] of
/// the first key in the message's table that is missing or wrong, and [`MsgFault::ExtraField`] of the least
/// further key. It takes time in proportion to the bytes; a table as
/// [`crate::encode_client`] writes it is read without a JSON value between.
pub fn decode_client(alloc: Global, bytes: &[u8]) -> Result<ClientMsg, MsgFault>
    ensures exact { IfOk result (λ m. HasReading bytes.now (say m)) }
    ensures ranged { IfOk result IsSayable }
    ensures size { IfOk result (λ m. bytes_of m ≤ length bytes.now) }
    ensures not_json { IsErrOf result MsgFault.NotJson → (d : Data) → ¬ (HasReading bytes.now d) }
    ensures cause { IfErr result (HasCause bytes.now client_of) }
    ensures read { (d : Data) → HasReading bytes.now d → Gives result (client_of d) }
    ensures written { (m : told.ClientMsg) → IsTyped m → IsSayable m → HasReading bytes.now (say m)
        → Gives result (Ok m) }
{
    match written_table(alloc, bytes)? {
        Some(table) => Ok(ClientMsg::Applied { table }),
        None => decode_value(alloc, bytes),
    }
}

// The same, by the JSON value that the bytes stand for.
#[tactic(auto, using(crate::proofs::Back::client_given_back))]
fn decode_value(alloc: Global, bytes: &[u8]) -> Result<ClientMsg, MsgFault>
    ensures exact { IfOk result (λ m. HasReading bytes.now (say m)) }
    ensures ranged { IfOk result IsSayable }
    ensures size { IfOk result (λ m. bytes_of m ≤ length bytes.now) }
    ensures not_json { IsErrOf result MsgFault.NotJson → (d : Data) → ¬ (HasReading bytes.now d) }
    ensures cause { IfErr result (HasCause bytes.now client_of) }
    ensures read { (d : Data) → HasReading bytes.now d → Gives result (client_of d) }
    ensures written { (m : told.ClientMsg) → IsTyped m → IsSayable m → HasReading bytes.now (say m)
        → Gives result (Ok m) }
{
    match Value::from_slice(alloc, bytes) {
        Ok(value) => message_of(alloc, &value),
        Err(e) if e.is_memory() => Err(MsgFault::NoMemory),
        Err(_) => Err(MsgFault::NotJson),
    }
}

#[tactic(auto, unfolding(crate::specs::ClientReading::client_of))]
fn message_of(alloc: Global, value: &Value) -> Result<ClientMsg, MsgFault>
    ensures { Gives result (client_of (view value.now)) }
{
    match value.get("type").and_then(Value::as_str) {
        Some("hello") => hello_of(alloc, value),
        Some("ask") => plain_of(alloc, value, ClientMsg::Ask),
        Some("fetch") => fetch_of(alloc, value),
        Some("applied") => applied_of(alloc, value),
        Some("aborted") => aborted_of(alloc, value),
        Some("invalidate") => invalidate_of(alloc, value),
        Some("bye") => plain_of(alloc, value, ClientMsg::Bye),
        _ => Err(MsgFault::NoType),
    }
}

fn hello_of(alloc: Global, value: &Value) -> Result<ClientMsg, MsgFault>
    ensures { Gives result (hello_of (view value.now)) }
{
    let format = number_field(alloc, value, "format", 1, 2)?;
    let format = format as u8;
    let roots = Sequence::from_vec(roots_field(alloc, value, "roots")?);
    only(alloc, value, &["format", "roots", "type"])?;
    Ok(ClientMsg::Hello { format, roots })
}

fn fetch_of(alloc: Global, value: &Value) -> Result<ClientMsg, MsgFault>
    ensures { Gives result (path_of msg.Fetch (view value.now)) }
{
    let path = only_path_of(alloc, value)?;
    Ok(ClientMsg::Fetch { path })
}

fn applied_of(alloc: Global, value: &Value) -> Result<ClientMsg, MsgFault>
    ensures { Gives result (applied_of (view value.now)) }
{
    let table = table_field(alloc, value, "table")?;
    only(alloc, value, &["table", "type"])?;
    Ok(ClientMsg::Applied { table })
}

#[tactic(auto, unfolding(crate::specs::Words::word_in, crate::specs::Reading::field))]
fn cause_field(alloc: Global, value: &Value, key: &str) -> Result<AbortCause, MsgFault>
    ensures { Gives result (field (word_in abort_word abort_causes) key.now (view value.now)) }
{
    match value.get(key).and_then(Value::as_str) {
        Some(word) => found(alloc, key, abort_of(word)),
        None => found(alloc, key, None),
    }
}

fn aborted_of(alloc: Global, value: &Value) -> Result<ClientMsg, MsgFault>
    ensures { Gives result (aborted_of (view value.now)) }
{
    let cause = cause_field(alloc, value, "cause")?;
    let path = name_field(alloc, value, "path")?;
    let from = wanted_name_field(alloc, value, "from", is_link(cause))?;
    let name = wanted_text_field(alloc, value, "name", is_link(cause))?;
    only(alloc, value, &["cause", "from", "name", "path", "type"])?;
    Ok(ClientMsg::Aborted {
        cause,
        path,
        from,
        name,
    })
}

fn invalidate_of(alloc: Global, value: &Value) -> Result<ClientMsg, MsgFault>
    ensures { Gives result (invalidate_of (view value.now)) }
{
    let path = name_field(alloc, value, "path")?;
    let version = number_field(alloc, value, "version", 1, LARGEST_NUMBER)?;
    let message = text_field(alloc, value, "message")?;
    only(alloc, value, &["message", "path", "type", "version"])?;
    Ok(ClientMsg::Invalidate {
        path,
        version,
        message,
    })
}
