// The callbacks of an update, as they are read.
ghost use Rattle.std.specs.Prelude.{◌≡◌, IfOk, option_map};
ghost use Rattle.serde_json.specs.View.{items_view, view};
ghost use Rattle.message_json.specs.Reading.{Gives, GivesList, field, items_in, list_in};
ghost use Rattle.message_json.specs.ServerReading.{js_update_in, js_update_of};

use crate::fault::MsgFault;
use crate::field::{found, name_field, number_field, only};
use hmr_types::limits::LARGEST_NUMBER;
use serde_json::Value;
use std::alloc::{AllocError, Global};
use update_msgs::JsUpdate;

fn js_update_of(alloc: Global, value: &Value) -> Result<JsUpdate, MsgFault>
    ensures { Gives result (js_update_of (view value.now)) }
{
    let path = name_field(alloc, value, "path")?;
    let accepted_path = name_field(alloc, value, "acceptedPath")?;
    let timestamp = number_field(alloc, value, "timestamp", 0, LARGEST_NUMBER)?;
    only(alloc, value, &["acceptedPath", "path", "timestamp", "type"])?;
    Ok(JsUpdate {
        path,
        accepted_path,
        timestamp,
    })
}

#[tactic(auto, unfolding(crate::specs::ServerReading::js_update_in))]
fn js_update_in(alloc: Global, value: &Value) -> Result<Option<JsUpdate>, AllocError>
    ensures { IfOk result (λ o. o ≡ js_update_in (view value.now)) }
{
    match value.get("type").and_then(Value::as_str) {
        Some("js-update") => match js_update_of(alloc, value) {
            Ok(update) => Ok(Some(update)),
            Err(MsgFault::NoMemory) => Err(AllocError),
            Err(_) => Ok(None),
        },
        _ => Ok(None),
    }
}

fn updates_of(alloc: Global, items: &[Value]) -> Result<Option<Vec<JsUpdate>>, AllocError>
    ensures { IfOk result (λ o. option_map (λ v. v.items) o ≡ items_in js_update_in (items_view items.now)) }
{
    let mut updates = Vec::new(alloc);
    for item in items.iter() {
        match js_update_in(alloc, item)? {
            Some(update) => updates.push(update)?,
            None => return Ok(None),
        }
    }
    Ok(Some(updates))
}

#[tactic(auto, unfolding(crate::specs::Reading::list_in))]
fn updates_in(alloc: Global, value: &Value) -> Result<Option<Vec<JsUpdate>>, AllocError>
    ensures { IfOk result (λ o. option_map (λ v. v.items) o ≡ list_in js_update_in (view value.now)) }
{
    match value.as_array() {
        Some(items) => updates_of(alloc, items.as_slice()),
        None => Ok(None),
    }
}

#[tactic(auto, unfolding(crate::specs::Reading::field))]
pub(crate) fn updates_field(
    alloc: Global,
    value: &Value,
    key: &str,
) -> Result<Vec<JsUpdate>, MsgFault>
    ensures { GivesList result (field (list_in js_update_in) key.now (view value.now)) }
{
    match value.get(key) {
        Some(inner) => found(alloc, key, updates_in(alloc, inner)?),
        None => found(alloc, key, None),
    }
}
