// Members of a message, as they are read: the value at a key by its reader, or the fault that names the key.
ghost use Rattle.std.specs.Prelude.{◌≡◌, ◌≤◌, IfOk, IfSome, map, true};
ghost use Rattle.std.specs.List.{list_any};
ghost use Rattle.std.specs.Str.{bytes_eq};
ghost use Rattle.serde_json.specs.Find.{as_str};
ghost use Rattle.serde_json.specs.View.{members_view, view};
ghost use Rattle.json_readings.specs.Object.{further_member, one_of};
ghost use Rattle.hmr_types.specs.ModName.{is_name};
ghost use Rattle.hmr_types.specs.declared.limits.TheConstants.{LARGEST_NUMBER};
ghost use Rattle.message_json.specs.Reading.{Gives, field, found, if_holds, if_none};
ghost use Rattle.message_json.specs.Reading.{name_in, number_in, only, only_path_of, plain_of, wanted_in};
ghost use Rattle.message_json.specs.ServerReading.{text_in};
ghost use Rattle.update_msgs.specs.Writable.{most_text_bytes};

use crate::fault::MsgFault;
use hmr_types::limits::LARGEST_NUMBER;
use hmr_types::{ModName, NameFault, Text};
use serde_json::{Map, Value};
use std::alloc::{AllocError, Global};

pub(crate) fn text_from(alloc: Global, text: &str) -> Result<Text, AllocError>
    ensures { IfOk result (λ t. t ≡ text.now) }
{
    Ok(Text::from_string(String::from_str(alloc, text)?))
}

/// What was read at a key, or that the key is missing or has a wrong value.
pub(crate) fn found<T: Drop>(alloc: Global, key: &str, read: Option<T>) -> Result<T, MsgFault>
    ensures { Gives result (found key.now read) }
{
    match read {
        Some(x) => Ok(x),
        None => Err(MsgFault::BadField(text_from(alloc, key)?)),
    }
}

// Names, texts and numbers.

#[tactic(auto, unfolding(crate::specs::Reading::name_in))]
pub(crate) fn name_in(alloc: Global, value: &Value) -> Result<Option<ModName>, AllocError>
    ensures { IfOk result (λ o. o ≡ name_in (view value.now)) }
{
    match value.as_str() {
        Some(text) => read_name(alloc, text.as_bytes()),
        None => Ok(None),
    }
}

/// The name that bytes are, where they are one.
pub(crate) fn read_name(alloc: Global, bytes: &[u8]) -> Result<Option<ModName>, AllocError>
    ensures value { IfOk result (λ o. o ≡ if_holds is_name bytes.now) }
    ensures name { IfOk result
        (λ o. IfSome o (λ name. (name ≡ bytes.now) × (is_name bytes.now ≡ true))) }
{
    match ModName::read(alloc, bytes) {
        Ok(name) => Ok(Some(name)),
        Err(NameFault::NotAName) => Ok(None),
        Err(NameFault::NoMemory) => Err(AllocError),
    }
}

#[tactic(auto, unfolding(crate::specs::Reading::field))]
pub(crate) fn name_field(alloc: Global, value: &Value, key: &str) -> Result<ModName, MsgFault>
    ensures { Gives result (field name_in key.now (view value.now)) }
{
    match value.get(key) {
        Some(inner) => found(alloc, key, name_in(alloc, inner)?),
        None => found(alloc, key, None),
    }
}

#[tactic(auto, unfolding(crate::specs::Reading::field))]
pub(crate) fn text_field(alloc: Global, value: &Value, key: &str) -> Result<Text, MsgFault>
    ensures { Gives result (field as_str key.now (view value.now)) }
{
    match value.get(key).and_then(Value::as_str) {
        Some(text) => Ok(text_from(alloc, text)?),
        None => found(alloc, key, None),
    }
}

/// The text of a module, of at most 4,294,967,294 bytes.
#[tactic(auto, unfolding(crate::specs::Reading::field, crate::specs::ServerReading::text_in))]
pub(crate) fn module_text_field(alloc: Global, value: &Value, key: &str) -> Result<Text, MsgFault>
    ensures { Gives result (field text_in key.now (view value.now)) }
{
    match value.get(key).and_then(Value::as_str) {
        Some(text) if text.len() <= 4_294_967_294 => Ok(text_from(alloc, text)?),
        _ => found(alloc, key, None),
    }
}

#[tactic(auto, unfolding(crate::specs::Reading::number_in))]
pub(crate) fn number_in(low: u64, high: u64, value: &Value) -> Option<u64>
    ensures value { result ≡ number_in low high (view value.now) }
    ensures range { IfSome result (λ n. (low ≤ n) × (n ≤ high)) }
{
    match value.as_u64() {
        Some(n) if low <= n && n <= high => Some(n),
        _ => None,
    }
}

#[tactic(auto, unfolding(crate::specs::Reading::field))]
pub(crate) fn number_field(
    alloc: Global,
    value: &Value,
    key: &str,
    low: u64,
    high: u64,
) -> Result<u64, MsgFault>
    ensures value { Gives result (field (number_in low high) key.now (view value.now)) }
    ensures range { IfOk result (λ n. (low ≤ n) × (n ≤ high)) }
{
    match value.get(key) {
        Some(inner) => match number_in(low, high, inner) {
            Some(n) => Ok(n),
            None => found(alloc, key, None),
        },
        None => found(alloc, key, None),
    }
}

// Null, unless a value is wanted.

#[tactic(auto, unfolding(crate::specs::Reading::wanted_in))]
fn wanted_name_in(
    alloc: Global,
    wanted: bool,
    value: &Value,
) -> Result<Option<Option<ModName>>, AllocError>
    ensures { IfOk result (λ o. o ≡ wanted_in wanted name_in (view value.now)) }
{
    if wanted {
        match name_in(alloc, value)? {
            Some(name) => Ok(Some(Some(name))),
            None => Ok(None),
        }
    } else if value.is_null() {
        Ok(Some(None))
    } else {
        Ok(None)
    }
}

#[tactic(auto, unfolding(crate::specs::Reading::wanted_in))]
fn wanted_text_in(
    alloc: Global,
    wanted: bool,
    value: &Value,
) -> Result<Option<Option<Text>>, AllocError>
    ensures { IfOk result (λ o. o ≡ wanted_in wanted as_str (view value.now)) }
{
    if wanted {
        match value.as_str() {
            Some(text) => Ok(Some(Some(text_from(alloc, text)?))),
            None => Ok(None),
        }
    } else if value.is_null() {
        Ok(Some(None))
    } else {
        Ok(None)
    }
}

#[tactic(auto, unfolding(crate::specs::Reading::wanted_in))]
fn wanted_number_in(wanted: bool, value: &Value) -> Option<Option<u64>>
    ensures { result ≡ wanted_in wanted (number_in 0 LARGEST_NUMBER) (view value.now) }
{
    if wanted {
        match number_in(0, LARGEST_NUMBER, value) {
            Some(n) => Some(Some(n)),
            None => None,
        }
    } else if value.is_null() {
        Some(None)
    } else {
        None
    }
}

#[tactic(auto, unfolding(crate::specs::Reading::field))]
pub(crate) fn wanted_name_field(
    alloc: Global,
    value: &Value,
    key: &str,
    wanted: bool,
) -> Result<Option<ModName>, MsgFault>
    ensures { Gives result (field (wanted_in wanted name_in) key.now (view value.now)) }
{
    match value.get(key) {
        Some(inner) => found(alloc, key, wanted_name_in(alloc, wanted, inner)?),
        None => found(alloc, key, None),
    }
}

#[tactic(auto, unfolding(crate::specs::Reading::field))]
pub(crate) fn wanted_text_field(
    alloc: Global,
    value: &Value,
    key: &str,
    wanted: bool,
) -> Result<Option<Text>, MsgFault>
    ensures { Gives result (field (wanted_in wanted as_str) key.now (view value.now)) }
{
    match value.get(key) {
        Some(inner) => found(alloc, key, wanted_text_in(alloc, wanted, inner)?),
        None => found(alloc, key, None),
    }
}

#[tactic(auto, unfolding(crate::specs::Reading::field))]
pub(crate) fn wanted_number_field(
    alloc: Global,
    value: &Value,
    key: &str,
    wanted: bool,
) -> Result<Option<u64>, MsgFault>
    ensures { Gives result
        (field (wanted_in wanted (number_in 0 LARGEST_NUMBER)) key.now (view value.now)) }
{
    match value.get(key) {
        Some(inner) => found(alloc, key, wanted_number_in(wanted, inner)),
        None => found(alloc, key, None),
    }
}

// Further keys.

/// That the value has no keys but these.
#[tactic(auto, unfolding(crate::specs::Reading::only))]
pub(crate) fn only(alloc: Global, value: &Value, known: &[&str]) -> Result<(), MsgFault>
    ensures { Gives result (only (map (λ k. k.now) known.now) (view value.now)) }
{
    match value.as_object() {
        Some(members) => no_further(alloc, members, known),
        None => Ok(()),
    }
}

/// A message that has no fields.
pub(crate) fn plain_of<M: Drop>(alloc: Global, value: &Value, message: M) -> Result<M, MsgFault>
    ensures { Gives result (plain_of message (view value.now)) }
{
    only(alloc, value, &["type"])?;
    Ok(message)
}

/// The path of a message that has no other field.
pub(crate) fn only_path_of(alloc: Global, value: &Value) -> Result<ModName, MsgFault>
    ensures { Gives result (only_path_of (view value.now)) }
{
    let path = name_field(alloc, value, "path")?;
    only(alloc, value, &["path", "type"])?;
    Ok(path)
}

#[tactic(auto, unfolding(json_readings::specs::Object::further_member))]
fn no_further(alloc: Global, members: &Map<String, Value>, known: &[&str]) -> Result<(), MsgFault>
    ensures { Gives result
        (if_none (further_member (one_of (map (λ k. k.now) known.now)) (members_view members.now.entries))) }
{
    for (key, _value) in members.iter() {
        if !is_known(known, key.as_str()) {
            return Err(MsgFault::ExtraField(text_from(alloc, key.as_str())?));
        }
    }
    Ok(())
}

fn is_known(known: &[&str], key: &str) -> bool
    ensures { result ≡ one_of (map (λ k. k.now) known.now) key.now }
{
    is_any(known, key)
}

fn is_any(known: &[&str], key: &str) -> bool
    ensures { result ≡ list_any (λ n. bytes_eq n.now key.now) known.now }
{
    known.iter().any(|name| *name == key)
}
