// Lists of a message, as they are read: names, rows of a table, and callbacks.
ghost use Rattle.std.specs.Prelude.{◌≡◌, [], IfOk, option_and_then, option_map};
ghost use Rattle.serde_json.specs.Find.{as_array};
ghost use Rattle.serde_json.specs.View.{items_view, view};
ghost use Rattle.update_msgs.specs.Names.{rise};
ghost use Rattle.message_json.specs.Reading.{Gives, GivesList, field, field_or, items_in};
ghost use Rattle.message_json.specs.Reading.{list_in, name_in, number_in, rising_in, row_in};
ghost use Rattle.message_json.specs.Reading.{some_names_in, table_in, two_items};

use crate::fault::MsgFault;
use crate::field::{found, name_in, number_in};
use hmr_types::limits::LARGEST_NUMBER;
use hmr_types::{ModName, Table, Ver};
use serde_json::Value;
use std::alloc::{AllocError, Global};

fn names_of(alloc: Global, items: &[Value]) -> Result<Option<Vec<ModName>>, AllocError>
    ensures { IfOk result (λ o. option_map (λ v. v.items) o ≡ items_in name_in (items_view items.now)) }
{
    let mut names = Vec::new(alloc);
    for item in items.iter() {
        match name_in(alloc, item)? {
            Some(name) => names.push(name)?,
            None => return Ok(None),
        }
    }
    Ok(Some(names))
}

#[tactic(auto, unfolding(crate::specs::Reading::list_in))]
fn names_in(alloc: Global, value: &Value) -> Result<Option<Vec<ModName>>, AllocError>
    ensures { IfOk result (λ o. option_map (λ v. v.items) o ≡ list_in name_in (view value.now)) }
{
    match value.as_array() {
        Some(items) => names_of(alloc, items.as_slice()),
        None => Ok(None),
    }
}

#[tactic(auto, unfolding(crate::specs::Reading::some_names_in))]
fn some_names_in(alloc: Global, value: &Value) -> Result<Option<Vec<ModName>>, AllocError>
    ensures { IfOk result (λ o. option_map (λ v. v.items) o ≡ some_names_in (view value.now)) }
{
    match names_in(alloc, value)? {
        Some(names) if !names.is_empty() => Ok(Some(names)),
        _ => Ok(None),
    }
}

/// The roots that a client names; none where the key is absent.
#[tactic(auto, unfolding(crate::specs::Reading::field_or))]
pub(crate) fn roots_field(alloc: Global, value: &Value, key: &str) -> Result<Vec<ModName>, MsgFault>
    ensures { GivesList result (field_or [] some_names_in key.now (view value.now)) }
{
    match value.get(key) {
        Some(inner) => found(alloc, key, some_names_in(alloc, inner)?),
        None => Ok(Vec::new(alloc)),
    }
}

#[tactic(auto, unfolding(crate::specs::Reading::field))]
pub(crate) fn names_field(alloc: Global, value: &Value, key: &str) -> Result<Vec<ModName>, MsgFault>
    ensures { GivesList result (field (list_in name_in) key.now (view value.now)) }
{
    match value.get(key) {
        Some(inner) => found(alloc, key, names_in(alloc, inner)?),
        None => found(alloc, key, None),
    }
}

/// One name or more.
#[tactic(auto, unfolding(crate::specs::Reading::field))]
pub(crate) fn some_names_field(
    alloc: Global,
    value: &Value,
    key: &str,
) -> Result<Vec<ModName>, MsgFault>
    ensures { GivesList result (field some_names_in key.now (view value.now)) }
{
    match value.get(key) {
        Some(inner) => found(alloc, key, some_names_in(alloc, inner)?),
        None => found(alloc, key, None),
    }
}

// Rows.

// The items of a list of two.
#[tactic(auto, using(crate::proofs::Loops::two_at))]
fn two_items(value: &Value) -> Option<(&Value, &Value)>
    ensures { option_map (λ p. (view p.0.now, view p.1.now)) result
        ≡ option_and_then two_items (as_array (view value.now)) }
{
    let first = value.get(0)?;
    let second = value.get(1)?;
    if value.get(2).is_some() {
        return None;
    }
    Some((first, second))
}

#[tactic(auto, unfolding(crate::specs::Reading::row_in))]
fn row_in(alloc: Global, value: &Value) -> Result<Option<(ModName, Ver)>, AllocError>
    ensures { IfOk result (λ o. o ≡ row_in (view value.now)) }
{
    match two_items(value) {
        Some((first, second)) => match name_in(alloc, first)? {
            Some(path) => match number_in(1, LARGEST_NUMBER, second) {
                Some(version) => Ok(Some((path, version))),
                None => Ok(None),
            },
            None => Ok(None),
        },
        None => Ok(None),
    }
}

fn rows_of(alloc: Global, items: &[Value]) -> Result<Option<Vec<(ModName, Ver)>>, AllocError>
    ensures { IfOk result (λ o. option_map (λ v. v.items) o ≡ items_in row_in (items_view items.now)) }
{
    let mut rows = Vec::new(alloc);
    for item in items.iter() {
        match row_in(alloc, item)? {
            Some(row) => rows.push(row)?,
            None => return Ok(None),
        }
    }
    Ok(Some(rows))
}

#[tactic(auto, unfolding(crate::specs::Reading::list_in))]
fn rows_in(alloc: Global, value: &Value) -> Result<Option<Vec<(ModName, Ver)>>, AllocError>
    ensures { IfOk result (λ o. option_map (λ v. v.items) o ≡ list_in row_in (view value.now)) }
{
    match value.as_array() {
        Some(items) => rows_of(alloc, items.as_slice()),
        None => Ok(None),
    }
}

#[tactic(auto, unfolding(crate::specs::Reading::table_in))]
fn table_in(alloc: Global, value: &Value) -> Result<Option<Table>, AllocError>
    ensures { IfOk result (λ o. o ≡ table_in (view value.now)) }
{
    match rows_in(alloc, value)? {
        Some(rows) => Ok(Table::of(rows)),
        None => Ok(None),
    }
}

#[tactic(auto, unfolding(crate::specs::Reading::field))]
pub(crate) fn table_field(alloc: Global, value: &Value, key: &str) -> Result<Table, MsgFault>
    ensures { Gives result (field table_in key.now (view value.now)) }
{
    match value.get(key) {
        Some(inner) => found(alloc, key, table_in(alloc, inner)?),
        None => found(alloc, key, None),
    }
}

// Names that rise.

fn names_rise(names: &[ModName]) -> bool
    ensures { result ≡ rise names.now }
{
    for i in 1..names.len() {
        if !(names[i - 1] < names[i]) {
            return false;
        }
    }
    true
}

#[tactic(auto, unfolding(crate::specs::Reading::rising_in))]
fn rising_in(alloc: Global, value: &Value) -> Result<Option<Vec<ModName>>, AllocError>
    ensures { IfOk result (λ o. option_map (λ v. v.items) o ≡ rising_in (view value.now)) }
{
    match names_in(alloc, value)? {
        Some(names) if names_rise(names.as_slice()) => Ok(Some(names)),
        _ => Ok(None),
    }
}

#[tactic(auto, unfolding(crate::specs::Reading::field))]
pub(crate) fn rising_field(
    alloc: Global,
    value: &Value,
    key: &str,
) -> Result<Vec<ModName>, MsgFault>
    ensures { GivesList result (field rising_in key.now (view value.now)) }
{
    match value.get(key) {
        Some(inner) => found(alloc, key, rising_in(alloc, inner)?),
        None => found(alloc, key, None),
    }
}
