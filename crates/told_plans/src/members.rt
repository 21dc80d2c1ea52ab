// The members of a plan: names, and what stands beside each.
ghost use Rattle.std.specs.Prelude.{◌≡◌, [], IfOk, Option, option_and_then, option_map, if◌then◌else◌};
ghost use Rattle.serde_json.specs.Find.{as_array};
ghost use Rattle.serde_json.specs.View.{members_view, view};
ghost use Rattle.hmr_types.specs.ModName.{is_name};
ghost use Rattle.told_plans.specs.Reading.{id_in, kept_by, kept_in, kept_of, place_in, place_of};
ghost use Rattle.told_plans.specs.Reading.{put_members, rows_in, two_items, version_in};

use crate::told_plan::Kept;
use hmr_types::limits::LARGEST_NUMBER;
use hmr_types::{ModName, NameFault, Ver, is_name};
use instance_urls::PlanId;
use serde_json::{Map, Value};
use std::alloc::{AllocError, Global};
use std::collections::BTreeMap;

/// The plan whose text a value is.
pub(crate) fn id_in(value: &Value) -> Option<PlanId>
    ensures { result ≡ id_in (view value.now) }
{
    match value.as_str() {
        Some(text) => PlanId::read(text),
        None => None,
    }
}

/// The modules that a plan makes, with their versions.
pub(crate) fn made_in(
    alloc: Global,
    value: &Value,
) -> Result<Option<BTreeMap<ModName, Ver>>, AllocError>
    ensures { IfOk result (λ o. option_map (λ m. m.entries) o ≡ rows_in version_in (view value.now)) }
{
    match value.as_object() {
        Some(members) => made_of(alloc, members),
        None => Ok(None),
    }
}

/// The instances that a plan keeps.
pub(crate) fn kept_in(
    alloc: Global,
    value: &Value,
) -> Result<Option<BTreeMap<ModName, Kept>>, AllocError>
    ensures { IfOk result (λ o. option_map (λ m. m.entries) o ≡ rows_in kept_in (view value.now)) }
{
    match value.as_object() {
        Some(members) => kept_of(alloc, members),
        None => Ok(None),
    }
}

fn made_of(
    alloc: Global,
    members: &Map<String, Value>,
) -> Result<Option<BTreeMap<ModName, Ver>>, AllocError>
    ensures { IfOk result
        (λ o. option_map (λ m. m.entries) o ≡ put_members version_in [] (members_view members.now.entries)) }
{
    let mut made = BTreeMap::new(alloc);
    for (key, value) in members.iter() {
        match (name_of(alloc, key.as_str())?, version_in(value)) {
            (Some(name), Some(version)) => {
                made.insert(name, version)?;
            }
            _ => return Ok(None),
        }
    }
    Ok(Some(made))
}

fn kept_of(
    alloc: Global,
    members: &Map<String, Value>,
) -> Result<Option<BTreeMap<ModName, Kept>>, AllocError>
    ensures { IfOk result
        (λ o. option_map (λ m. m.entries) o ≡ put_members kept_in [] (members_view members.now.entries)) }
{
    let mut kept = BTreeMap::new(alloc);
    for (key, value) in members.iter() {
        match (name_of(alloc, key.as_str())?, one_kept_in(value)) {
            (Some(name), Some(instance)) => {
                kept.insert(name, instance)?;
            }
            _ => return Ok(None),
        }
    }
    Ok(Some(kept))
}

/// The name that a text is.
fn name_of(alloc: Global, text: &str) -> Result<Option<ModName>, AllocError>
    ensures { IfOk result (λ o. o ≡ (if is_name text.now then Some text.now else None)) }
{
    let bytes = text.as_bytes();
    if !is_name(bytes) {
        return Ok(None);
    }
    match ModName::read(alloc, bytes) {
        Ok(name) => Ok(Some(name)),
        Err(NameFault::NotAName) => Ok(None),
        Err(NameFault::NoMemory) => Err(AllocError),
    }
}

fn version_in(value: &Value) -> Option<Ver>
    ensures { result ≡ version_in (view value.now) }
{
    match value.as_u64() {
        Some(n) if 1 <= n && n <= LARGEST_NUMBER => Some(n),
        _ => None,
    }
}

/// A list of a plan and a version.
fn one_kept_in(value: &Value) -> Option<Kept>
    ensures { result ≡ kept_in (view value.now) }
{
    match two_items(value) {
        Some((plan, version)) => kept_from(place_in(plan), version_in(version)),
        None => None,
    }
}

fn kept_from(plan: Option<Option<PlanId>>, version: Option<Ver>) -> Option<Kept>
    ensures { result ≡ kept_of plan version }
{
    match (plan, version) {
        (Some(plan), Some(version)) => Some(Kept { plan, version }),
        _ => None,
    }
}

/// The plan whose text a value is, or none for the plain URL.
fn place_in(value: &Value) -> Option<Option<PlanId>>
    ensures { result ≡ place_in (view value.now) }
{
    match value.as_str() {
        Some(text) => place_of(text),
        None => None,
    }
}

fn place_of(text: &str) -> Option<Option<PlanId>>
    ensures { result ≡ place_of text.now }
{
    if text.is_empty() {
        return Some(None);
    }
    match PlanId::read(text) {
        Some(id) => Some(Some(id)),
        None => None,
    }
}

// The items of a list of two.
#[tactic(auto, using(crate::proofs::Lists::two_at))]
fn two_items(value: &Value) -> Option<(&Value, &Value)>
    ensures { option_map (λ p. (view p.0.now, view p.1.now)) result
        ≡ option_and_then two_items (as_array (view value.now)) }
{
    let first = value.get(0)?;
    let second = value.get(1)?;
    if value.get(2).is_some() {
        return None;
    }
    Some((first, second))
}
