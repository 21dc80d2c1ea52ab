// A plan is read from the bytes that a page sent.
ghost use Rattle.std.specs.Prelude.{◌≡◌, IfErr, IfOk, IsErrOf, codes};
ghost use Rattle.serde_json.specs.Data.{Data};
ghost use Rattle.serde_json.specs.Find.{as_bool};
ghost use Rattle.serde_json.specs.View.{view};
ghost use Rattle.told_plans.specs.Reading.{Gives, GivesRows, HasCause, HasReading, IsToldBy, checked};
ghost use Rattle.told_plans.specs.Reading.{field, id_in, is_twice};
ghost use Rattle.told_plans.specs.Reading.{kept_in, needed, rows_in, told_of, version_in};

use crate::fault::PlanFault;
use crate::members::{id_in, kept_in, made_in};
use crate::told_plan::{Kept, ToldPlan};
use hmr_types::limits::SOURCE_NAMES;
use hmr_types::{ModName, Ver};
use instance_urls::PlanId;
use serde_json::Value;
use std::alloc::Global;
use std::collections::BTreeMap;

/// The plan that a page tells, as JSON:
/// `{"plan": "5.2", "plain": false, "made": {"/a.js": 4}, "kept": {"/b.js": ["5.1", 2], "/c.js": ["", 1]}}`. A
/// module is made at a version; one that is kept has the plan that made its instance, `""` for the plain URL,
/// and its version.
///
/// [`PlanFault::NotJson`] comes exactly where the bytes aren't UTF-8 or have no JSON reading; else the first
/// fault of this order comes: `plan`, `plain`, `made` or `kept` is missing or wrong, as where one of its names
/// is no name of a module or one of its numbers out of range; more than 8,192 modules are named; one is both
/// made and kept. Other members are passed over, and of equal keys the last stands. It takes time and memory in
/// proportion to the bytes, but for the logarithm of the modules.
pub fn read_plan(alloc: Global, bytes: &[u8]) -> Result<ToldPlan, PlanFault>
    ensures exact { IfOk result (IsToldBy bytes.now) }
    ensures cause { IfErr result (HasCause bytes.now) }
    ensures read { (d : Data) → HasReading bytes.now d → Gives result (told_of d) }
    ensures not_json { IsErrOf result PlanFault.NotJson → (d : Data) → ¬ (HasReading bytes.now d) }
{
    match Value::from_slice(alloc, bytes) {
        Ok(value) => plan_in(alloc, &value),
        Err(e) if e.is_memory() => Err(PlanFault::NoMemory),
        Err(_) => Err(PlanFault::NotJson),
    }
}

fn plan_in(alloc: Global, value: &Value) -> Result<ToldPlan, PlanFault>
    ensures { Gives result (told_of (view value.now)) }
{
    let id = id_field(value)?;
    let plain = plain_field(value)?;
    let made = made_field(alloc, value)?;
    let kept = kept_field(alloc, value)?;
    checked(ToldPlan {
        id,
        plain,
        made,
        kept,
    })
}

/// That the plan names few enough modules, each once.
fn checked(plan: ToldPlan) -> Result<ToldPlan, PlanFault>
    ensures { Gives result (checked plan) }
{
    if plan.made.len() + plan.kept.len() > SOURCE_NAMES {
        return Err(PlanFault::TooMany);
    }
    if is_twice(&plan) {
        return Err(PlanFault::Twice);
    }
    Ok(plan)
}

/// Whether a module is both made and kept.
fn is_twice(plan: &ToldPlan) -> bool
    ensures { result ≡ is_twice plan.now }
{
    for (name, _instance) in plan.kept.iter() {
        if plan.version(name).is_some() {
            return true;
        }
    }
    false
}

fn id_field(value: &Value) -> Result<PlanId, PlanFault>
    ensures { result ≡ field PlanFault.WrongPlan id_in (codes "plan") (view value.now) }
{
    match value.get("plan") {
        Some(inner) => needed(PlanFault::WrongPlan, id_in(inner)),
        None => Err(PlanFault::WrongPlan),
    }
}

fn plain_field(value: &Value) -> Result<bool, PlanFault>
    ensures { result ≡ field PlanFault.WrongPlain as_bool (codes "plain") (view value.now) }
{
    match value.get("plain") {
        Some(inner) => needed(PlanFault::WrongPlain, inner.as_bool()),
        None => Err(PlanFault::WrongPlain),
    }
}

fn made_field(alloc: Global, value: &Value) -> Result<BTreeMap<ModName, Ver>, PlanFault>
    ensures { GivesRows result (field PlanFault.WrongMade (rows_in version_in) (codes "made") (view value.now)) }
{
    match value.get("made") {
        Some(inner) => {
            let made = made_in(alloc, inner)?;
            needed(PlanFault::WrongMade, made)
        }
        None => Err(PlanFault::WrongMade),
    }
}

fn kept_field(alloc: Global, value: &Value) -> Result<BTreeMap<ModName, Kept>, PlanFault>
    ensures { GivesRows result (field PlanFault.WrongKept (rows_in kept_in) (codes "kept") (view value.now)) }
{
    match value.get("kept") {
        Some(inner) => {
            let kept = kept_in(alloc, inner)?;
            needed(PlanFault::WrongKept, kept)
        }
        None => Err(PlanFault::WrongKept),
    }
}

/// What was read, or the fault.
fn needed<T: Drop>(fault: PlanFault, read: Option<T>) -> Result<T, PlanFault>
    ensures { result ≡ needed fault read }
{
    match read {
        Some(value) => Ok(value),
        None => Err(fault),
    }
}
