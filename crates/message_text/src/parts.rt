// The parts of messages as JSON values: what may be null, and lists of names.
ghost use Rattle.std.specs.Prelude.{◌≡◌, IfOk, map};
ghost use Rattle.serde_json.specs.Data.{string};
ghost use Rattle.serde_json.specs.View.{view};
ghost use Rattle.message_text.specs.Values.{list, number_or_null, or_null};

use hmr_types::ModName;
use serde_json::{Value, json};
use std::alloc::{AllocError, Global};

pub(crate) fn name_or_null(alloc: Global, name: &Option<ModName>) -> Result<Value, AllocError>
    ensures { IfOk result (λ v. view v ≡ or_null name.now) }
{
    match name {
        Some(name) => json!(in alloc; name.as_str()),
        None => Ok(Value::Null),
    }
}

pub(crate) fn number_or_null(alloc: Global, number: &Option<u64>) -> Result<Value, AllocError>
    ensures { IfOk result (λ v. view v ≡ number_or_null number.now) }
{
    match number {
        Some(n) => json!(in alloc; *n),
        None => Ok(Value::Null),
    }
}

fn name_value(alloc: Global, name: &ModName) -> Result<Value, AllocError>
    ensures { IfOk result (λ v. view v ≡ string name.now) }
{
    json!(in alloc; name.as_str())
}

pub(crate) fn names_value(alloc: Global, names: &[ModName]) -> Result<Value, AllocError>
    ensures { IfOk result (λ v. view v ≡ list string names.now) }
{
    let mut items = Vec::new(alloc);
    for name in names.iter() {
        items.push(name_value(alloc, name)?)?;
    }
    Ok(Value::Array(items))
}
