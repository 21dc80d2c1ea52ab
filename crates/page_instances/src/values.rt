// The variables of a module: what one holds, and how a run's assignments change them.
ghost use Rattle.std.specs.Prelude.{◌≡◌, IfOk, OnOk, fold};
ghost use Rattle.client_model.specs.Language.{slot_at};
ghost use Rattle.client_model.specs.Running.{assigned};
ghost use Rattle.page_instances.specs.Assigning.{TellsLast, value_in, with_value};

use hmr_types::{Name, Slot, Value};
use std::alloc::{AllocError, Global};
use std::collections::BTreeMap;

/// What a variable holds; nothing where there is no such variable.
pub fn slot_at(slots: &[(Name, Slot)], name: &Name) -> Result<Slot, AllocError>
    ensures { IfOk result (λ s. s ≡ slot_at slots.now name.now) }
{
    for row in slots {
        if row.0 == *name {
            return row.1.clone();
        }
    }
    Ok(Slot::Unset)
}

/// One variable gets a value.
fn assign(values: &mut Vec<(Name, Slot)>, name: &Name, value: &Value) -> Result<(), AllocError>
    ensures { OnOk result (values.new.items ≡ assigned values.old.items (name.now, value.now)) }
{
    for place in 0..values.len() {
        if values[place].0 == *name {
            values[place].1 = Slot::Val(value.clone()?);
        }
    }
    Ok(())
}

/// Up to so many changes are made sooner by walks than by an index.
const FEW_CHANGES: usize = 16;

/// The variables get these values, in order. It fails only where memory runs out. It takes time in
/// proportion to the number of variables and the number of changes, but for the logarithm of the number of
/// changes.
pub fn assign_all(
    values: &mut Vec<(Name, Slot)>,
    changes: &[(Name, Value)],
) -> Result<(), AllocError>
    ensures { OnOk result (values.new.items ≡ fold assigned values.old.items changes.now) }
{
    if changes.len() <= FEW_CHANGES {
        assign_each(values, changes)
    } else {
        assign_by_index(values, changes)
    }
}

/// The variables get these values, by a walk for each.
fn assign_each(values: &mut Vec<(Name, Slot)>, changes: &[(Name, Value)]) -> Result<(), AllocError>
    ensures { OnOk result (values.new.items ≡ fold assigned values.old.items changes.now) }
{
    for change in changes {
        assign(values, &change.0, &change.1)?;
    }
    Ok(())
}

/// The variables get these values, by one walk with an index of the last value of each name.
fn assign_by_index(
    values: &mut Vec<(Name, Slot)>,
    changes: &[(Name, Value)],
) -> Result<(), AllocError>
    ensures { OnOk result (values.new.items ≡ fold assigned values.old.items changes.now) }
{
    let index = last_values(*values.allocator(), changes)?;
    for variable in values.iter_mut() {
        give_last(variable, &index)?;
    }
    Ok(())
}

/// The variable gets the value that the index has for its name, if there is one.
fn give_last(variable: &mut (Name, Slot), index: &BTreeMap<Name, &Value>) -> Result<(), AllocError>
    ensures { OnOk result (variable.new ≡ with_value (value_in index.now variable.old.0) variable.old) }
{
    if let Some(value) = index.get(&variable.0) {
        variable.1 = Slot::Val((*value).clone()?);
    }
    Ok(())
}

/// The last value that the changes give each name.
fn last_values<'a>(
    alloc: Global,
    changes: &'a [(Name, Value)],
) -> Result<BTreeMap<Name, &'a Value>, AllocError>
    ensures { IfOk result (λ index. TellsLast index changes.now) }
{
    let mut index = BTreeMap::new(alloc);
    // A later value of a name takes the place of an earlier one.
    for change in changes {
        index.insert(change.0.clone()?, &change.1)?;
    }
    Ok(index)
}
