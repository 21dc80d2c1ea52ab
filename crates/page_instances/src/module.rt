// A module as the argument of a callback: its exports and what they hold now.
ghost use Rattle.std.specs.Prelude.{◌≡◌, IfOk, map};
ghost use Rattle.module_language.specs.ModuleLanguage.{argument_of};
ghost use Rattle.page_instances.specs.Scopes.{exports_in, slots_of};

use crate::instance::Instance;
use crate::values::slot_at;
use hmr_types::{Name, Sequence, Slot};
use module_semantics::ModParam;
use output_lines::InstanceStatus;
use std::alloc::{AllocError, Global};

/// What each of these variables holds, in order.
fn slots_of(
    alloc: Global,
    values: &[(Name, Slot)],
    names: &[Name],
) -> Result<Vec<(Name, Slot)>, AllocError>
    ensures { IfOk result (λ slots. slots.items ≡ slots_of values.now names.now) }
{
    let mut slots = Vec::new(alloc);
    for name in names {
        slots.push((name.clone()?, slot_at(values, name)?))?;
    }
    Ok(slots)
}

/// An instance as the argument of a callback: its exports, or `undefined` where it wasn't evaluated to its
/// end. It fails only where memory runs out.
pub fn exports_in<F>(alloc: Global, instance: &Instance<F>) -> Result<ModParam, AllocError>
    ensures { IfOk result (λ m. m ≡ argument_of (exports_in instance.now)) }
{
    match instance.status {
        InstanceStatus::Done => {
            let slots = slots_of(alloc, &instance.values, instance.exports.as_slice())?;
            Ok(ModParam::Mod(Sequence::from_vec(slots)))
        }
        InstanceStatus::Faulted | InstanceStatus::Unrun => Ok(ModParam::Undef),
    }
}
