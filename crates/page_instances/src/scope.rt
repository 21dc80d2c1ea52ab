// What the code of an instance reads beside its own variables: its imports, each with what the export holds
// now of the instance that the import is linked to.
ghost use Rattle.std.specs.Prelude.{◌≡◌, ◌++◌, IfOk, OnOk};
ghost use Rattle.std.specs.Option.{option_map};
ghost use Rattle.core_model.specs.Names.{at};
ghost use Rattle.page_instances.specs.Scopes.{kept_at, slot_by, bound_slots};

use crate::instance::{Bound, Instance};
use crate::values::slot_at;
use hmr_types::{ModName, Name, Sequence, Slot};
use module_semantics::Env;
use std::alloc::{AllocError, Global};

/// The number that an import is linked to.
fn link_at(links: &[(ModName, u32)], name: &ModName) -> Option<u32>
    ensures { result ≡ at links.now name.now }
{
    for row in links {
        if row.0 == *name {
            return Some(row.1);
        }
    }
    None
}

/// The instance of a number, from 1: None exactly where there is none. It takes the same time whatever the
/// number.
pub fn instance_at<F>(instances: &[Instance<F>], number: u32) -> Option<&Instance<F>>
    ensures { option_map (λ c. c.now) result ≡ kept_at instances.now number }
{
    match number.checked_sub(1) {
        Some(place) => instances.get(place as usize),
        None => None,
    }
}

/// What an export of the instance of a number holds now.
fn slot_by<F>(
    instances: &[Instance<F>],
    number: Option<u32>,
    name: &Name,
) -> Result<Slot, AllocError>
    ensures { IfOk result (λ s. s ≡ slot_by number instances.now name.now) }
{
    match number {
        Some(number) => match instance_at(instances, number) {
            Some(instance) => slot_at(&instance.values, name),
            None => Ok(Slot::Unset),
        },
        None => Ok(Slot::Unset),
    }
}

/// Adds the local names of imports, each with what its export holds now.
fn add_bound<F>(
    vars: &mut Vec<(Name, Slot)>,
    instances: &[Instance<F>],
    links: &[(ModName, u32)],
    bounds: &[Bound],
) -> Result<(), AllocError>
    ensures { OnOk result
        (vars.new.items ≡ vars.old.items ++ bound_slots instances.now links.now bounds.now) }
{
    for bound in bounds {
        let slot = slot_by(
            instances,
            link_at(links, &bound.dependency),
            &bound.exported,
        )?;
        vars.push((bound.local.clone()?, slot))?;
    }
    Ok(())
}

/// The local names of imports that are linked so, each with what its export holds now: what the evaluation
/// of a new instance reads. It fails only where memory runs out.
pub fn slots_bound<F>(
    alloc: Global,
    instances: &[Instance<F>],
    links: &[(ModName, u32)],
    bounds: &[Bound],
) -> Result<Env, AllocError>
    ensures { IfOk result (λ env. env.vars ≡ bound_slots instances.now links.now bounds.now) }
{
    let mut vars = Vec::new(alloc);
    add_bound(&mut vars, instances, links, bounds)?;
    Ok(Env {
        vars: Sequence::from_vec(vars),
    })
}

/// The local names of the imports of an instance, each with what its export holds now: what its code reads
/// beside its own variables. It fails only where memory runs out. It takes time in proportion to the
/// look-ups of the imports.
pub fn imports_in<F>(
    alloc: Global,
    instances: &[Instance<F>],
    instance: &Instance<F>,
) -> Result<Env, AllocError>
    ensures { IfOk result
        (λ env. env.vars ≡ bound_slots instances.now instance.now.links instance.now.bindings) }
{
    let links = instance.links.as_slice();
    let bindings = instance.bindings.as_slice();
    let env = slots_bound(alloc, instances, links, bindings)?;
    Ok(env)
}
