// The stale bindings of a page.
ghost use Rattle.std.specs.Prelude.{◌≡◌, ◌++◌, ◌∷◌, [], IfOk, OnOk};
ghost use Rattle.std.specs.Option.{option_copied};
ghost use Rattle.live_lines.specs.Pages.{stale_among, stale_at, stale_binding, stale_by, stale_in, stale_of};

use crate::StaleBinding;
use crate::instance::{Binding, Instance};
use hmr_types::{ModName, Ver};
use std::alloc::{AllocError, Global};
use std::collections::BTreeMap;

/// The stale bindings among these modules.
pub(crate) fn stale_in(
    alloc: Global,
    modules: &BTreeMap<ModName, Instance>,
) -> Result<Vec<StaleBinding>, AllocError>
    ensures { IfOk result (λ bindings. bindings.items ≡ stale_of modules.now.entries) }
{
    let mut found = Vec::new(alloc);
    for (name, instance) in modules.iter() {
        put_stale(&mut found, modules, name, instance)?;
    }
    Ok(found)
}

// Puts the stale bindings of an instance behind others.
fn put_stale(
    found: &mut Vec<StaleBinding>,
    modules: &BTreeMap<ModName, Instance>,
    importer: &ModName,
    instance: &Instance,
) -> Result<(), AllocError>
    ensures { OnOk result
        (found.new.items ≡ found.old.items ++ stale_in modules.now.entries (importer.now, instance.now)) }
{
    let bindings = instance.bindings.as_slice();
    put_among(found, modules, importer, instance.made, bindings)
}

// Puts the stale ones among bindings behind others.
fn put_among(
    found: &mut Vec<StaleBinding>,
    modules: &BTreeMap<ModName, Instance>,
    importer: &ModName,
    made: u64,
    bindings: &[Binding],
) -> Result<(), AllocError>
    ensures { OnOk result (found.new.items
        ≡ found.old.items ++ stale_among modules.now.entries importer.now made bindings.now) }
{
    for binding in bindings {
        put_one(found, modules, importer, made, binding)?;
    }
    Ok(())
}

// Puts a binding behind others, where a later plan made the live instance of its module.
fn put_one(
    found: &mut Vec<StaleBinding>,
    modules: &BTreeMap<ModName, Instance>,
    importer: &ModName,
    made: u64,
    binding: &Binding,
) -> Result<(), AllocError>
    ensures { OnOk result (found.new.items
        ≡ found.old.items ++ stale_at modules.now.entries importer.now made binding.now) }
{
    let live = modules.get(&binding.dependency);
    put_if_stale(found, importer, made, binding, live)
}

// Puts a binding behind others, where it is stale.
fn put_if_stale(
    found: &mut Vec<StaleBinding>,
    importer: &ModName,
    made: u64,
    binding: &Binding,
    live: Option<&Instance>,
) -> Result<(), AllocError>
    ensures { OnOk result (found.new.items
        ≡ found.old.items ++ stale_by importer.now made binding.now (option_copied live.entry)) }
{
    match live {
        Some(instance) => {
            if made < instance.made {
                put_binding(found, importer, binding, instance.version)
            } else {
                Ok(())
            }
        }
        None => Ok(()),
    }
}

fn put_binding(
    found: &mut Vec<StaleBinding>,
    importer: &ModName,
    binding: &Binding,
    live: Ver,
) -> Result<(), AllocError>
    ensures { OnOk result (found.new.items
        ≡ found.old.items ++ stale_binding importer.now binding.now live ∷ []) }
{
    found.push(StaleBinding {
        importer: importer.clone()?,
        imported: binding.dependency.clone()?,
        name: binding.name.clone()?,
        linked: binding.version,
        live,
    })?;
    Ok(())
}
