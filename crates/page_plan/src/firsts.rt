// Maps that keep the first value of each name.
ghost use Rattle.std.specs.Prelude.{◌≡◌, Some, None, if◌then◌else◌, OnOk};
ghost use Rattle.std.specs.Option.{option_or};
ghost use Rattle.core_model.specs.Names.{Name, at, same_name};

use hmr_types::ModName;
use module_graph::copy_name;
use std::alloc::AllocError;
use std::collections::BTreeMap;

/// Keeps a value for a name, unless one is kept.
pub(crate) fn keep_first<V: Copy>(
    values: &mut BTreeMap<ModName, V>,
    name: &ModName,
    value: V,
) -> Result<(), AllocError>
    ensures { (n : Name) → OnOk result (at values.new.entries n
        ≡ option_or (at values.old.entries n) (if same_name name.now n then Some value else None)) }
{
    if values.contains_key(name) {
        return Ok(());
    }
    values.insert(copy_name(name)?, value)?;
    Ok(())
}
