// Lists of names: the test for a name, and a list in order, each name once.
ghost use Rattle.std.specs.Prelude.{◌≡◌, IfOk};
ghost use Rattle.core_model.specs.Names.{has, sorted};

use hmr_types::ModName;
use std::alloc::{AllocError, Global};

/// Whether the name is in the list. It takes time in proportion to the list.
pub fn has_name(names: &[ModName], name: &ModName) -> bool
    ensures { result ≡ has names.now name.now }
{
    names.iter().any(|n| n == name)
}

/// The names of the list, each once, rising by bytes. It takes the time of a sort.
pub fn rising(names: Vec<ModName>) -> Result<Vec<ModName>, AllocError>
    ensures { IfOk result (λ v. v.items ≡ sorted names.items) }
{
    let mut names = names;
    names.sort()?;
    names.dedup();
    Ok(names)
}

/// An equal list. It takes time in proportion to the bytes of the names.
pub fn copy_of(alloc: Global, names: &[ModName]) -> Result<Vec<ModName>, AllocError>
    ensures { IfOk result (λ copy. copy.items ≡ names.now) }
{
    let mut copy = Vec::new(alloc);
    for name in names {
        copy.push(name.clone()?)?;
    }
    Ok(copy)
}

/// An equal name.
pub fn copy_name(name: &ModName) -> Result<ModName, AllocError>
    ensures { IfOk result (λ copy. copy ≡ name.now) }
{
    name.clone()
}
