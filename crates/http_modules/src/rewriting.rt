// The specifiers of a module's imports with the versions that are served. What a text accepts stays as it is:
// a client compares it with names.
ghost use Rattle.std.specs.Prelude.{◌≡◌, IfOk, map};
ghost use Rattle.module_tree.specs.Tree.{item_of, module_of};
ghost use Rattle.core_model.specs.Names.{at};
ghost use Rattle.hmr_types.specs.Specifier.{resolve};
ghost use Rattle.http_modules.specs.Rewriting.{rewrite, rewrite_item, versioned, with_version};

use hmr_types::{ModName, SpecFault, Text, resolve};
use module_tree::{Item, Module};
use std::alloc::{AllocError, Global};
use version_map::VersionMap;

/// The module of the name `base` in which the specifier of each import is the name that it means, followed by
/// `?v=` and the version that is served of that name, in decimal; a name of which nothing is served stands
/// alone, and a specifier that means no module stays. It takes time in proportion to the imports, and as many
/// comparisons of names for each as the logarithm of their number.
pub fn rewrite(
    alloc: Global,
    base: &ModName,
    tree: Module,
    map: &VersionMap,
) -> Result<Module, AllocError>
    ensures { IfOk result (λ new. module_of new ≡ rewrite base.now (module_of tree) map.now) }
{
    let mut items = Vec::with_capacity(alloc, tree.items.len())?;
    for item in tree.items {
        items.push(rewrite_item(alloc, base, item, map)?)?;
    }
    Ok(Module { items })
}

fn rewrite_item(
    alloc: Global,
    base: &ModName,
    item: Item,
    map: &VersionMap,
) -> Result<Item, AllocError>
    ensures { IfOk result (λ new. item_of new ≡ rewrite_item base.now map.now (item_of item)) }
{
    match item {
        Item::Import { spec, names } => Ok(Item::Import {
            spec: versioned(alloc, base, spec, map)?,
            names,
        }),
        other => Ok(other),
    }
}

/// What stands for a specifier.
fn versioned(
    alloc: Global,
    base: &ModName,
    spec: Text,
    map: &VersionMap,
) -> Result<Text, AllocError>
    ensures { IfOk result (λ new. new ≡ versioned map.now spec (resolve base.now spec)) }
{
    match resolve(alloc, base, spec.as_str().as_bytes()) {
        Ok(name) => with_version(alloc, &name, map),
        Err(SpecFault::NoMemory) => Err(AllocError),
        Err(_) => Ok(spec),
    }
}

/// A name, and the version that is served of it.
fn with_version(alloc: Global, name: &ModName, map: &VersionMap) -> Result<Text, AllocError>
    ensures { IfOk result (λ text. text ≡ with_version name.now (at map.now.served name.now)) }
{
    let mut text = String::new(alloc);
    text.push_str(name.as_str())?;
    if let Some(served) = map.served(name) {
        text.push_str("?v=")?;
        text.push_str(itoa::Buffer::new().format(served.ver))?;
    }
    Ok(Text::from_string(text))
}
