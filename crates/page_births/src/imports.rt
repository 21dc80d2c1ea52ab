// What the specifiers of a module mean, and what its imports bind. A specifier that means no module counts
// for nothing.
ghost use Rattle.std.specs.Prelude.{◌≡◌, ◌++◌, ◌∷◌, [], IfOk, OnOk, map};
ghost use Rattle.module_tree.specs.Tree.{item_of, module_of};
ghost use Rattle.module_semantics.specs.Analysis.{meant};
ghost use Rattle.module_language.specs.ModuleLanguage.{binding_to, bound_by, bound_in};
ghost use Rattle.page_instances.specs.Seeing.{binding_of, listed};

use hmr_types::{ModName, Sequence, SpecFault, Text, resolve};
use module_tree::{ImportName, Item, Module};
use page_instances::Bound;
use std::alloc::{AllocError, Global};

/// The module that a specifier means, none where it means none.
fn meaning(alloc: Global, base: &ModName, spec: &Text) -> Result<Option<ModName>, AllocError>
    ensures { IfOk result (λ found. listed found ≡ meant base.now (spec.now ∷ [])) }
{
    match resolve(alloc, base, spec.as_str().as_bytes()) {
        Ok(name) => Ok(Some(name)),
        Err(SpecFault::NoMemory) => Err(AllocError),
        Err(_) => Ok(None),
    }
}

/// The modules that specifiers mean to the module `base`, in order. It fails only where memory runs out.
pub fn meant(alloc: Global, base: &ModName, specs: &[Text]) -> Result<Vec<ModName>, AllocError>
    ensures { IfOk result (λ names. names.items ≡ meant base.now specs.now) }
{
    let mut names = Vec::new(alloc);
    for spec in specs {
        if let Some(name) = meaning(alloc, base, spec)? {
            names.push(name)?;
        }
    }
    Ok(names)
}

/// What the imports of the module `base` bind, in the order of its text. It fails only where memory runs
/// out. It takes time in proportion to the tree.
pub fn bindings_of(
    alloc: Global,
    base: &ModName,
    tree: &Module,
) -> Result<Sequence<Bound>, AllocError>
    ensures { IfOk result (λ bounds. map binding_of bounds ≡ bound_in base.now (module_of tree.now)) }
{
    let mut bounds = Vec::new(alloc);
    for item in &tree.items {
        add_item(&mut bounds, alloc, base, item)?;
    }
    Ok(Sequence::from_vec(bounds))
}

/// Adds what an item binds.
fn add_item(
    bounds: &mut Vec<Bound>,
    alloc: Global,
    base: &ModName,
    item: &Item,
) -> Result<(), AllocError>
    ensures { OnOk result (map binding_of bounds.new.items
        ≡ map binding_of bounds.old.items ++ bound_by base.now (item_of item.now)) }
{
    if let Item::Import { spec, names } = item {
        if let Some(dependency) = meaning(alloc, base, spec)? {
            add_names(bounds, &dependency, names.as_slice())?;
        }
    }
    Ok(())
}

/// Adds what these names of a dependency bind.
fn add_names(
    bounds: &mut Vec<Bound>,
    dependency: &ModName,
    names: &[ImportName],
) -> Result<(), AllocError>
    ensures { OnOk result (map binding_of bounds.new.items
        ≡ map binding_of bounds.old.items ++ map (binding_to dependency.now) names.now) }
{
    for name in names {
        bounds.push(bound_to(dependency, name)?)?;
    }
    Ok(())
}

/// What a name of a dependency binds.
fn bound_to(dependency: &ModName, name: &ImportName) -> Result<Bound, AllocError>
    ensures { IfOk result (λ bound. binding_of bound ≡ binding_to dependency.now name.now) }
{
    Ok(Bound {
        dependency: dependency.clone()?,
        exported: name.exported.clone()?,
        local: name.local.clone()?,
    })
}
