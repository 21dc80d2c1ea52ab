// Which names a module imports from which dependency. Only the tree of its text tells it: an analysis
// keeps the dependencies without the names.
ghost use Rattle.std.specs.Prelude.{◌≡◌, ◌+◌, ◌++◌, ◌<◌, ◌^◌, IfOk, length, map};
ghost use Rattle.hmr_types.specs.Specifier.{resolve};
ghost use Rattle.module_tree.specs.Tree.{item_of};
ghost use Rattle.import_links.specs.Links.{linked, links, links_of, with_names};

use hmr_types::{ModName, Name, SpecFault, Text, resolve};
use hot_parser::parse;
use module_tree::{ImportName, Item};
use std::alloc::{AllocError, Global};
use std::marker::Model;

/// A name that a module imports from a dependency. Contracts see the pair of the two.
#[derive(Debug, Drop)]
pub struct Link {
    dependency: ModName,
    name: Name,
}

impl Model for Link {
    ghost use Rattle.std.specs.Prelude.{ℕ, List};

    ghost Value = { List ℕ × List ℕ };

    ghost view = { λ l. (l.dependency, l.name) };
}

impl Link {
    /// The module that the name is imported from.
    pub fn dependency(&self) -> &ModName
        ensures { result.now ≡ self.now.0 }
    {
        &self.dependency
    }

    /// The name that the dependency is to export.
    pub fn name(&self) -> &Name
        ensures { result.now ≡ self.now.1 }
    {
        &self.name
    }
}

/// Each name that the text of the module `base` imports, with the dependency that it is imported from,
/// in the order of the text. A text that reads as no module imports none, nor does an import whose
/// specifier means no module. It takes time and memory linear in the text, but for the names of the
/// dependencies, of at most 255 bytes each.
pub fn links(alloc: Global, base: &ModName, text: &[u8]) -> Result<Vec<Link>, AllocError>
    requires short { length text.now + 1 < 2 ^ 32 }
    ensures { IfOk result (λ found. found.items ≡ links base.now text.now) }
{
    match parse(alloc, text) {
        Ok(tree) => links_of(alloc, base, &tree.items),
        Err(fault) => match fault.text_fault() {
            Some(_) => Ok(Vec::new(alloc)),
            None => Err(AllocError),
        },
    }
}

/// What these items import.
fn links_of(alloc: Global, base: &ModName, items: &[Item]) -> Result<Vec<Link>, AllocError>
    ensures { IfOk result (λ links. links.items ≡ links_of base.now (map item_of items.now)) }
{
    let mut links = Vec::new(alloc);
    for item in items {
        if let Item::Import { spec, names } = item {
            add_links(&mut links, alloc, base, spec, names.as_slice())?;
        }
    }
    Ok(links)
}

/// What an import by this specifier imports, behind what came before.
fn add_links(
    links: &mut Vec<Link>,
    alloc: Global,
    base: &ModName,
    spec: &Text,
    names: &[ImportName],
) -> Result<(), AllocError>
    ensures { IfOk result
        (λ _. links.new.items ≡ links.old.items ++ linked (resolve base.now spec.now) names.now) }
{
    match resolve(alloc, base, spec.as_str().as_bytes()) {
        Ok(dependency) => add_names(links, &dependency, names),
        Err(SpecFault::NoMemory) => Err(AllocError),
        Err(_) => Ok(()),
    }
}

/// The dependency with each of the names, behind what came before.
fn add_names(
    links: &mut Vec<Link>,
    dependency: &ModName,
    names: &[ImportName],
) -> Result<(), AllocError>
    ensures { IfOk result (λ _. links.new.items ≡ links.old.items ++ with_names dependency.now names.now) }
{
    for name in names {
        links.push(Link {
            dependency: dependency.clone()?,
            name: name.exported.clone()?,
        })?;
    }
    Ok(())
}
