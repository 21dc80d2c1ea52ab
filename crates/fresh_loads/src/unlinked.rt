// The imports that no export answers. Which names a served text imports from which dependency is read
// from the text again, since an analysis keeps the dependencies alone.
ghost use Rattle.std.specs.Prelude.{◌≡◌, ◌++◌, IfOk, OnOk, filter, flat_map, map, not};
ghost use Rattle.core_model.specs.Names.{at, has, sorted};
ghost use Rattle.core_model.specs.FreshLoad.{Served, imports_in, unlinked_edge, unlinked_module};
ghost use Rattle.import_links.specs.Links.{links};
ghost use Rattle.fresh_loads.specs.Searching.{AreClosed, HaveExports, unlinked_by};

use crate::exports::{ExportSet, Exports};
use crate::linked::Linked;
use hmr_types::{ModName, Name};
use import_links::{Link, links};
use module_graph::{copy_of, rising};
use std::alloc::{AllocError, Global};
use version_map::VersionMap;

/// An import that no export answers: the importer, the dependency and the name.
pub(crate) type Unlinked = (ModName, ModName, Name);

/// The imports of these modules from served ones that don't export them. It reads the served text of
/// each of the names once, and takes the time of a sort of what they import and export.
pub(crate) fn unlinked_names(
    alloc: Global,
    versions: &VersionMap,
    names: &[ModName],
) -> Result<Vec<Unlinked>, AllocError>
    requires { AreClosed versions.now.served names.now }
    ensures { IfOk result
        (λ found. found.items
        ≡ flat_map (λ n. unlinked_module links versions.now.served n (at versions.now.served n)) names.now) }
{
    let exports = Exports::of(alloc, versions, names)?;
    let mut found = Vec::new(alloc);
    for name in names {
        add_module(&mut found, alloc, versions, &exports, name)?;
    }
    Ok(found)
}

fn add_module(
    found: &mut Vec<Unlinked>,
    alloc: Global,
    versions: &VersionMap,
    exports: &Exports,
    name: &ModName,
) -> Result<(), AllocError>
    requires { HaveExports versions.now.served (imports_in (at versions.now.served name.now)) exports.now }
    ensures { OnOk result
        (found.new.items
        ≡ found.old.items
        ++ unlinked_module links versions.now.served name.now (at versions.now.served name.now)) }
{
    let Some(served) = versions.served(name) else {
        return Ok(());
    };
    let text = served.text.as_slice();
    let links = links(alloc, name, text)?;
    let imports = served.analysis.imports.as_slice();
    add_imports(found, alloc, exports, name, imports, &links)?;
    Ok(())
}

// What a module of these imports and links imports and isn't exported.
fn add_imports(
    found: &mut Vec<Unlinked>,
    alloc: Global,
    exports: &Exports,
    name: &ModName,
    imports: &[ModName],
    links: &[Link],
) -> Result<(), AllocError>
    ensures { (served : Served) → HaveExports served imports.now exports.now
        → OnOk result
        (found.new.items
        ≡ found.old.items
        ++ flat_map (λ m. unlinked_edge links.now (at served m) name.now m) (sorted imports.now)) }
{
    let linked = Linked::of(alloc, links)?;
    let imports = copy_of(alloc, imports)?;
    let dependencies = rising(imports)?;
    add_edges(found, alloc, exports, name, &dependencies, &linked)?;
    Ok(())
}

// What a module imports from these dependencies and they don't export.
fn add_edges(
    found: &mut Vec<Unlinked>,
    alloc: Global,
    exports: &Exports,
    name: &ModName,
    dependencies: &[ModName],
    linked: &Linked,
) -> Result<(), AllocError>
    ensures { OnOk result
        (found.new.items
        ≡ found.old.items ++ flat_map (unlinked_by exports.now linked.now name.now) dependencies.now) }
{
    for dependency in dependencies {
        add_edge(found, alloc, exports, name, dependency, linked)?;
    }
    Ok(())
}

fn add_edge(
    found: &mut Vec<Unlinked>,
    alloc: Global,
    exports: &Exports,
    name: &ModName,
    dependency: &ModName,
    linked: &Linked,
) -> Result<(), AllocError>
    ensures { OnOk result
        (found.new.items ≡ found.old.items ++ unlinked_by exports.now linked.now name.now dependency.now) }
{
    let Some(set) = exports.get(dependency) else {
        return Ok(());
    };
    let taken = linked.get(dependency);
    let names = unexported(alloc, taken, set)?;
    add_names(found, name, dependency, &names)?;
    Ok(())
}

fn add_names(
    found: &mut Vec<Unlinked>,
    name: &ModName,
    dependency: &ModName,
    names: &[Name],
) -> Result<(), AllocError>
    ensures { OnOk result
        (found.new.items ≡ found.old.items ++ map (λ x. (name.now, dependency.now, x)) names.now) }
{
    for x in names {
        found.push((name.clone()?, dependency.clone()?, x.clone()?))?;
    }
    Ok(())
}

// The names that aren't in the set, rising, each once.
fn unexported(alloc: Global, names: &[Name], set: &ExportSet) -> Result<Vec<Name>, AllocError>
    ensures { IfOk result (λ left. left.items ≡ sorted (filter (λ x. not (has set.now x)) names.now)) }
{
    let mut left = without(alloc, names, set)?;
    left.sort()?;
    left.dedup();
    Ok(left)
}

fn without(alloc: Global, names: &[Name], set: &ExportSet) -> Result<Vec<Name>, AllocError>
    ensures { IfOk result (λ left. left.items ≡ filter (λ x. not (has set.now x)) names.now) }
{
    let mut left = Vec::new(alloc);
    for name in names {
        if !set.has(name) {
            left.push(name.clone()?)?;
        }
    }
    Ok(left)
}
