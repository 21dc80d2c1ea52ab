// The fresh load: of the reached names those that are served, and those that aren't.
ghost use Rattle.std.specs.Prelude.{◌≡◌, ◌++◌, ℕ, All, IfOk, List, OnOk, filter, is_some, not};
ghost use Rattle.core_model.specs.Names.{Name, at, collect, with_entry};
ghost use Rattle.core_model.specs.FreshLoad.{fresh_load, version_in};
ghost use Rattle.import_links.specs.Links.{links};
ghost use Rattle.fresh_loads.specs.Fresh.{HasVersion, load_of};

use crate::reach::reached_names;
use crate::unlinked::unlinked_names;
use hmr_types::{ModName, Name, Sequence, Table, Ver};
use std::alloc::{AllocError, Global};
use version_map::VersionMap;

/// What a page would load anew of what is served.
#[derive(Drop)]
pub struct Fresh {
    /// The reached names that are served, with their served versions.
    pub table: Table,
    /// The reached names that aren't served, rising by bytes.
    pub missing: Sequence<ModName>,
    /// The imports of reached modules from served ones that don't export them: the importer, the
    /// dependency and the name. They rise.
    pub unlinked: Sequence<(ModName, ModName, Name)>,
}

/// The fresh load of what is served, from these roots, which may come in any order. It looks at each reached
/// module once, and reads the text of each that is served; its lists rise by bytes. It fails only where memory
/// runs out.
pub fn fresh_load(
    alloc: Global,
    versions: &VersionMap,
    roots: &[ModName],
) -> Result<Fresh, AllocError>
    ensures { IfOk result (λ fresh. load_of fresh ≡ fresh_load links versions.now.served roots.now) }
{
    let names = reached_names(alloc, versions, roots)?;
    let rows = served_rows(alloc, versions, &names)?;
    let missing = missing_names(alloc, versions, &names)?;
    let unlinked = unlinked_names(alloc, versions, &names)?;
    // Reached names rise, and what is served has a version.
    let table = Table::of(rows).unwrap();
    Ok(Fresh {
        table,
        missing: Sequence::from_vec(missing),
        unlinked: Sequence::from_vec(unlinked),
    })
}

// The names that are served, with their versions.
fn served_rows(
    alloc: Global,
    versions: &VersionMap,
    names: &[ModName],
) -> Result<Vec<(ModName, Ver)>, AllocError>
    ensures rows { IfOk result
        (λ rows. rows.items ≡ collect (λ n. version_in (at versions.now.served n)) names.now) }
    ensures versions { IfOk result (λ rows. All HasVersion rows.items) }
{
    let mut rows = Vec::new(alloc);
    for name in names {
        add_row(&mut rows, versions, name)?;
    }
    Ok(rows)
}

// Adds the name with its version, where it is served.
fn add_row(
    rows: &mut Vec<(ModName, Ver)>,
    versions: &VersionMap,
    name: &ModName,
) -> Result<(), AllocError>
    ensures rows { OnOk result
        ((rest : List (Name × ℕ))
        → rows.new.items ++ rest
        ≡ rows.old.items ++ with_entry name.now (version_in (at versions.now.served name.now)) rest) }
    ensures versions { All HasVersion rows.old.items → OnOk result (All HasVersion rows.new.items) }
{
    if let Some(served) = versions.served(name) {
        let ver = served.ver;
        let copy = name.clone()?;
        rows.push((copy, ver))?;
    }
    Ok(())
}

// The names that aren't served.
fn missing_names(
    alloc: Global,
    versions: &VersionMap,
    names: &[ModName],
) -> Result<Vec<ModName>, AllocError>
    ensures { IfOk result
        (λ missing. missing.items ≡ filter (λ n. not (is_some (at versions.now.served n))) names.now) }
{
    let mut missing = Vec::new(alloc);
    for name in names {
        if !is_served(versions, name) {
            missing.push(name.clone()?)?;
        }
    }
    Ok(missing)
}

fn is_served(versions: &VersionMap, name: &ModName) -> bool
    ensures { result ≡ is_some (at versions.now.served name.now) }
{
    match versions.served(name) {
        Some(_) => true,
        None => false,
    }
}
