// What a page reaches of what is served: a search from the roots along the imports of served sources.
ghost use Rattle.std.specs.Prelude.{◌≡◌, IfOk};
ghost use Rattle.core_model.specs.FreshLoad.{imported_by_served, imports, imports_in, reached_by};
ghost use Rattle.core_model.specs.Names.{at};

use hmr_types::ModName;
use module_graph::{Edges, copy_of, reached, rising};
use std::alloc::{AllocError, Global};
use version_map::VersionMap;

/// The names that lists of imports reach from the roots, rising by bytes, each once. It looks at each
/// reached module once, and takes the time of a sort of what they import.
pub(crate) fn reached_names(
    alloc: Global,
    versions: &VersionMap,
    roots: &[ModName],
) -> Result<Vec<ModName>, AllocError>
    ensures { IfOk result (λ names. names.items ≡ reached_by versions.now.served roots.now) }
{
    let known = reached(alloc, &ServedImports::of(versions), roots)?;
    let names = rising(known)?;
    Ok(names)
}

// The imports of served sources: an edge from each served module to what it imports.
#[derive(Clone, Copy)]
struct ServedImports<'a> {
    versions: &'a VersionMap,
}

impl<'a> ServedImports<'a> {
    fn of(versions: &'a VersionMap) -> ServedImports<'a>
        ensures { result.versions.now ≡ versions.now }
    {
        ServedImports { versions }
    }
}

impl<'a> Edges for ServedImports<'a> {
    ghost edge = { λ s. imports s.versions.now.served };

    ghost names = { λ s. imported_by_served s.versions.now.served };

    fn next(&self, alloc: Global, name: &ModName) -> Result<Vec<ModName>, AllocError> {
        let names = imports_of(alloc, self.versions, name)?;
        Ok(names)
    }
}

// What the served source of a name imports.
fn imports_of(
    alloc: Global,
    versions: &VersionMap,
    name: &ModName,
) -> Result<Vec<ModName>, AllocError>
    ensures { IfOk result (λ names. names.items ≡ imports_in (at versions.now.served name.now)) }
{
    match versions.served(name) {
        Some(served) => copy_of(alloc, served.analysis.imports.as_slice()),
        None => Ok(Vec::new(alloc)),
    }
}
