// The modules of a view with their versions.
ghost use Rattle.std.specs.Prelude.{◌≡◌, IfOk};
ghost use Rattle.core_model.specs.View.{table_of};

use hmr_types::{ModName, Table, Ver};
use module_graph::{View, copy_name};
use std::alloc::{AllocError, Global};

/// The table of a view: its modules with their versions. It takes time in proportion to the modules. It
/// fails where memory runs out; a view that is no table, which no message that can be written brings about,
/// is answered as that is.
pub fn table_of(alloc: Global, view: &View) -> Result<Table, AllocError>
    ensures { IfOk result (λ table. table ≡ table_of view.now) }
{
    let rows = rows_of(alloc, view)?;
    match Table::of(rows) {
        Some(table) => Ok(table),
        None => Err(AllocError),
    }
}

/// The modules of a view with their versions. It takes time in proportion to them. It fails only where memory
/// runs out.
pub(crate) fn rows_of(alloc: Global, view: &View) -> Result<Vec<(ModName, Ver)>, AllocError>
    ensures { IfOk result (λ rows. rows.items ≡ table_of view.now) }
{
    let mut rows = Vec::new(alloc);
    loop {
        match view.at(rows.len()) {
            Some((name, version, _)) => rows.push((copy_name(name)?, version))?,
            None => return Ok(rows),
        }
    }
}
