// The versions of the modules of a page, as rows of a table.
ghost use Rattle.std.specs.Prelude.{◌≡◌, ◌++◌, IfOk, OnOk, length, slice_get};
ghost use Rattle.core_model.specs.View.{table_of};
ghost use Rattle.page_marks.specs.Listed.{listed};

use hmr_types::{ModName, Ver};
use module_graph::View;
use std::alloc::{AllocError, Global};

/// The names of the modules of the page, of which there are `count`, each with its version, in the order of
/// the page. It takes one walk of the page, and memory for the names; that is all that can fail.
pub fn versions_of(
    alloc: Global,
    view: &View,
    count: usize,
) -> Result<Vec<(ModName, Ver)>, AllocError>
    requires { count ≡ length view.now }
    ensures { IfOk result (λ rows. rows.items ≡ table_of view.now) }
{
    let mut rows = Vec::new(alloc);
    for place in 0..count {
        push_row(&mut rows, view, place)?;
    }
    Ok(rows)
}

// Adds the module at this place, if there is one.
fn push_row(rows: &mut Vec<(ModName, Ver)>, view: &View, place: usize) -> Result<(), AllocError>
    ensures { OnOk result (rows.new.items ≡ rows.old.items ++ table_of (listed (slice_get view.now place))) }
{
    if let Some((name, version, _)) = view.at(place) {
        rows.push((name.clone()?, version))?;
    }
    Ok(())
}
