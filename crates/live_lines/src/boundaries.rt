// The modules that accepted something in an update.
ghost use Rattle.std.specs.Prelude.{◌≡◌, [], IfOk, OnOk};
ghost use Rattle.live_lines.specs.PageLines.{add_boundary, with_boundaries};

use hmr_types::ModName;
use std::alloc::{AllocError, Global};

/// The boundaries of these pairs, each once. It takes time in proportion to the pairs times the boundaries.
pub(crate) fn boundaries_of(
    alloc: Global,
    accepted: &[(ModName, ModName)],
) -> Result<Vec<ModName>, AllocError>
    ensures { IfOk result (λ names. names.items ≡ with_boundaries [] accepted.now) }
{
    let mut came = Vec::new(alloc);
    for pair in accepted {
        add(&mut came, &pair.0)?;
    }
    Ok(came)
}

fn add(came: &mut Vec<ModName>, name: &ModName) -> Result<(), AllocError>
    ensures { OnOk result (came.new.items ≡ add_boundary came.old.items name.now) }
{
    if !came.contains(name) {
        came.push(name.clone()?)?;
    }
    Ok(())
}
