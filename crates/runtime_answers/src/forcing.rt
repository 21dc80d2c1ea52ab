// Names that rise by bytes: a name is put in where it belongs.
ghost use Rattle.std.specs.Prelude.{◌≡◌, ◌≤◌, IfOk, IfErr, OnOk, length};
ghost use Rattle.std.specs.List.{insert};
ghost use Rattle.core_model.specs.Names.{put_name};

use hmr_types::ModName;
use std::alloc::AllocError;

/// Puts a name in where it belongs, unless it is there.
pub(crate) fn put_name(names: &mut Vec<ModName>, name: ModName) -> Result<(), AllocError>
    ensures { OnOk result (names.new.items ≡ put_name name names.old.items) }
{
    if let Err(place) = name_place(names, &name) {
        names.insert(place, name)?;
    }
    Ok(())
}

// Where a name stands, or else where it belongs.
fn name_place(names: &[ModName], name: &ModName) -> Result<usize, usize>
    ensures there { IfOk result (λ i. put_name name.now names.now ≡ names.now) }
    ensures free { IfErr result (λ i. put_name name.now names.now ≡ insert names.now i name.now) }
    ensures within { IfErr result (λ i. i ≤ length names.now) }
{
    for place in 0..names.len() {
        if *name == names[place] {
            return Ok(place);
        }
        if *name < names[place] {
            return Err(place);
        }
    }
    Err(names.len())
}
