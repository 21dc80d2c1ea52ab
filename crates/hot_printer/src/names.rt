// Names: a list of them with commas, and the one of a parameter.
ghost use Rattle.std.specs.Prelude.{◌≡◌, ◌++◌, OnOk};
ghost use Rattle.module_semantics.specs.Canon.{comma_then, commas, nth};

use crate::text::put;
use hmr_types::Name;
use std::alloc::AllocError;

/// Puts names with commas between them.
pub fn put_names(out: &mut Vec<u8>, names: &[Name]) -> Result<(), AllocError>
    ensures { OnOk result (out.new.items ≡ out.old.items ++ commas names.now) }
{
    if let [first, rest @ ..] = names {
        put(out, first.as_str())?;
        put_later_names(out, rest)?;
    }
    Ok(())
}

fn put_later_names(out: &mut Vec<u8>, names: &[Name]) -> Result<(), AllocError>
    ensures { OnOk result (out.new.items ≡ out.old.items ++ comma_then names.now) }
{
    for name in names {
        put(out, ", ")?;
        put(out, name.as_str())?;
    }
    Ok(())
}

/// Puts the name of the parameter of a place, from 0, and nothing past the last.
pub fn put_param(out: &mut Vec<u8>, params: &[Name], place: u32) -> Result<(), AllocError>
    ensures { OnOk result (out.new.items ≡ out.old.items ++ nth params.now place) }
{
    match params.get(place as usize) {
        Some(name) => put(out, name.as_str()),
        None => Ok(()),
    }
}
