// Lines of values.
ghost use Rattle.std.specs.Prelude.{◌≡◌, ◌++◌, IfOk, OnOk, string_bytes};
ghost use Rattle.module_semantics.specs.Bodies.{line_of, spaced};

use crate::values::put_value;
use hmr_types::{Text, Value};
use std::alloc::{AllocError, Global};

/// The values as text, joined by one space.
pub fn line_of(alloc: Global, values: &[Value]) -> Result<Text, AllocError>
    ensures { IfOk result (λ t. t ≡ line_of values.now) }
{
    let mut out = String::new(alloc);
    if let [first, rest @ ..] = values {
        put_value(&mut out, first)?;
        put_spaced(&mut out, rest)?;
    }
    Ok(Text::from_string(out))
}

/// Appends each value after a space.
fn put_spaced(out: &mut String, values: &[Value]) -> Result<(), AllocError>
    ensures { OnOk result (string_bytes out.new ≡ string_bytes out.old ++ spaced values.now) }
{
    for value in values {
        out.push_str(" ")?;
        put_value(out, value)?;
    }
    Ok(())
}
