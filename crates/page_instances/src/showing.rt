// The lines that show an instance: what its exports hold, and what became of it and of its handlers.
ghost use Rattle.std.specs.Prelude.{◌≡◌, ◌++◌, ◌∷◌, [], map, OnOk};
ghost use Rattle.output_lines.specs.declared.out_line.OutLine.TheVariants as line;
ghost use Rattle.page_instances.specs.Showing.{lines_in, mark_line, export_lines};

use crate::instance::Instance;
use crate::marks::Mark;
use crate::values::slot_at;
use hmr_types::{ModName, Name, Slot};
use output_lines::OutLine;
use std::alloc::AllocError;

/// Adds a line for each of these exports, of what it holds.
fn tell_each(
    lines: &mut Vec<OutLine>,
    name: &ModName,
    values: &[(Name, Slot)],
    exports: &[Name],
) -> Result<(), AllocError>
    ensures { OnOk result
        (lines.new.items ≡ lines.old.items ++ export_lines name.now values.now exports.now) }
{
    for export in exports {
        lines.push(OutLine::Value {
            name: name.clone()?,
            export: export.clone()?,
            value: slot_at(values, export)?,
        })?;
    }
    Ok(())
}

/// Adds a line for each export of an instance of the module of this name, of what it holds. It fails
/// only where memory runs out. It takes time in proportion to the exports, and for each to the
/// variables.
pub fn tell_values<F>(
    lines: &mut Vec<OutLine>,
    name: &ModName,
    instance: &Instance<F>,
) -> Result<(), AllocError>
    ensures { OnOk result (lines.new.items
        ≡ lines.old.items ++ export_lines name.now instance.now.values.items instance.now.exports) }
{
    tell_each(lines, name, &instance.values, instance.exports.as_slice())?;
    Ok(())
}

/// Adds a line for each handler.
fn tell_marks(lines: &mut Vec<OutLine>, marks: &[Mark]) -> Result<(), AllocError>
    ensures { OnOk result (lines.new.items ≡ lines.old.items ++ map mark_line marks.now) }
{
    for mark in marks {
        lines.push(OutLine::Handler {
            kind: mark.kind,
            handled: mark.handled.clone()?,
            end: mark.end,
        })?;
    }
    Ok(())
}

/// Adds the line of an instance, of what became of it. It fails only where memory runs out.
fn tell_one<F>(
    lines: &mut Vec<OutLine>,
    number: u32,
    instance: &Instance<F>,
) -> Result<(), AllocError>
    ensures { OnOk result (lines.new.items ≡ lines.old.items
        ++ line.Instance number instance.now.name instance.now.version instance.now.status instance.now.fate
        ∷ []) }
{
    lines.push(OutLine::Instance {
        number,
        name: instance.name.clone()?,
        version: instance.version,
        status: instance.status,
        fate: instance.fate,
    })?;
    Ok(())
}

/// Adds the line of the instance of this number, and a line for each handler that it ever had, of what
/// became of it. It fails only where memory runs out. It takes time in proportion to the handlers.
pub fn tell_fate<F>(
    lines: &mut Vec<OutLine>,
    number: u32,
    instance: &Instance<F>,
) -> Result<(), AllocError>
    ensures { OnOk result (lines.new.items ≡ lines.old.items ++ lines_in number instance.now) }
{
    tell_one(lines, number, instance)?;
    tell_marks(lines, &instance.marks)?;
    Ok(())
}
