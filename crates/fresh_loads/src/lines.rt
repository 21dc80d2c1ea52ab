// What a page would load anew, as lines.
ghost use Rattle.std.specs.Prelude.{◌≡◌, ◌++◌, ◌∷◌, IfOk, map};
ghost use Rattle.output_lines.specs.declared.out_line.OutLine.TheVariants.{Missing};
ghost use Rattle.client_model.specs.Printing.{module_line};
ghost use Rattle.world_model.specs.Steps.{load_lines, unlinked_line};
ghost use Rattle.fresh_loads.specs.Fresh.{load_of};

use crate::loading::Fresh;
use hmr_types::{ModName, Name, Table};
use output_lines::OutLine;
use std::alloc::{AllocError, Global};

/// The lines of a fresh load, below this one: its modules, then the names that aren't served, then the
/// imports that aren't exported. It fails only where memory runs out, and takes time and memory in
/// proportion to the lines.
pub fn load_lines(alloc: Global, first: OutLine, load: Fresh) -> Result<Vec<OutLine>, AllocError>
    ensures { IfOk result (λ lines. lines.items ≡ first ∷ load_lines (load_of load)) }
{
    let mut lines = Vec::new(alloc);
    lines.push(first)?;
    add_modules(&mut lines, load.table)?;
    add_missing(&mut lines, load.missing.into_vec())?;
    add_unlinked(&mut lines, load.unlinked.into_vec())?;
    Ok(lines)
}

/// Puts the lines of the modules of a table behind those before. It fails only where memory runs out; then
/// some of them may be there.
pub fn add_modules(lines: &mut Vec<OutLine>, table: Table) -> Result<(), AllocError>
    ensures { IfOk result (λ _. lines.new.items ≡ lines.old.items ++ map module_line table) }
{
    for (name, version) in table.into_vec() {
        lines.push(OutLine::Module { name, version })?;
    }
    Ok(())
}

fn add_missing(lines: &mut Vec<OutLine>, names: Vec<ModName>) -> Result<(), AllocError>
    ensures { IfOk result (λ _. lines.new.items ≡ lines.old.items ++ map Missing names.items) }
{
    for name in names {
        lines.push(OutLine::Missing { name })?;
    }
    Ok(())
}

fn add_unlinked(
    lines: &mut Vec<OutLine>,
    edges: Vec<(ModName, ModName, Name)>,
) -> Result<(), AllocError>
    ensures { IfOk result (λ _. lines.new.items ≡ lines.old.items ++ map unlinked_line edges.items) }
{
    for (importer, dependency, export) in edges {
        lines.push(OutLine::Unlinked {
            importer,
            dependency,
            export,
        })?;
    }
    Ok(())
}
