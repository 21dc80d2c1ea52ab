// What a runtime shows of its instances: its stale edges, the values of exports, and the fates of instances
// and handlers.
ghost use Rattle.std.specs.Prelude.{◌≡◌, ◌++◌, IfOk, OnOk, slice_get};
ghost use Rattle.client_model.specs.Past.{Past, runtime_after};
ghost use Rattle.client_model.specs.Printing.{fate_lines, value_lines};
ghost use Rattle.client_model.specs.Runtime.{Opening, Runtime};
ghost use Rattle.client_model.specs.Stale.{stale_of};
ghost use Rattle.module_language.specs.ModuleLanguage.{module_language};
ghost use Rattle.page_state.specs.Standing as deeds;
ghost use Rattle.runtime_showing.specs.Showing.{stale_row};
ghost use Rattle.runtime_state.specs.Standing.{StandsFor};

use hmr_types::ModName;
use module_graph::{copy_of, rising};
use output_lines::OutLine;
use page_showing::{fate_lines, tell_stale, value_lines};
use runtime_state::HotRuntime;
use std::alloc::AllocError;

/// The stale edges, rising by importer and then by dependency: a live importer that is linked to an
/// older instance of what it imports. It takes time in proportion to the modules and to their imports
/// and links, each with the logarithm of their number.
pub fn stale<F>(runtime: &HotRuntime<F>) -> Result<Vec<(ModName, ModName)>, AllocError>
    ensures { (opening : Opening) (past : Past) → StandsFor opening past runtime.now
        → IfOk result (λ edges. edges.items ≡ stale_of (runtime_after module_language opening past)) }
{
    let names = runtime.view.names(runtime.allocator())?;
    let mut edges = Vec::new(runtime.allocator());
    for place in 0..names.len() {
        add_stale(runtime, place, &mut edges)?;
    }
    Ok(edges)
}

// Adds the stale edges of the module at a place of the view.
fn add_stale<F>(
    runtime: &HotRuntime<F>,
    place: usize,
    edges: &mut Vec<(ModName, ModName)>,
) -> Result<(), AllocError>
    ensures { (r : Runtime) → deeds.StandsFor r runtime.now.page
        → OnOk result
        (edges.new.items ≡ edges.old.items ++ stale_row r (slice_get runtime.now.view place)) }
{
    match runtime.view.at(place) {
        Some((name, _, analysis)) => {
            let imports = copy_of(runtime.allocator(), analysis.imports.as_slice())?;
            let imports = rising(imports)?;
            tell_stale(&runtime.page, runtime.allocator(), name, &imports, edges)
        }
        None => Ok(()),
    }
}

/// The lines of what the exports of live modules hold. It takes time in proportion to the modules,
/// each with the logarithm of their number, and to the exports, each with the variables of its module.
pub fn values<F>(runtime: &HotRuntime<F>) -> Result<Vec<OutLine>, AllocError>
    ensures { (opening : Opening) (past : Past) → StandsFor opening past runtime.now
        → IfOk result (λ lines. lines.items ≡ value_lines (runtime_after module_language opening past)) }
{
    let names = runtime.view.names(runtime.allocator())?;
    let names = rising(names)?;
    value_lines(&runtime.page, runtime.allocator(), &names)
}

/// The lines of each instance that was made, with its handlers. It takes time in proportion to them.
pub fn fates<F>(runtime: &HotRuntime<F>) -> Result<Vec<OutLine>, AllocError>
    ensures { (opening : Opening) (past : Past) → StandsFor opening past runtime.now
        → IfOk result (λ lines. lines.items ≡ fate_lines (runtime_after module_language opening past)) }
{
    fate_lines(&runtime.page, runtime.allocator())
}
