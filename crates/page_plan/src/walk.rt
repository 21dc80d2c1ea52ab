// What the walk of a plan meets.
ghost use Rattle.std.specs.Prelude.{◌≡◌, ◌++◌, IfOk};
ghost use Rattle.core_model.specs.Names.{sorted};
ghost use Rattle.core_model.specs.View.{imported_of, imports_of};
ghost use Rattle.core_model.specs.Page.{entry_at, met_of, plan_imports};

use crate::plan::Plan;
use crate::walker::Walker;
use hmr_types::ModName;
use module_graph::{Edges, View, copy_of, reached, rising};
use std::alloc::{AllocError, Global};

// The imports of the modules of a plan, over the page's modules.
#[derive(Clone, Copy)]
struct PlanImports<'a> {
    plan: &'a Plan,
    view: &'a View,
}

impl<'a> PlanImports<'a> {
    fn of(plan: &'a Plan, view: &'a View) -> PlanImports<'a>
        ensures plan { result.plan.now ≡ plan.now }
        ensures view { result.view.now ≡ view.now }
    {
        PlanImports { plan, view }
    }
}

impl<'a> Edges for PlanImports<'a> {
    ghost edge = { λ s. plan_imports s.plan.now s.view.now };

    ghost names = { λ s. imported_of s.view.now ++ imported_of s.plan.now.staged };

    fn next(&self, alloc: Global, name: &ModName) -> Result<Vec<ModName>, AllocError> {
        let names = imports_in(alloc, self.plan, self.view, name)?;
        Ok(names)
    }
}

// What a module of the plan imports.
fn imports_in(
    alloc: Global,
    plan: &Plan,
    view: &View,
    name: &ModName,
) -> Result<Vec<ModName>, AllocError>
    ensures { IfOk result (λ names. names.items ≡ imports_of (entry_at plan.now view.now name.now)) }
{
    match plan.entry(view, name) {
        Some((_, analysis)) => copy_of(alloc, analysis.imports.as_slice()),
        None => Ok(Vec::new(alloc)),
    }
}

/// The names that the plan's walk meets, rising by bytes. Where all are kept or fetched it takes the time
/// of one walk and of a sort.
pub(crate) fn met(
    alloc: Global,
    roots: &[ModName],
    plan: &Plan,
    view: &View,
) -> Result<Vec<ModName>, AllocError>
    ensures { IfOk result (λ met. met.items ≡ sorted (met_of roots.now plan.now view.now)) }
{
    let mut walker = Walker::new(alloc, roots)?;
    match walker.go_on(plan, view)? {
        None => {
            let met = rising(walker.into_left())?;
            Ok(met)
        }
        Some(_) => {
            let met = met_past(alloc, roots, plan, view)?;
            Ok(met)
        }
    }
}

// The same, whatever isn't fetched.
fn met_past(
    alloc: Global,
    roots: &[ModName],
    plan: &Plan,
    view: &View,
) -> Result<Vec<ModName>, AllocError>
    ensures { IfOk result (λ met. met.items ≡ sorted (met_of roots.now plan.now view.now)) }
{
    let imports = PlanImports::of(plan, view);
    let found = reached(alloc, &imports, roots)?;
    let met = rising(found)?;
    Ok(met)
}
