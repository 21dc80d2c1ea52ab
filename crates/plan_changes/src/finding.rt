// A plan for which all is fetched is applied: what becomes of the instances is found before any of them ends.
ghost use Rattle.std.specs.Prelude.{◌≡◌, ◌+◌, ◌≤◌, length, IfOk, IfSome};
ghost use Rattle.hmr_types.specs.declared.limits.TheConstants.{INSTANCES};
ghost use Rattle.core_model.specs.Page.{Plan};
ghost use Rattle.client_model.specs.Runtime.{Runtime};
ghost use Rattle.plan_changes.specs.Changing.{CanChange};
ghost use Rattle.plan_changes.specs.Finding.{IsFound, IsFoundIn, IsPageOf, IsToApply};
ghost use Rattle.client_plan.specs.Planned.{count_in};
ghost use Rattle.client_plan.specs.declared.under_way.Next.TheVariants.{Finish};
ghost use Rattle.client_plan.specs.declared.under_way.Ready.{Ready};

use crate::births::{births_of, numbers_of};
use crate::changing::{Change, change_of};
use client_plan::{Next, Ready, UnderWay};
use hmr_types::{ModName, PlanKind};
use module_graph::View;
use module_tree::Module;
use page_births::Birth;
use page_plan::Plan;
use page_state::Page;
use std::alloc::{AllocError, Global};
use std::collections::BTreeMap;

/// What is found before a page changes: the plan's kind, what it does with the instances that are there, what
/// it makes new ones from, and whether the page's modules are then exactly those that its roots reach.
#[derive(Drop)]
pub struct Found {
    pub kind: PlanKind,
    pub change: Change,
    pub births: Vec<Birth>,
    pub whole: bool,
}

/// What applying the plan does to a page of these modules and forced names, where all is fetched; None where
/// something is left to be fetched. The trees of its texts are taken out. It takes time in proportion to the
/// new instances, their imports and the boundaries, each with the logarithm of the number of modules. It fails
/// only where memory runs out.
pub fn find<F>(
    plan: &mut UnderWay,
    alloc: Global,
    page: &Page<F>,
    view: &View,
    forced: &[ModName],
) -> Result<Option<Found>, AllocError>
    requires { length page.now.instances.items + count_in plan.old.next ≤ INSTANCES }
    ensures can { IfOk result (λ o. IfSome o (λ found. CanChange page.now found.change)) }
    ensures count { IfOk result
        (λ o. IfSome o (λ found. length found.births.items ≡ count_in plan.old.next)) }
    ensures found { (r : Runtime) (p : Plan) (ready : Ready) → IsPageOf r page.now view.now forced.now
        → plan.old.next ≡ Finish ready
        → IsToApply r p plan.old.plan ready plan.old.trees.entries plan.old.pairs.items
        → IfOk result (IsFoundIn r p page.now plan.old.plan.kind ready) }
    ensures rest { plan.new ≡ record plan.old { trees = plan.new.trees } }
{
    match &plan.next {
        Next::Fetch(_) => Ok(None),
        Next::Finish(ready) => {
            let found = found_of(
                alloc,
                page,
                view,
                forced,
                &plan.plan,
                ready,
                &plan.pairs,
                &mut plan.trees,
            )?;
            Ok(Some(found))
        }
    }
}

// What applying a plan does to a page of these modules and forced names, where this ends it, these trees were
// fetched, and these boundaries are to be told.
fn found_of<F>(
    alloc: Global,
    page: &Page<F>,
    view: &View,
    forced: &[ModName],
    plan: &Plan,
    ready: &Ready,
    pairs: &[(ModName, ModName)],
    trees: &mut BTreeMap<ModName, Module>,
) -> Result<Found, AllocError>
    requires { length page.now.instances.items + length ready.now.names.items ≤ INSTANCES }
    ensures can { IfOk result (λ found. CanChange page.now found.change) }
    ensures count { IfOk result (λ found. length found.births.items ≡ length ready.now.names.items) }
    ensures kind { IfOk result (λ found. found.kind ≡ plan.now.kind) }
    ensures whole { IfOk result (λ found. found.whole ≡ ready.now.whole) }
    ensures found { (r : Runtime) (p : Plan) → IsPageOf r page.now view.now forced.now
        → IsToApply r p plan.now ready.now trees.old.entries pairs.now
        → IfOk result (IsFound r p page.now) }
{
    let names = ready.names.as_slice();
    let numbers = numbers_of(alloc, page, names)?;
    let births = births_of(alloc, plan, view, &numbers, &page.live, trees, names)?;
    let change = change_of(alloc, page, plan, numbers, names, pairs, forced)?;
    Ok(Found {
        kind: plan.kind(),
        change,
        births,
        whole: ready.whole,
    })
}
