// The plan under way is applied.
ghost use Rattle.std.specs.Prelude.{◌≡◌, ◌+◌, ◌≤◌, ◌<◌, ◌^◌, false, length, true, Some, IfOk, IfSome, OnOk};
ghost use Rattle.hmr_types.specs.declared.limits.TheConstants.{INSTANCES};
ghost use Rattle.core_model.specs.Page.{Plan};
ghost use Rattle.client_model.specs.Answering.{apply_in};
ghost use Rattle.client_model.specs.Requesting.{request};
ghost use Rattle.client_model.specs.Runtime.{Runtime};
ghost use Rattle.module_language.specs.ModuleLanguage.{module_language};
ghost use Rattle.page_state.specs.Standing.{KeepWords, StandsFor};
ghost use Rattle.plan_changes.specs.Changing.{CanChange};
ghost use Rattle.plan_changes.specs.Finding.{IsFound};
ghost use Rattle.client_plan.specs.UnderWay.{is_applied_told};
ghost use Rattle.plan_steps.specs.Applying.{IsApplied, IsTurned};
ghost use Rattle.runtime_state.specs.Becoming.{Becomes};
ghost use Rattle.runtime_state.specs.Standing.{HasRoom, IsSound, Keeps, KeepsWords, count_of};
ghost use Rattle.client_plan.specs.declared.under_way.UnderWay.{UnderWay};

use client_plan::{UnderWay, put};
use hmr_types::ModName;
use module_graph::View;
use output_lines::OutLine;
use page_state::Page;
use plan_changes::{Found, change_page, find};
use retained_data::{Bag, Ran};
use runtime_state::HotRuntime;
use std::alloc::{AllocError, Global};

/// Old instances end, new ones are made, and callbacks are called.
pub fn apply<F: FnOnce(Bag) -> Result<Ran, AllocError> + Drop>(
    runtime: &mut HotRuntime<F>,
) -> Result<Vec<OutLine>, AllocError>
    requires running { runtime.old.stopped ≡ false }
    requires room { HasRoom runtime.old }
    requires callable { (f : F) → F.IsAlwaysCallable f }
    requires words { KeepsWords F.post runtime.old }
    ensures becomes { (r : Runtime) → Keeps r runtime.old → IsSound runtime.old
        → is_applied_told (request module_language r) ≡ true
        → IfOk result (λ lines. Becomes (apply_in r.page.plan module_language r) runtime.new lines.items) }
    ensures words { OnOk result (KeepsWords F.post runtime.new) }
    ensures format { runtime.new.format ≡ runtime.old.format }
    ensures stopped { runtime.new.stopped ≡ runtime.old.stopped }
{
    let alloc = runtime.allocator();
    let forced = runtime.forced.as_slice();
    match turned(
        &mut runtime.plan,
        alloc,
        &runtime.page,
        &mut runtime.view,
        forced,
    )? {
        Some(found) => {
            put(&mut runtime.plan, None);
            put(&mut runtime.forced, Vec::new(alloc));
            runtime.loaded = true;
            runtime.whole = found.whole;
            let lines = apply_to(&mut runtime.page, alloc, found)?;
            Ok(lines)
        }
        None => Ok(Vec::new(alloc)),
    }
}

// What the plan under way does to a page of these modules and forced names, where all is fetched for it; the
// modules become those of the plan.
fn turned<F>(
    plan: &mut Option<UnderWay>,
    alloc: Global,
    page: &Page<F>,
    view: &mut View,
    forced: &[ModName],
) -> Result<Option<Found>, AllocError>
    requires { length page.now.instances.items + count_of plan.old ≤ INSTANCES }
    ensures can { IfOk result (λ o. IfSome o (λ found. CanChange page.now found.change)) }
    ensures count { IfOk result (λ o. IfSome o (λ found. length found.births.items ≡ count_of plan.old)) }
    ensures turned { (u : UnderWay) → plan.old ≡ Some u
        → IfOk result (IsTurned u page.now view.old view.new forced.now) }
{
    match plan {
        Some(plan) => {
            let found = find(plan, alloc, page, view, forced)?;
            plan.renew(view)?;
            Ok(found)
        }
        None => Ok(None),
    }
}

// A page becomes what a plan makes of it, by what was found before, and the last line tells that the plan is
// applied.
fn apply_to<F: FnOnce(Bag) -> Result<Ran, AllocError> + Drop>(
    page: &mut Page<F>,
    alloc: Global,
    found: Found,
) -> Result<Vec<OutLine>, AllocError>
    requires can { CanChange page.old found.change }
    requires room { length page.old.instances.items + length found.births.items < 2 ^ 32 }
    requires callable { (f : F) → F.IsAlwaysCallable f }
    requires words { KeepWords F.post page.old }
    ensures words { OnOk result (KeepWords F.post page.new) }
    ensures applied { (r : Runtime) (p : Plan) → StandsFor r page.old → IsFound r p page.old found
        → IfOk result (λ lines. IsApplied r p found.kind page.old page.new lines.items) }
{
    let Found {
        kind,
        change,
        births,
        whole: _,
    } = found;
    let mut lines = Vec::new(alloc);
    change_page(page, alloc, change, births, &mut lines)?;
    lines.push(OutLine::Applied {
        client: page.client,
        plan: kind,
    })?;
    Ok(lines)
}
