// A plan begins: a load, a reload or an update.
ghost use Rattle.std.specs.Prelude.{◌≡◌, ◌∷◌, ◌++◌, [], false, map, IfOk};
ghost use Rattle.output_lines.specs.declared.out_line.OutLine.TheVariants as line;
ghost use Rattle.core_model.specs.Names.{in_order};
ghost use Rattle.client_model.specs.Answering.{connect, pair_of, start_reload};
ghost use Rattle.client_model.specs.Answering.{start_update, write_batch};
ghost use Rattle.client_model.specs.Runtime.{Runtime, and_then};
ghost use Rattle.client_plan.specs.Telling.{accept_lines, batch_lines};
ghost use Rattle.runtime_state.specs.Becoming.{Becomes};
ghost use Rattle.runtime_state.specs.Standing.{IsSound, Keeps, KeepsWords};

use client_plan::{batch_lines, begun, in_order, put, tell_accepts, update_begun};
use hmr_types::{ClientId, ModName, PlanKind, ReloadCause, Sequence};
use output_lines::OutLine;
use page_plan::Plan;
use retained_data::{Bag, Ran};
use runtime_state::HotRuntime;
use std::alloc::{AllocError, Global};
use update_msgs::JsUpdate;

/// The client has its number and its roots, and the page is to be loaded.
pub fn connect<F: FnOnce(Bag) -> Result<Ran, AllocError> + Drop>(
    runtime: &mut HotRuntime<F>,
    client: ClientId,
    roots: Sequence<ModName>,
) -> Result<Vec<OutLine>, AllocError>
    ensures becomes { (r : Runtime) → Keeps r runtime.old → IsSound runtime.old → runtime.old.loaded ≡ false
        → IfOk result (λ lines. Becomes (connect client roots r) runtime.new lines.items) }
    ensures words { KeepsWords F.post runtime.old → KeepsWords F.post runtime.new }
    ensures format { runtime.new.format ≡ runtime.old.format }
    ensures stopped { runtime.new.stopped ≡ runtime.old.stopped }
{
    let alloc = runtime.allocator();
    let load = Plan::new(alloc, PlanKind::Load);
    let plan = begun(alloc, roots.as_slice(), &runtime.view, load)?;
    put(&mut runtime.plan, Some(plan));
    put(&mut runtime.roots, roots);
    runtime.page.client = client;
    runtime.whole = false;
    Ok(Vec::new(alloc))
}

/// The page is to be loaded again. Tells the lines of the batch and of the reload.
pub fn start_reload<F: FnOnce(Bag) -> Result<Ran, AllocError> + Drop>(
    runtime: &mut HotRuntime<F>,
    cause: ReloadCause,
    path: Sequence<ModName>,
    batch: u64,
    triggered: Sequence<ModName>,
) -> Result<Vec<OutLine>, AllocError>
    ensures becomes { (r : Runtime) → Keeps r runtime.old → IsSound runtime.old
        → IfOk result
        (λ lines.
        Becomes (and_then (write_batch batch triggered r)
        (start_reload (line.Reload r.client cause path))) runtime.new lines.items) }
    ensures rest { runtime.new ≡ record runtime.old { plan = runtime.new.plan } }
{
    let alloc = runtime.allocator();
    let client = runtime.page.client;
    let reload = Plan::new(alloc, PlanKind::Reload);
    let plan = begun(alloc, runtime.roots.as_slice(), &runtime.view, reload)?;
    put(&mut runtime.plan, Some(plan));
    let lines = reload_lines(alloc, client, cause, path, batch, triggered)?;
    Ok(lines)
}

/// Modules are to be replaced. Tells the lines of the batch, of the update and of its boundaries.
pub fn start_update<F: FnOnce(Bag) -> Result<Ran, AllocError> + Drop>(
    runtime: &mut HotRuntime<F>,
    replaced: Sequence<ModName>,
    updates: Sequence<JsUpdate>,
    batch: u64,
    triggered: Sequence<ModName>,
) -> Result<Vec<OutLine>, AllocError>
    ensures becomes { (r : Runtime) → Keeps r runtime.old → IsSound runtime.old
        → IfOk result
        (λ lines.
        Becomes (and_then (write_batch batch triggered r)
        (start_update replaced (map pair_of updates))) runtime.new lines.items) }
    ensures rest { runtime.new ≡ record runtime.old { plan = runtime.new.plan } }
{
    let alloc = runtime.allocator();
    let client = runtime.page.client;
    let update = update_begun(
        alloc,
        runtime.roots.as_slice(),
        &runtime.view,
        runtime.whole,
        replaced.as_slice(),
        updates.as_slice(),
    )?;
    let lines = update_lines(
        alloc,
        client,
        batch,
        triggered,
        replaced,
        update.pairs.as_slice(),
    )?;
    put(&mut runtime.plan, Some(update));
    Ok(lines)
}

// The lines of a reload: that of its batch, where it has one, and its own.
fn reload_lines(
    alloc: Global,
    client: ClientId,
    cause: ReloadCause,
    path: Sequence<ModName>,
    batch: u64,
    triggered: Sequence<ModName>,
) -> Result<Vec<OutLine>, AllocError>
    ensures { IfOk result (λ lines. lines.items ≡ batch_lines client batch triggered
        ++ line.Reload client cause path ∷ []) }
{
    let mut lines = batch_lines(alloc, client, batch, triggered)?;
    lines.push(OutLine::Reload {
        client,
        cause,
        path,
    })?;
    Ok(lines)
}

// The lines of an update: that of its batch, where it has one, its own, and that of each boundary.
fn update_lines(
    alloc: Global,
    client: ClientId,
    batch: u64,
    triggered: Sequence<ModName>,
    replaced: Sequence<ModName>,
    pairs: &[(ModName, ModName)],
) -> Result<Vec<OutLine>, AllocError>
    ensures { IfOk result (λ lines. lines.items ≡ batch_lines client batch triggered
        ++ line.Update client (in_order replaced) ∷ accept_lines client pairs.now) }
{
    let mut lines = batch_lines(alloc, client, batch, triggered)?;
    lines.push(OutLine::Update {
        client,
        replaced: in_order(replaced)?,
    })?;
    tell_accepts(&mut lines, client, pairs)?;
    Ok(lines)
}
