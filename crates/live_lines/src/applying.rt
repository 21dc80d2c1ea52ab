// A plan was applied: each fetched module has a new instance, bound to what is live then.
ghost use Rattle.std.specs.Prelude.{◌≡◌, ◌++◌, IfOk, OnOk, map};
ghost use Rattle.live_lines.specs.Answering.{apply};
ghost use Rattle.live_lines.specs.Applying.{born, born_rows, bound, changed_by, changed_of, kept_by};
ghost use Rattle.live_lines.specs.Applying.{live_version, next_made, put_rows, told_by, version_after};
ghost use Rattle.live_lines.specs.Pages.{row_at};

use crate::exchanges::rest;
use crate::instance::{Begun, Binding, Fetched, Instance};
use crate::page_log::PageLog;
use crate::stale::stale_in;
use crate::{ImportedName, PageNews};
use hmr_types::{ModName, PlanKind, Sequence, Ver};
use std::alloc::{AllocError, Global};
use std::collections::BTreeMap;
use std::mem;

/// The plan under way was applied.
pub(crate) fn apply(log: &mut PageLog, alloc: Global) -> Result<Option<PageNews>, AllocError>
    ensures { IfOk result (λ news. (log.new, news) ≡ apply log.old.under log.old) }
{
    let Some(begun) = mem::replace(&mut log.under, None) else {
        return Ok(None);
    };
    let Begun { kind, accepted } = begun;
    let changed = changed_of(alloc, &log.modules, &log.staged)?;
    let made = next_made(log.made);
    let old = mem::replace(&mut log.modules, BTreeMap::new(alloc));
    let kept = kept_by(alloc, kind, old);
    let born = born_rows(alloc, made, &log.staged, &kept)?;
    let modules = put_rows(kept, born)?;
    let news = told_by(alloc, kind, accepted, changed, &modules)?;
    log.made = made;
    log.modules = modules;
    rest(log, alloc);
    Ok(Some(news))
}

fn next_made(made: u64) -> u64
    ensures { result ≡ next_made made }
{
    if made < u64::MAX { made + 1 } else { made }
}

// The modules that stay live until they are replaced.
fn kept_by(
    alloc: Global,
    kind: PlanKind,
    modules: BTreeMap<ModName, Instance>,
) -> BTreeMap<ModName, Instance>
    ensures { result.entries ≡ kept_by kind modules.entries }
{
    match kind {
        PlanKind::Load | PlanKind::Reload => BTreeMap::new(alloc),
        PlanKind::Update => modules,
    }
}

// The new instances of the fetched modules.
fn born_rows(
    alloc: Global,
    made: u64,
    staged: &BTreeMap<ModName, Fetched>,
    kept: &BTreeMap<ModName, Instance>,
) -> Result<Vec<(ModName, Instance)>, AllocError>
    ensures { IfOk result (λ rows. rows.items
        ≡ born_rows made staged.now.entries kept.now.entries staged.now.entries) }
{
    let mut rows = Vec::new(alloc);
    for (name, fetched) in staged.iter() {
        let instance = born(alloc, made, staged, kept, fetched)?;
        rows.push((name.clone()?, instance))?;
    }
    Ok(rows)
}

// The new instance of a fetched module.
fn born(
    alloc: Global,
    made: u64,
    staged: &BTreeMap<ModName, Fetched>,
    kept: &BTreeMap<ModName, Instance>,
    fetched: &Fetched,
) -> Result<Instance, AllocError>
    ensures { IfOk result (λ i. i ≡ born made staged.now.entries kept.now.entries fetched.now) }
{
    let bindings = bindings_of(alloc, staged, kept, fetched.names.as_slice())?;
    Ok(Instance {
        version: fetched.version,
        made,
        bindings,
    })
}

// What the names are bound to that a new instance imports.
fn bindings_of(
    alloc: Global,
    staged: &BTreeMap<ModName, Fetched>,
    kept: &BTreeMap<ModName, Instance>,
    names: &[ImportedName],
) -> Result<Sequence<Binding>, AllocError>
    ensures { IfOk result (λ b. b ≡ map (bound staged.now.entries kept.now.entries) names.now) }
{
    let mut bindings = Vec::new(alloc);
    for imported in names {
        let version = version_after(staged, kept, &imported.from);
        bindings.push(Binding {
            dependency: imported.from.clone()?,
            name: imported.name.clone()?,
            version,
        })?;
    }
    Ok(Sequence::from_vec(bindings))
}

// The version that a module has once the plan was applied, 0 for none.
fn version_after(
    staged: &BTreeMap<ModName, Fetched>,
    kept: &BTreeMap<ModName, Instance>,
    name: &ModName,
) -> Ver
    ensures { result
        ≡ version_after (row_at staged.now.entries name.now) (row_at kept.now.entries name.now) }
{
    match staged.get(name) {
        Some(fetched) => fetched.version,
        None => live_version(kept, name),
    }
}

fn live_version(modules: &BTreeMap<ModName, Instance>, name: &ModName) -> Ver
    ensures { result ≡ live_version (row_at modules.now.entries name.now) }
{
    match modules.get(name) {
        Some(instance) => instance.version,
        None => 0,
    }
}

// The modules with these rows in place of their own.
fn put_rows(
    mut modules: BTreeMap<ModName, Instance>,
    rows: Vec<(ModName, Instance)>,
) -> Result<BTreeMap<ModName, Instance>, AllocError>
    ensures { IfOk result (λ all. all.entries ≡ put_rows modules.entries rows.items) }
{
    for row in rows {
        let (name, instance) = row;
        modules.insert(name, instance)?;
    }
    Ok(modules)
}

// The fetched modules whose version isn't that of the page, with their versions.
fn changed_of(
    alloc: Global,
    modules: &BTreeMap<ModName, Instance>,
    staged: &BTreeMap<ModName, Fetched>,
) -> Result<Sequence<(ModName, Ver)>, AllocError>
    ensures { IfOk result (λ rows. rows ≡ changed_of modules.now.entries staged.now.entries) }
{
    let mut changed = Vec::new(alloc);
    for (name, fetched) in staged.iter() {
        put_changed(&mut changed, modules, name, fetched.version)?;
    }
    Ok(Sequence::from_vec(changed))
}

fn put_changed(
    changed: &mut Vec<(ModName, Ver)>,
    modules: &BTreeMap<ModName, Instance>,
    name: &ModName,
    version: Ver,
) -> Result<(), AllocError>
    ensures { OnOk result (changed.new.items
        ≡ changed.old.items ++ changed_by modules.now.entries name.now version) }
{
    if live_version(modules, name) != version {
        changed.push((name.clone()?, version))?;
    }
    Ok(())
}

// What there is to tell.
fn told_by(
    alloc: Global,
    kind: PlanKind,
    accepted: Sequence<(ModName, ModName)>,
    changed: Sequence<(ModName, Ver)>,
    after: &BTreeMap<ModName, Instance>,
) -> Result<PageNews, AllocError>
    ensures { IfOk result (λ news. news ≡ told_by kind accepted changed after.now.entries) }
{
    match kind {
        PlanKind::Load | PlanKind::Reload => Ok(PageNews::Loaded {
            modules: after.len() as u64,
        }),
        PlanKind::Update => {
            let stale = stale_in(alloc, after)?;
            Ok(PageNews::Hot {
                changed,
                accepted,
                stale: Sequence::from_vec(stale),
            })
        }
    }
}
