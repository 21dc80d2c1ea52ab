// Whether new instances can be linked: each name that the text of one imports has to be exported by the
// module that it imports it from.
ghost use Rattle.std.specs.Option.{option_map};
ghost use Rattle.std.specs.Prelude.{◌≡◌, ◌∷◌, [], map, option_to_list, IfOk};
ghost use Rattle.module_tree.specs.Tree.{item_of, module_of};
ghost use Rattle.module_semantics.specs.Analysis.{meant};
ghost use Rattle.core_model.specs.Names.{at, first_of, has};
ghost use Rattle.core_model.specs.Page.{Plan, entry_at};
ghost use Rattle.client_model.specs.Linking.{exports_of, is_unlinked, link_cause, new_names};
ghost use Rattle.client_model.specs.Runtime.{Runtime};
ghost use Rattle.module_language.specs.ModuleLanguage.{binding_to, bound_by, bound_in, module_language};
ghost use Rattle.page_plan.specs.Plans.{IsSamePlan};
ghost use Rattle.client_plan.specs.UnderWay.{HasTrees, cause_of};
ghost use Rattle.client_plan.specs.Unlinked.{bound_of, unlinked_among, unlinked_by};

use crate::cause::Cause;
use hmr_types::{ModName, Name, SpecFault, Text, resolve};
use module_graph::{View, copy_name};
use module_tree::{ImportName, Item, Module};
use page_plan::Plan;
use std::alloc::{AllocError, Global};
use std::collections::BTreeMap;

/// The first import of these new instances of a plan that isn't exported, in the order of the names and then
/// of the text: None where each is. It takes time in proportion to the trees of their texts and to the
/// exports of what they import.
pub(crate) fn first_unlinked(
    alloc: Global,
    view: &View,
    plan: &Plan,
    trees: &BTreeMap<ModName, Module>,
    names: &[ModName],
) -> Result<Option<Cause>, AllocError>
    ensures { (r : Runtime) (p : Plan) → r.page.view ≡ view.now → IsSamePlan p plan.now
        → HasTrees r trees.now.entries → names.now ≡ new_names p r
        → IfOk result (λ found. link_cause module_language p r ≡ option_map cause_of found) }
{
    let found = first_in(alloc, view, plan, trees, names)?;
    Ok(found)
}

// The same, over the trees.
fn first_in(
    alloc: Global,
    view: &View,
    plan: &Plan,
    trees: &BTreeMap<ModName, Module>,
    names: &[ModName],
) -> Result<Option<Cause>, AllocError>
    ensures { IfOk result
        (λ found. option_map cause_of found
        ≡ first_of (unlinked_by plan.now view.now trees.now.entries names.now)) }
{
    for name in names {
        if let Some(cause) = unlinked_of(alloc, view, plan, trees, name)? {
            return Ok(Some(cause));
        }
    }
    Ok(None)
}

// The first import of the module of a name that isn't exported, where its text was fetched.
fn unlinked_of(
    alloc: Global,
    view: &View,
    plan: &Plan,
    trees: &BTreeMap<ModName, Module>,
    name: &ModName,
) -> Result<Option<Cause>, AllocError>
    ensures { IfOk result
        (λ found. option_map cause_of found
        ≡ first_of
        (unlinked_among plan.now view.now name.now (bound_of name.now (at trees.now.entries name.now)))) }
{
    match trees.get(name) {
        Some(tree) => unlinked_in(alloc, view, plan, name, &tree.items),
        None => Ok(None),
    }
}

// The first import of a module of this name with these items that isn't exported.
fn unlinked_in(
    alloc: Global,
    view: &View,
    plan: &Plan,
    base: &ModName,
    items: &[Item],
) -> Result<Option<Cause>, AllocError>
    ensures { IfOk result
        (λ found. option_map cause_of found
        ≡ first_of (unlinked_among plan.now view.now base.now (bound_in base.now (map item_of items.now)))) }
{
    for item in items {
        if let Some(cause) = unlinked_by_item(alloc, view, plan, base, item)? {
            return Ok(Some(cause));
        }
    }
    Ok(None)
}

// The first import of an item that isn't exported.
fn unlinked_by_item(
    alloc: Global,
    view: &View,
    plan: &Plan,
    base: &ModName,
    item: &Item,
) -> Result<Option<Cause>, AllocError>
    ensures { IfOk result
        (λ found. option_map cause_of found
        ≡ first_of (unlinked_among plan.now view.now base.now (bound_by base.now (item_of item.now)))) }
{
    match item {
        Item::Import { spec, names } => match meaning(alloc, base, spec)? {
            Some(dependency) => unlinked_names(view, plan, base, &dependency, names.as_slice()),
            None => Ok(None),
        },
        _ => Ok(None),
    }
}

// The first of these names that the dependency doesn't export.
fn unlinked_names(
    view: &View,
    plan: &Plan,
    base: &ModName,
    dependency: &ModName,
    names: &[ImportName],
) -> Result<Option<Cause>, AllocError>
    ensures { IfOk result
        (λ found. option_map cause_of found
        ≡ first_of (unlinked_among plan.now view.now base.now (map (binding_to dependency.now) names.now))) }
{
    for name in names {
        if !exports(view, plan, dependency, &name.exported) {
            return Ok(Some(Cause::Unlinked(
                copy_name(base)?,
                copy_name(dependency)?,
                name.exported.clone()?,
            )));
        }
    }
    Ok(None)
}

// Whether the module of a name exports this in the plan.
fn exports(view: &View, plan: &Plan, dependency: &ModName, export: &Name) -> bool
    ensures { result ≡ has (exports_of (entry_at plan.now view.now dependency.now)) export.now }
{
    match plan.entry(view, dependency) {
        Some((_, analysis)) => has_export(analysis.exports.as_slice(), export),
        None => false,
    }
}

// Whether a name is among the exports.
fn has_export(exports: &[Name], export: &Name) -> bool
    ensures { result ≡ has exports.now export.now }
{
    exports.iter().any(|name| name == export)
}

// The module that a specifier means, none where it means none.
fn meaning(alloc: Global, base: &ModName, spec: &Text) -> Result<Option<ModName>, AllocError>
    ensures { IfOk result (λ found. option_to_list found ≡ meant base.now (spec.now ∷ [])) }
{
    match resolve(alloc, base, spec.as_str().as_bytes()) {
        Ok(name) => Ok(Some(name)),
        Err(SpecFault::NoMemory) => Err(AllocError),
        Err(_) => Ok(None),
    }
}
