// A plan begins: its walk goes on to the module that is needed first. An update of one module of a page whose
// modules are exactly those that its roots reach needs no walk to know that it is this one.
ghost use Rattle.std.specs.Prelude.{◌≡◌, [], Bool, List, true, false, map, IfOk, IfSome};
ghost use Rattle.hmr_types.specs.declared.words.PlanKind.{PlanKind};
ghost use Rattle.hmr_types.specs.declared.words.PlanKind.TheVariants.{Load, Update};
ghost use Rattle.core_model.specs.Names.{Name};
ghost use Rattle.core_model.specs.Page.{Plan, new_plan};
ghost use Rattle.client_model.specs.Answering.{begin, pair_of};
ghost use Rattle.client_model.specs.Runtime.{Runtime};
ghost use Rattle.page_plan.specs.Plans.{IsSamePlan};
ghost use Rattle.client_plan.specs.Planned.{IsPlanned};
ghost use Rattle.client_plan.specs.UnderWay.{HasTrees, IsNext, IsUnderWay, IsWalk};
ghost use Rattle.client_plan.specs.Whole.{IsAlone, IsLone, IsWhole};

use crate::planning::{Stand, walked};
use crate::telling::pairs_of;
use crate::under_way::{Next, UnderWay, Walk};
use hmr_types::ModName;
use module_graph::{View, copy_name};
use module_tree::Module;
use page_plan::Plan;
use std::alloc::{AllocError, Global};
use std::collections::BTreeMap;
use update_msgs::JsUpdate;

/// A load or a reload of a page of these roots and modules begins. It takes time in proportion to what its
/// walk meets. It fails only where memory runs out.
pub fn begun(
    alloc: Global,
    roots: &[ModName],
    view: &View,
    plan: Plan,
) -> Result<UnderWay, AllocError>
    ensures under_way { (r : Runtime) (kind : PlanKind) (replaced : List Name) → r.roots ≡ roots.now
        → r.page.view ≡ view.now → IsSamePlan (new_plan kind replaced) plan
        → IfOk result (IsUnderWay (begin kind replaced [] r) (new_plan kind replaced)) }
    ensures planned { (kind : PlanKind) (replaced : List Name) (loaded : Bool)
        → IsSamePlan (new_plan kind replaced) plan → (kind ≡ Load → loaded ≡ false)
        → IfOk result (IsPlanned loaded) }
{
    started(alloc, roots, view, plan, None, Vec::new(alloc))
}

/// An update of a page of these roots and modules begins, which replaces these names and tells these
/// boundaries; it may be known that the page's modules are exactly those that the roots reach. Where it is,
/// and one module of the page is replaced, it takes time in proportion to the names and the boundaries; else
/// also to what its walk meets. It fails only where memory runs out.
pub fn update_begun(
    alloc: Global,
    roots: &[ModName],
    view: &View,
    whole: bool,
    replaced: &[ModName],
    updates: &[JsUpdate],
) -> Result<UnderWay, AllocError>
    ensures under_way { (r : Runtime) → r.roots ≡ roots.now → r.page.view ≡ view.now
        → (whole ≡ true → IsWhole roots.now view.now)
        → IfOk result (IsUnderWay (begin Update replaced.now (map pair_of updates.now) r)
        (new_plan Update replaced.now)) }
    ensures planned { (loaded : Bool) → IfOk result (IsPlanned loaded) }
    ensures pairs { IfOk result (λ u. u.pairs.items ≡ map pair_of updates.now) }
{
    let pairs = pairs_of(alloc, updates)?;
    let plan = Plan::update(alloc, replaced)?;
    let alone = alone_in(view, whole, replaced);
    started(alloc, roots, view, plan, alone, pairs)
}

// The one name that is replaced, where it is that of a module of the page, and it is known that the page's
// modules are exactly those that the roots reach.
fn alone_in<'a>(view: &View, whole: bool, replaced: &'a [ModName]) -> Option<&'a ModName>
    ensures { IfSome result (λ n. IsAlone view.now whole replaced.now n.now) }
{
    if whole && replaced.len() == 1 && view.get(&replaced[0]).is_some() {
        Some(&replaced[0])
    } else {
        None
    }
}

// A plan that has just begun, with these boundaries. It may be that it replaces this one module of a page
// whose modules are exactly those that the roots reach.
fn started(
    alloc: Global,
    roots: &[ModName],
    view: &View,
    plan: Plan,
    alone: Option<&ModName>,
    pairs: Vec<(ModName, ModName)>,
) -> Result<UnderWay, AllocError>
    ensures under_way { (r : Runtime) (kind : PlanKind) (replaced : List Name) → r.roots ≡ roots.now
        → r.page.view ≡ view.now → IsSamePlan (new_plan kind replaced) plan
        → IfSome alone.entry (λ n. IsLone r.roots (new_plan kind replaced) r.page.view n.now)
        → IfOk result (IsUnderWay (begin kind replaced pairs.items r) (new_plan kind replaced)) }
    ensures planned { (kind : PlanKind) (replaced : List Name) (loaded : Bool)
        → IsSamePlan (new_plan kind replaced) plan → (kind ≡ Load → loaded ≡ false)
        → IfOk result (IsPlanned loaded) }
    ensures pairs { IfOk result (λ u. u.pairs.items ≡ pairs.items) }
{
    let trees = BTreeMap::new(alloc);
    let Stand { walk, next } = first_stand(alloc, roots, view, &plan, &trees, alone)?;
    Ok(UnderWay {
        plan,
        walk,
        next,
        trees,
        pairs,
        cause: None,
    })
}

// Where the walk of a plan stands at first.
fn first_stand(
    alloc: Global,
    roots: &[ModName],
    view: &View,
    plan: &Plan,
    trees: &BTreeMap<ModName, Module>,
    alone: Option<&ModName>,
) -> Result<Stand, AllocError>
    ensures { (r : Runtime) (p : Plan) → r.roots ≡ roots.now → r.page.view ≡ view.now
        → IsSamePlan p plan.now → HasTrees r trees.now.entries
        → IfSome alone.entry (λ n. IsLone r.roots p r.page.view n.now)
        → IfOk result (λ stand. IsNext r p stand.next × IsWalk r p stand.next stand.walk) }
{
    match alone {
        Some(name) => Ok(Stand {
            walk: Walk::Spared,
            next: Next::Fetch(copy_name(name)?),
        }),
        None => walked(alloc, roots, view, plan, trees),
    }
}
