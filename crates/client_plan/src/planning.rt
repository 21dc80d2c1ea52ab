// What carries a plan on: its walk goes on from where it stood, to the module that is needed next or to its
// end; there it is found what becomes of the page's modules, and which of them get a new instance.
ghost use Rattle.std.specs.Prelude.{◌≡◌, true, None, IfOk, OnOk};
ghost use Rattle.core_model.specs.Page.{Plan};
ghost use Rattle.client_model.specs.Linking.{next_needed};
ghost use Rattle.client_model.specs.Order.{evaluation_order};
ghost use Rattle.client_model.specs.Runtime.{Runtime};
ghost use Rattle.page_plan.specs.Plans.{IsSamePlan};
ghost use Rattle.page_plan.specs.Walking.{IsAt};
ghost use Rattle.client_plan.specs.UnderWay.{HasTrees, IsNext, IsReady, IsWalk};
ghost use Rattle.client_plan.specs.Renewing.{AreAllIn, IsMade};
ghost use Rattle.client_plan.specs.Whole.{IsLoneFetched, IsWalkFetched};

use crate::linking::first_unlinked;
use crate::putting::put;
use crate::renewing::is_renewing;
use crate::under_way::{Modules, Next, Ready, Walk};
use hmr_types::ModName;
use module_graph::{View, copy_name};
use module_tree::Module;
use page_plan::{Plan, Walker, made_view, new_names};
use std::alloc::{AllocError, Global};
use std::collections::BTreeMap;

/// Where a walk has come to: what it came to, and where it stands then.
#[derive(Drop)]
pub(crate) struct Stand {
    pub walk: Walk,
    pub next: Next,
}

/// The walk of a plan over the page's modules begins from these roots, and goes on to the module that is
/// needed first or to its end. It takes time in proportion to what the walk meets and, where it comes to its
/// end, to the modules, to the trees of the texts and to the exports of what they import. It fails only
/// where memory runs out.
pub(crate) fn walked(
    alloc: Global,
    roots: &[ModName],
    view: &View,
    plan: &Plan,
    trees: &BTreeMap<ModName, Module>,
) -> Result<Stand, AllocError>
    ensures { (r : Runtime) (p : Plan) → r.roots ≡ roots.now → r.page.view ≡ view.now
        → IsSamePlan p plan.now → HasTrees r trees.now.entries
        → IfOk result (λ stand. IsNext r p stand.next × IsWalk r p stand.next stand.walk) }
{
    let mut walker = Walker::new(alloc, roots)?;
    let next = next_of(alloc, view, plan, trees, &mut walker)?;
    Ok(Stand {
        walk: Walk::Begun(walker),
        next,
    })
}

/// What carries a plan on, once the text of the module of this name was fetched for it, and where its walk
/// stands then; the text keeps the module's imports, or it is not known that it does. A walk that was spared
/// stays so where they are kept, else it begins. It takes time in proportion to what the walk meets next and,
/// where that is its end, to the modules, to the trees of the texts and to the exports of what they import;
/// where the walk stays spared, to this module and the exports of what it imports alone. It fails only where
/// memory runs out; the walk can't be used then.
pub(crate) fn next_after(
    alloc: Global,
    roots: &[ModName],
    view: &View,
    plan: &Plan,
    trees: &BTreeMap<ModName, Module>,
    walk: &mut Walk,
    name: &ModName,
    keeps: bool,
) -> Result<Next, AllocError>
    ensures { (r : Runtime) (p : Plan) → r.roots ≡ roots.now → r.page.view ≡ view.now
        → IsSamePlan p plan.now → HasTrees r trees.now.entries
        → IsWalkFetched roots.now p view.now name.now keeps walk.old
        → IfOk result (λ next. IsNext r p next × IsWalk r p next walk.new) }
{
    match walk {
        Walk::Begun(walker) => next_of(alloc, view, plan, trees, walker),
        Walk::Spared => {
            if keeps {
                let ready = lone(alloc, view, plan, trees, name)?;
                return Ok(Next::Finish(ready));
            }
            let Stand { walk: begun, next } = walked(alloc, roots, view, plan, trees)?;
            put(walk, begun);
            Ok(next)
        }
    }
}

// What carries a plan on over the page's modules, where these texts were fetched. The walk goes on from
// where it stands.
fn next_of(
    alloc: Global,
    view: &View,
    plan: &Plan,
    trees: &BTreeMap<ModName, Module>,
    walker: &mut Walker,
) -> Result<Next, AllocError>
    ensures walk { (r : Runtime) (p : Plan) → r.page.view ≡ view.now → IsSamePlan p plan.now
        → IsAt r.roots p r.page.view walker.old → OnOk result (IsAt r.roots p r.page.view walker.new) }
    ensures next { (r : Runtime) (p : Plan) → r.page.view ≡ view.now → IsSamePlan p plan.now
        → HasTrees r trees.now.entries → IsAt r.roots p r.page.view walker.old → IfOk result (IsNext r p) }
{
    match walker.go_on(plan, view)? {
        Some(name) => Ok(Next::Fetch(name)),
        None => {
            let ready = ready(alloc, view, plan, trees, walker.left())?;
            Ok(Next::Finish(ready))
        }
    }
}

// All that ends a plan, where this is the order of its whole walk.
fn ready(
    alloc: Global,
    view: &View,
    plan: &Plan,
    trees: &BTreeMap<ModName, Module>,
    order: &[ModName],
) -> Result<Ready, AllocError>
    ensures { (r : Runtime) (p : Plan) → r.page.view ≡ view.now → IsSamePlan p plan.now
        → HasTrees r trees.now.entries → order.now ≡ evaluation_order r.roots p r.page.view
        → next_needed p r ≡ None → IfOk result (IsReady r p) }
{
    let names = new_names(alloc, plan, view, order)?;
    let link = first_unlinked(alloc, view, plan, trees, &names)?;
    let modules = modules_of(alloc, view, plan, &names, order)?;
    let whole = are_no_more(view, &modules, order.len());
    Ok(Ready {
        modules,
        names,
        link,
        whole,
    })
}

// What becomes of the page's modules, where this is the order of the plan's whole walk, and these names get
// a new instance.
fn modules_of(
    alloc: Global,
    view: &View,
    plan: &Plan,
    names: &[ModName],
    order: &[ModName],
) -> Result<Modules, AllocError>
    ensures { IfOk result (IsMade plan.now view.now names.now order.now) }
{
    if is_renewing(plan, view, names) {
        return Ok(Modules::Renewed);
    }
    let made = made_view(alloc, plan, view, order)?;
    Ok(Modules::Anew(made))
}

// Whether the page's modules are then no more than so many.
fn are_no_more(view: &View, modules: &Modules, count: usize) -> bool
    ensures { result ≡ true → AreAllIn view.now modules.now count }
{
    match modules {
        Modules::Anew(made) => made.at(count).is_none(),
        Modules::Renewed => view.at(count).is_none(),
    }
}

// All that ends an update of the one module of this name, of a page of which the roots reach all modules,
// where the module keeps its imports.
fn lone(
    alloc: Global,
    view: &View,
    plan: &Plan,
    trees: &BTreeMap<ModName, Module>,
    name: &ModName,
) -> Result<Ready, AllocError>
    ensures { (r : Runtime) (p : Plan) → r.page.view ≡ view.now → IsSamePlan p plan.now
        → HasTrees r trees.now.entries → IsLoneFetched r.roots p r.page.view name.now true
        → IfOk result (IsReady r p) }
{
    let mut names = Vec::new(alloc);
    names.push(copy_name(name)?)?;
    let link = first_unlinked(alloc, view, plan, trees, &names)?;
    Ok(Ready {
        modules: Modules::Renewed,
        names,
        link,
        whole: true,
    })
}
