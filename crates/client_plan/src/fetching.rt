// A text that came for the plan under way was read: it is staged, and the plan goes on from where it stood.
ghost use Rattle.std.specs.Prelude.{◌≡◌, Bool, Some, true, if◌then◌else◌, OnOk};
ghost use Rattle.update_msgs.specs.Writable.{IsVersion};
ghost use Rattle.module_semantics.specs.ModuleText.{parsing};
ghost use Rattle.module_tree.specs.Tree.{module_of};
ghost use Rattle.core_model.specs.Names.{Name, at, same_name};
ghost use Rattle.core_model.specs.Page.{Plan};
ghost use Rattle.core_model.specs.Sources.{Text};
ghost use Rattle.core_model.specs.View.{imports_of};
ghost use Rattle.client_model.specs.Linking.{next_needed};
ghost use Rattle.client_model.specs.Runtime.{Runtime};
ghost use Rattle.module_language.specs.ModuleLanguage.{module_in};
ghost use Rattle.client_plan.specs.Planned.{IsPlanned};
ghost use Rattle.client_plan.specs.Staging.{HasStaged};
ghost use Rattle.page_plan.specs.Plans.{IsSamePlan};
ghost use Rattle.client_plan.specs.UnderWay.{HasTrees, IsNext, IsUnderWay, IsWalk, plan_with};
ghost use Rattle.client_plan.specs.UnderWay.{runtime_with};
ghost use Rattle.client_plan.specs.Whole.{IsWalkFetched};

use crate::planning::next_after;
use crate::putting::put;
use crate::under_way::UnderWay;
use hmr_types::{Analysis, ModName, Ver};
use module_graph::{View, copy_name};
use module_tree::Module;
use page_plan::Plan;
use std::alloc::{AllocError, Global};
use std::collections::BTreeMap;

/// What the text of a module reads as, and what analysis tells of that.
#[derive(Drop)]
pub struct Parsed {
    pub tree: Module,
    pub analysis: Analysis,
}

impl UnderWay {
    /// The text of the module that the plan needs came, over a page of these roots and modules, and this is what
    /// it reads as: it is kept, and the plan goes on from where it stood. It takes the time of what the plan's
    /// walk meets next; where the walk is spared and the text keeps the module's imports, time in proportion to
    /// the text's tree and to the exports of what it imports. It fails only where memory runs out; the plan is
    /// then of no more use.
    pub fn add_text(
        &mut self,
        alloc: Global,
        roots: &[ModName],
        view: &View,
        name: &ModName,
        version: Ver,
        found: Parsed,
    ) -> Result<(), AllocError>
        ensures under_way { (r : Runtime) (p : Plan) (t : Text) → r.roots ≡ roots.now
            → r.page.view ≡ view.now → IsUnderWay r p self.old → next_needed p r ≡ Some name.now
            → module_in (parsing t) ≡ module_of found.tree
            → OnOk result
            (IsUnderWay (runtime_with p name.now version t found.analysis r)
            (plan_with p name.now (record { version = version; analysis = found.analysis })) self.new) }
        ensures planned { (loaded : Bool) → IsPlanned loaded self.old → IsVersion version
            → OnOk result (IsPlanned loaded self.new) }
    {
        let keeps = keeps_imports(view, name, &found.analysis);
        keep_text(&mut self.plan, &mut self.trees, name, version, found)?;
        self.go_on(alloc, roots, view, name, keeps)
    }

    // The plan goes on, once a text was kept.
    fn go_on(
        &mut self,
        alloc: Global,
        roots: &[ModName],
        view: &View,
        name: &ModName,
        keeps: bool,
    ) -> Result<(), AllocError>
        ensures next { (r : Runtime) (p : Plan) → r.roots ≡ roots.now → r.page.view ≡ view.now
            → IsSamePlan p self.old.plan → HasTrees r self.old.trees.entries
            → IsWalkFetched roots.now p view.now name.now keeps self.old.walk
            → OnOk result (IsNext r p self.new.next × IsWalk r p self.new.next self.new.walk) }
        ensures rest { self.new ≡ record self.old { next = self.new.next; walk = self.new.walk } }
    {
        let next = next_after(
            alloc,
            roots,
            view,
            &self.plan,
            &self.trees,
            &mut self.walk,
            name,
            keeps,
        )?;
        put(&mut self.next, next);
        Ok(())
    }
}

// Whether a text of this analysis imports what the page's module of this name imports.
fn keeps_imports(view: &View, name: &ModName, analysis: &Analysis) -> bool
    ensures { result ≡ true → analysis.now.imports ≡ imports_of (at view.now name.now) }
{
    match view.get(name) {
        Some((_, kept)) => kept.imports == analysis.imports,
        None => false,
    }
}

// A text that was read is staged with its tree.
fn keep_text(
    plan: &mut Plan,
    trees: &mut BTreeMap<ModName, Module>,
    name: &ModName,
    version: Ver,
    found: Parsed,
) -> Result<(), AllocError>
    ensures { OnOk result
        (HasStaged name.now version found plan.old trees.old.entries plan.new trees.new.entries) }
{
    let Parsed { tree, analysis } = found;
    keep_tree(trees, name, tree)?;
    plan.stage(copy_name(name)?, version, analysis)?;
    Ok(())
}

// The tree of a text is kept.
fn keep_tree(
    trees: &mut BTreeMap<ModName, Module>,
    name: &ModName,
    tree: Module,
) -> Result<(), AllocError>
    ensures { (n : Name) → OnOk result
        (at trees.new.entries n ≡ (if same_name name.now n then Some tree else at trees.old.entries n)) }
{
    trees.insert(copy_name(name)?, tree)?;
    Ok(())
}
