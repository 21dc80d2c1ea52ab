// A plan's walk, depth first from the roots, each module once. The walk keeps a stack of tasks, so that
// it stops where it comes to a module that isn't fetched, and goes on from there once it is.
ghost use Rattle.std.specs.Prelude.{◌≡◌, ◌∷◌, ◌++◌, ◌+◌, ◌<◌, ◌||◌, []};
ghost use Rattle.std.specs.Prelude.{List, false, length, reverse, not, IfNone, IfOk, OnOk, option_to_list};
ghost use Rattle.core_model.specs.Names.{Name, has, same_name};
ghost use Rattle.core_model.specs.Page.{Plan};
ghost use Rattle.core_model.specs.View.{View};
ghost use Rattle.client_model.specs.Order.{evaluation_order};
ghost use Rattle.page_plan.specs.declared.tasks.Task.TheVariants.{Visit, Leave};
ghost use Rattle.page_plan.specs.Turns.{IsTurn, OnMore, room};
ghost use Rattle.page_plan.specs.Walking.{IsAt, needed_of, visits};

use crate::plan::Plan;
use crate::tasks::{Task, Turn};
use hmr_types::ModName;
use module_graph::{NameSet, View, copy_name};
use std::alloc::{AllocError, Global};
use std::marker::Model;

/// A plan's walk. Contracts see the tasks that are left, the next first, a list of the names met, and
/// the names left, in order. That it is a moment of the walk of a plan is the relation `IsAt`.
#[derive(Drop)]
pub struct Walker {
    tasks: Vec<Task>,
    met: NameSet,
    left: Vec<ModName>,
}

impl Model for Walker {
    ghost use Rattle.std.specs.Prelude.{reverse};
    ghost use Rattle.page_plan.specs.Walking.{KeptWalk};

    ghost Value = { KeptWalk };

    ghost view = { λ w. record { tasks = reverse w.tasks.items; met = w.met; left = w.left.items } };
}

impl Walker {
    /// The walk from these roots, not begun yet: the first moment of the walk of any plan.
    pub fn new(alloc: Global, roots: &[ModName]) -> Result<Walker, AllocError>
        ensures { (p : Plan) (view : View) → IfOk result (IsAt roots.now p view) }
    {
        let mut tasks = Vec::new(alloc);
        push_visits(&mut tasks, roots)?;
        Ok(Walker {
            tasks,
            met: NameSet::new(alloc),
            left: Vec::new(alloc),
        })
    }

    /// Goes on until it comes to a module that isn't fetched, the next that is needed, or to the end:
    /// then nothing is needed, and the names left are in the order of evaluation. It takes time in
    /// proportion to the imports of the modules that it meets, and the logarithm of their number for
    /// each.
    pub fn go_on(&mut self, plan: &Plan, view: &View) -> Result<Option<ModName>, AllocError>
        ensures at { (roots : List Name) → IsAt roots plan.now view.now self.old
            → OnOk result (IsAt roots plan.now view.now self.new) }
        ensures needed { (roots : List Name) → IsAt roots plan.now view.now self.old
            → IfOk result (λ needed. needed ≡ needed_of roots plan.now view.now) }
        ensures order { (roots : List Name) → IsAt roots plan.now view.now self.old
            → IfOk result
            (λ needed. IfNone needed (self.new.left ≡ evaluation_order roots plan.now view.now)) }
    {
        loop {
            match self.turn(plan, view)? {
                Turn::More => {}
                Turn::Needs(name) => return Ok(Some(name)),
                Turn::Done => return Ok(None),
            }
        }
    }

    /// The names left so far, in order.
    pub fn left(&self) -> &[ModName]
        ensures { result.now ≡ self.now.left }
    {
        &self.left
    }

    /// The names left so far, in order.
    pub fn into_left(self) -> Vec<ModName>
        ensures { result.items ≡ self.left }
    {
        self.left
    }

    // Does the next task.
    fn turn(&mut self, plan: &Plan, view: &View) -> Result<Turn, AllocError>
        ensures at { (roots : List Name) → IsAt roots plan.now view.now self.old
            → OnOk result (IsAt roots plan.now view.now self.new) }
        ensures told { (roots : List Name) → IsAt roots plan.now view.now self.old
            → IfOk result (IsTurn roots plan.now view.now self.new.left) }
        ensures less { IfOk result (OnMore (room self.new < room self.old)) }
    {
        match pop_task(&mut self.tasks) {
            None => Ok(Turn::Done),
            Some(Task::Leave(name)) => {
                self.left.push(name)?;
                Ok(Turn::More)
            }
            Some(Task::Visit(name)) => self.visit(plan, view, name),
        }
    }

    // Visits a module.
    fn visit(&mut self, plan: &Plan, view: &View, name: ModName) -> Result<Turn, AllocError>
        ensures at { (roots : List Name) → IsAt roots plan.now view.now
            (record self.old { tasks = Visit name ∷ self.old.tasks }) → OnOk result
            (IsAt roots plan.now view.now self.new) }
        ensures told { (roots : List Name) → IsAt roots plan.now view.now
            (record self.old { tasks = Visit name ∷ self.old.tasks }) → IfOk result
            (IsTurn roots plan.now view.now self.new.left) }
        ensures less { IfOk result
            (OnMore (room self.new < room (record self.old { tasks = Visit name ∷ self.old.tasks }))) }
    {
        if self.met.has(&name) {
            return Ok(Turn::More);
        }
        match plan.entry(view, &name) {
            None => {
                let needed = self.wait_for(name)?;
                Ok(Turn::Needs(needed))
            }
            Some((_, analysis)) => {
                self.meet(name, analysis.imports.as_slice())?;
                Ok(Turn::More)
            }
        }
    }

    // The module is visited next.
    fn wait_for(&mut self, name: ModName) -> Result<ModName, AllocError>
        ensures name { IfOk result (λ needed. needed ≡ name) }
        ensures ok { OnOk result (self.new ≡ record self.old { tasks = Visit name ∷ self.old.tasks }) }
    {
        let needed = copy_name(&name)?;
        self.tasks.push(Task::Visit(name))?;
        Ok(needed)
    }

    // A module that wasn't met is met: what it imports is visited next, and then it is left.
    fn meet(&mut self, name: ModName, imports: &[ModName]) -> Result<(), AllocError>
        requires { has self.old.met name ≡ false }
        ensures tasks { OnOk result (self.new.tasks ≡ visits imports.now ++ Leave name ∷ self.old.tasks) }
        ensures left { OnOk result (self.new.left ≡ self.old.left) }
        ensures met { (n : Name) → OnOk result
            (has self.new.met n ≡ (same_name name n || has self.old.met n)) }
        ensures less { OnOk result (room self.new < room self.old) }
    {
        let copy = copy_name(&name)?;
        self.met.add(copy)?;
        self.tasks.push(Task::Leave(name))?;
        push_visits(&mut self.tasks, imports)?;
        Ok(())
    }
}

// Takes the next task.
fn pop_task(tasks: &mut Vec<Task>) -> Option<Task>
    ensures tasks { reverse tasks.old.items ≡ option_to_list result ++ reverse tasks.new.items }
    ensures none { IfNone result (tasks.old.items ≡ []) }
{
    tasks.pop()
}

// Puts visits of these names before the tasks that are left, in order.
fn push_visits(tasks: &mut Vec<Task>, names: &[ModName]) -> Result<(), AllocError>
    ensures { OnOk result (reverse tasks.new.items ≡ visits names.now ++ reverse tasks.old.items) }
{
    let mut place = names.len();
    while place > 0 {
        place -= 1;
        let name = copy_name(&names[place])?;
        tasks.push(Task::Visit(name))?;
    }
    Ok(())
}
