// The evaluation of a module: its items in order, up to the first fault.
ghost use Rattle.std.specs.Prelude.{◌≡◌, ◌<◌, ◌++◌, ℕ, List, None, IfOk, IsSome, [], length, map};
ghost use Rattle.std.specs.BTreeMap.{get};
ghost use Rattle.std.specs.Option.{option_map};
ghost use Rattle.std.specs.Ordering.{nat_cmp};
ghost use Rattle.module_tree.specs.Tree.{expr_of, handler_of, item_of, module_of, once_of};
ghost use Rattle.module_semantics.specs.Bodies.{opening, scope_of, with_result};
ghost use Rattle.module_semantics.specs.Evaluation.{value_of};
ghost use Rattle.module_semantics.specs.Modules.{declare, declared_by, declared_names, item_run, items_run};
ghost use Rattle.module_semantics.specs.Modules.{module_run, register, register_deps, register_own, unset};
ghost use Rattle.const_eval.specs.Answers.{evaluated_seen};
ghost use Rattle.hmr_types.specs.declared.value.Slot.{Slot};
ghost use Rattle.const_eval.specs.Names.{AreAmong, AreDeclared};
ghost use Rattle.const_eval.specs.Places.{place_among, variables};
ghost use Rattle.const_eval.specs.States.{context_of, state_from, state_of};
ghost use Rattle.const_eval.specs.Stops.{Leaves};

use crate::expression::eval_expr;
use crate::slots::Slots;
use crate::state::{Context, State, Step, declare, opening, reads};
use crate::statements::run_stmt;
use crate::stop::fault_of;
use hmr_types::{EvalFault, HandlerKind, Name, Sequence, Slot, Text};
use module_semantics::{Env, ModParam, Registered};
use module_tree::{Expr, HandlerCode, Item, Module, Once};
use retained_data::Bag;
use std::alloc::{AllocError, Global};
use std::collections::BTreeMap;

/// What the evaluation of a module gives, whole: at a fault, all that was made before it.
#[derive(Drop)]
pub struct Evaluated {
    pub fault: Option<EvalFault>,
    /// The declared names, in order, with what they hold.
    pub vars: Sequence<(Name, Slot)>,
    pub lines: Sequence<Text>,
    /// The handlers, in the order in which they registered.
    pub registered: Sequence<Registered>,
    pub bag: Bag,
}

/// Evaluates a module, whose imports' locals hold what `imports` says, with this bag. It fails only
/// where memory runs out; the bag is then gone. Each name is looked up in an index: it takes time in
/// proportion to the module's size and the number of imports, but for the logarithm of the number of
/// names, and no deeper recursion than the depth of the module language.
#[tactic(auto, using(crate::proofs::Names::all_declared))]
pub fn eval_module(
    alloc: Global,
    module: &Module,
    imports: &Env,
    bag: Bag,
) -> Result<Evaluated, AllocError>
    ensures { IfOk result
        (λ r. evaluated_seen r ≡ module_run (module_of «module».now) imports.now.vars bag) }
{
    let mut vars = unset(alloc, &module.items)?;
    let (fault, made) = evaluate(alloc, &module.items, &vars, imports, bag)?;
    settle(&mut vars, made.given);
    Ok(Evaluated {
        fault,
        vars: Sequence::from_vec(vars),
        lines: Sequence::from_vec(made.lines),
        registered: Sequence::from_vec(made.registered),
        bag: made.bag,
    })
}

/// Evaluates the items, whose declared names are among these variables.
#[tactic(auto, using(crate::proofs::Names::still_declared))]
fn evaluate(
    alloc: Global,
    items: &[Item],
    vars: &[(Name, Slot)],
    imports: &Env,
    bag: Bag,
) -> Result<(Option<EvalFault>, State), AllocError>
    requires declared { AreDeclared vars.now items.now }
    ensures { IfOk result
        (λ r. (state_from vars.now r.1, r.0)
        ≡ items_run (record { imports = imports.now.vars; mods = [] }) (map item_of items.now)
        (opening vars.now bag)) }
{
    let mods: Vec<ModParam> = Vec::new(alloc);
    let none: Vec<(Name, Slot)> = Vec::new(alloc);
    let slots = Slots::indexed(alloc, vars, &none)?;
    let imported = Slots::indexed(alloc, imports.vars.as_slice(), &none)?;
    let context = Context {
        vars: &slots,
        imports: &imported,
        mods: &mods,
    };
    let mut state = opening(alloc, bag);
    let fault = fault_of(eval_items(alloc, items, &context, &mut state))?;
    Ok((fault, state))
}

/// Gives the variables what they were given by their places.
#[tactic(auto, using(crate::proofs::Variables::all_settled))]
fn settle(vars: &mut Vec<(Name, Slot)>, mut given: BTreeMap<usize, Slot>)
    ensures { vars.new.items ≡ variables vars.old.items given }
{
    for place in 0..vars.len() {
        settle_at(vars, &mut given, place);
    }
}

/// Gives the variable at a place what it was given.
#[tactic(auto, using(crate::proofs::Variables::settled, crate::proofs::Variables::none_taken, crate::proofs::Variables::still_none))]
fn settle_at(vars: &mut Vec<(Name, Slot)>, given: &mut BTreeMap<usize, Slot>, place: usize)
    requires { place < length vars.old.items }
    ensures same { variables vars.new.items given.new ≡ variables vars.old.items given.old }
    ensures taken { get nat_cmp given.new place ≡ None }
    ensures none { (p : ℕ) → get nat_cmp given.old p ≡ None → get nat_cmp given.new p ≡ None }
    ensures count { length vars.new.items ≡ length vars.old.items }
{
    if let Some(slot) = given.remove(&place) {
        vars[place].1 = slot;
    }
}

/// Each declared name, without a value.
fn unset(alloc: Global, items: &[Item]) -> Result<Vec<(Name, Slot)>, AllocError>
    ensures { IfOk result (λ vars. vars.items ≡ unset (declared_names (map item_of items.now))) }
{
    let mut vars = Vec::new(alloc);
    for item in items {
        if let Item::Declare {
            exported: _,
            mutable: _,
            name,
            value: _,
        } = item
        {
            vars.push((name.clone()?, Slot::Unset))?;
        }
    }
    Ok(vars)
}

fn eval_items(alloc: Global, items: &[Item], context: &Context, state: &mut State) -> Step
    requires declared { AreDeclared context.now.vars.now items.now }
    ensures { Leaves result (state_of context.now state.new)
        (items_run (context_of context.now) (map item_of items.now) (state_of context.now state.old)) }
{
    for item in items {
        eval_item(alloc, item, context, state)?;
    }
    Ok(())
}

fn eval_item(alloc: Global, item: &Item, context: &Context, state: &mut State) -> Step
    requires declared { AreAmong context.now.vars.now (declared_by (item_of item.now)) }
    ensures { Leaves result (state_of context.now state.new)
        (item_run (context_of context.now) (item_of item.now) (state_of context.now state.old)) }
{
    match item {
        Item::Import { spec: _, names: _ } | Item::Decline => Ok(()),
        Item::Declare {
            exported: _,
            mutable: _,
            name,
            value,
        } => eval_declaration(alloc, name, value, context, state),
        Item::Do(stmt) => run_stmt(alloc, stmt, context, state),
        Item::Own(what) => register_own(alloc, what, state),
        Item::Deps {
            list: _,
            specs,
            call,
        } => register_deps(alloc, specs, call, state),
        Item::Dispose(what) => register(alloc, HandlerKind::Dispose, what, state),
        Item::Prune(what) => register(alloc, HandlerKind::Prune, what, state),
    }
}

fn eval_declaration(
    alloc: Global,
    name: &Name,
    e: &Expr,
    context: &Context,
    state: &mut State,
) -> Step
    requires declared { IsSome (place_among name.now context.now.vars.now) }
    ensures { Leaves result (state_of context.now state.new)
        (with_result (state_of context.now state.old)
        (value_of (scope_of (context_of context.now) (state_of context.now state.old)) (expr_of e.now))
        (declare name.now (state_of context.now state.old))) }
{
    let value = eval_expr(alloc, e, &reads(context, state))?;
    declare(name, value, context, state)
}

fn register(alloc: Global, kind: HandlerKind, what: &Once, state: &mut State) -> Step
    ensures { (first : List (List ℕ × Slot))
        → Leaves result (state_from first state.new)
        (register kind [] (once_of what.now) (state_from first state.old)) }
{
    let what = what.copy(alloc)?;
    state.registered.push(Registered {
        kind,
        deps: Sequence::new(alloc),
        what,
    })?;
    Ok(())
}

fn register_own(alloc: Global, what: &Option<Once>, state: &mut State) -> Step
    ensures { (first : List (List ℕ × Slot))
        → Leaves result (state_from first state.new)
        (register_own (option_map once_of what.now) (state_from first state.old)) }
{
    match what {
        Some(what) => register(alloc, HandlerKind::Own, what, state),
        None => Ok(()),
    }
}

fn register_deps(
    alloc: Global,
    specs: &Sequence<Text>,
    code: &Option<HandlerCode>,
    state: &mut State,
) -> Step
    ensures { (first : List (List ℕ × Slot))
        → Leaves result (state_from first state.new)
        (register_deps specs.now (option_map handler_of code.now) (state_from first state.old)) }
{
    let code = match code {
        Some(code) => code.copy(alloc)?,
        None => return Ok(()),
    };
    let deps = copy_texts(specs)?;
    state.registered.push(Registered {
        kind: HandlerKind::Dep,
        deps,
        what: Once::Code(code),
    })?;
    Ok(())
}

fn copy_texts(texts: &Sequence<Text>) -> Result<Sequence<Text>, AllocError>
    ensures { IfOk result (λ copies. copies ≡ texts.now) }
{
    texts.clone()
}
