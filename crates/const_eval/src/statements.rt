// What statements do. A fault ends all that would follow.
ghost use Rattle.std.specs.Prelude.{◌≡◌, map, slice_get};
ghost use Rattle.std.specs.Option.{option_map};
ghost use Rattle.module_tree.specs.Tree.{cond_of, expr_of, stmt_of, stmts_of};
ghost use Rattle.module_semantics.specs.Bodies.{add_line, holds, invalidate, is_module};
ghost use Rattle.module_semantics.specs.Bodies.{run, run_all, scope_of, with_result};
ghost use Rattle.module_semantics.specs.Evaluation.{values_of};
ghost use Rattle.const_eval.specs.States.{context_of, state_of};
ghost use Rattle.const_eval.specs.Stops.{Gives, Leaves};

use crate::expression::{eval_all, eval_expr};
use crate::state::{Context, State, Step, add_invalidation, add_line, assign, keep, reads};
use crate::stop::Stop;
use crate::values::{text_of, truth};
use hmr_types::{EvalFault, Text};
use module_semantics::ModParam;
use module_tree::{Cond, Expr, Stmt};
use std::alloc::Global;

/// Runs statements in order, up to the first fault.
#[cycle(statements)]
pub fn run_stmts(alloc: Global, stmts: &[Stmt], context: &Context, state: &mut State) -> Step
    ensures { Leaves result (state_of context.now state.new)
        (run_all (context_of context.now) (stmts_of stmts.now) (state_of context.now state.old)) }
{
    for stmt in stmts {
        run_stmt(alloc, stmt, context, state)?;
    }
    Ok(())
}

/// Runs one statement.
#[cycle(statements)]
pub fn run_stmt(alloc: Global, stmt: &Stmt, context: &Context, state: &mut State) -> Step
    ensures { Leaves result (state_of context.now state.new)
        (run (context_of context.now) (stmt_of stmt.now) (state_of context.now state.old)) }
{
    match stmt {
        Stmt::Log(es) => {
            let values = eval_all(alloc, es, &reads(context, state))?;
            add_line(alloc, values.as_slice(), state)
        }
        Stmt::Assign(name, e) => {
            let value = eval_expr(alloc, e, &reads(context, state))?;
            assign(name, value, context, state)
        }
        Stmt::BagSet(key, e) => {
            let value = eval_expr(alloc, e, &reads(context, state))?;
            keep(key, value, state)
        }
        Stmt::Throw(e) => {
            let value = eval_expr(alloc, e, &reads(context, state))?;
            Err(Stop::Fault(EvalFault::Thrown(text_of(alloc, &value)?)))
        }
        Stmt::Invalidate(e) => invalidate(alloc, e, context, state),
        Stmt::If(cond, first, second) => {
            if holds(alloc, cond, context, state)? {
                run_stmts(alloc, first, context, state)
            } else {
                run_stmts(alloc, second, context, state)
            }
        }
    }
}

fn invalidate(alloc: Global, e: &Option<Expr>, context: &Context, state: &mut State) -> Step
    ensures { Leaves result (state_of context.now state.new)
        (invalidate (scope_of (context_of context.now) (state_of context.now state.old))
        (state_of context.now state.old) (option_map expr_of e.now)) }
{
    match e {
        None => add_invalidation(Text::from_string(String::new(alloc)), state),
        Some(e) => {
            let value = eval_expr(alloc, e, &reads(context, state))?;
            add_invalidation(text_of(alloc, &value)?, state)
        }
    }
}

/// Whether a condition holds.
fn holds(alloc: Global, cond: &Cond, context: &Context, state: &State) -> Result<bool, Stop>
    ensures { Gives result
        (holds (scope_of (context_of context.now) (state_of context.now state.now)) (cond_of cond.now)) }
{
    match cond {
        Cond::Param(place) => Ok(is_module(context.mods, *place)),
        Cond::Value(e) => Ok(truth(&eval_expr(alloc, e, &reads(context, state))?)),
    }
}

/// Whether a parameter is a module.
fn is_module(mods: &[ModParam], place: u32) -> bool
    ensures { result ≡ is_module (slice_get mods.now place) }
{
    matches!(mods.get(place as usize), Some(ModParam::Mod(_)))
}
