// The value of an expression. A row of operators, as `a + b + c`, groups to the left, so its tree is as
// deep as the row is long: its left sides are walked down by a loop that keeps the operators and the
// right sides, and these are then worked off from the innermost. What else stands inside an expression
// is at most as deep as the module language allows, and is evaluated by recursion.
ghost use Rattle.std.specs.Prelude.{map};
ghost use Rattle.module_tree.specs.Tree.{expr_of};
ghost use Rattle.module_semantics.specs.Evaluation.{value_of, values_of};
ghost use Rattle.module_semantics.specs.Values.{with_right};
ghost use Rattle.const_eval.specs.Reads.{scope_of};
ghost use Rattle.const_eval.specs.Stops.{Gives};

use crate::scope::{Scope, read_bag, read_member, read_name};
use crate::stop::Stop;
use crate::values::{literal, negate, text, truth, with_op};
use hmr_types::{Sequence, Value};
use module_tree::{Expr, Op};
use std::alloc::Global;

/// The value of an expression, or its fault. It takes time in proportion to the expression and to the
/// look-ups of names in it.
#[cycle(eval)]
pub fn eval_expr(alloc: Global, e: &Expr, scope: &Scope) -> Result<Value, Stop>
    ensures { Gives result (value_of (scope_of scope.now) (expr_of e.now)) }
{
    let mut row: Vec<(Op, &Expr)> = Vec::new(alloc);
    let mut first = e;
    while let Expr::Binary(op, a, b) = first {
        row.push((*op, b))?;
        first = a;
    }
    let mut value = eval_first(alloc, first, scope)?;
    while let Some((op, right)) = row.pop() {
        value = eval_right(alloc, op, value, right, scope)?;
    }
    Ok(value)
}

/// The first operand of a row.
#[cycle(eval)]
fn eval_first(alloc: Global, e: &Expr, scope: &Scope) -> Result<Value, Stop>
    ensures { Gives result (value_of (scope_of scope.now) (expr_of e.now)) }
{
    match e {
        Expr::Num(n) => Ok(literal(*n)?),
        Expr::Text(t) => Ok(text(t.clone()?)?),
        Expr::Undefined => Ok(Value::Undef),
        Expr::Name(name) => read_name(scope, name),
        Expr::Bag(key) => Ok(read_bag(scope, key)?),
        Expr::Member { param, safe, name } => read_member(scope, *param, *safe, name),
        Expr::Neg(a) => Ok(negate(&eval_expr(alloc, a, scope)?)?),
        Expr::Binary(op, a, b) => {
            let left = eval_expr(alloc, a, scope)?;
            eval_right(alloc, *op, left, b, scope)
        }
        Expr::Choose(c, a, b) => {
            if truth(&eval_expr(alloc, c, scope)?) {
                eval_expr(alloc, a, scope)
            } else {
                eval_expr(alloc, b, scope)
            }
        }
    }
}

/// An operator, whose left side has this value. The right side of `??` is evaluated only where it is
/// wanted.
#[cycle(eval)]
fn eval_right(
    alloc: Global,
    op: Op,
    left: Value,
    right: &Expr,
    scope: &Scope,
) -> Result<Value, Stop>
    ensures { Gives result (with_right op left (value_of (scope_of scope.now) (expr_of right.now))) }
{
    if op == Op::Null && !matches!(&left, Value::Undef) {
        return Ok(left);
    }
    let right = eval_expr(alloc, right, scope)?;
    with_op(alloc, op, &left, right)
}

/// The values of expressions, in order, or the first fault.
pub fn eval_all(alloc: Global, es: &[Expr], scope: &Scope) -> Result<Sequence<Value>, Stop>
    ensures { Gives result (values_of (scope_of scope.now) (map expr_of es.now)) }
{
    let mut values = Vec::new(alloc);
    for e in es {
        values.push(eval_expr(alloc, e, scope)?)?;
    }
    Ok(Sequence::from_vec(values))
}
