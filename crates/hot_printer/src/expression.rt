// The text of an expression. A row of operators, as `a + b + c`, groups to the left, so its tree is as
// deep as the row is long: its left sides are walked down by a loop, which writes the parentheses that
// open at the row's front and keeps the operators with their right sides; these are then written from
// the innermost out. What else stands inside an expression is at most as deep as the module language
// allows, and is written by recursion.
ghost use Rattle.std.specs.Prelude.{◌≡◌, ◌≤◌, ◌++◌, OnOk, codes, map};
ghost use Rattle.module_tree.specs.Syntax.{choose, member, neg};
ghost use Rattle.module_tree.specs.Tree.{expr_of};
ghost use Rattle.module_semantics.specs.Canon.{comma_then, commas, dot_text, expr_text};
ghost use Rattle.module_semantics.specs.Canon.{level, op_level, op_text};
ghost use Rattle.hot_printer.specs.Rows.{at_place, closing, opening, right_text};

use crate::names::put_param;
use crate::text::{put, put_both, put_number, put_quoted};
use hmr_types::Name;
use module_tree::{Expr, Op};
use std::alloc::{AllocError, Global};

/// Puts an expression. It takes time in proportion to the expression and to its text.
pub fn put_expr(
    alloc: Global,
    out: &mut Vec<u8>,
    params: &[Name],
    e: &Expr,
) -> Result<(), AllocError>
    ensures { OnOk result (out.new.items ≡ out.old.items ++ expr_text params.now (expr_of e.now)) }
{
    put_at(alloc, out, params, e, 0)
}

/// Puts an expression at a place that asks for this level.
#[cycle(exprs)]
fn put_at(
    alloc: Global,
    out: &mut Vec<u8>,
    params: &[Name],
    e: &Expr,
    place: u8,
) -> Result<(), AllocError>
    ensures { OnOk result (out.new.items ≡ out.old.items ++ at_place params.now place (expr_of e.now)) }
{
    let mut row: Vec<(Op, &Expr, bool)> = Vec::new(alloc);
    let mut first = e;
    let mut asked = place;
    while let Expr::Binary(op, left, right) = first {
        let closed = op_level(*op) < asked;
        put_open(out, closed)?;
        row.push((*op, right, closed))?;
        first = left;
        asked = op_level(*op);
    }
    put_first(alloc, out, params, first, asked)?;
    while let Some((op, right, closed)) = row.pop() {
        put_right(alloc, out, params, op, right)?;
        put_close(out, closed)?;
    }
    Ok(())
}

/// Puts the first operand of a row.
#[cycle(exprs)]
fn put_first(
    alloc: Global,
    out: &mut Vec<u8>,
    params: &[Name],
    e: &Expr,
    place: u8,
) -> Result<(), AllocError>
    ensures { OnOk result (out.new.items ≡ out.old.items ++ at_place params.now place (expr_of e.now)) }
{
    if level(e) < place {
        put(out, "(")?;
        put_bare(alloc, out, params, e)?;
        put(out, ")")
    } else {
        put_bare(alloc, out, params, e)
    }
}

/// Puts an expression without parentheses round it.
#[cycle(exprs)]
fn put_bare(alloc: Global, out: &mut Vec<u8>, params: &[Name], e: &Expr) -> Result<(), AllocError>
    ensures { OnOk result (out.new.items ≡ out.old.items ++ expr_text params.now (expr_of e.now)) }
{
    match e {
        Expr::Num(n) => put_number(out, *n),
        Expr::Text(text) => put_quoted(out, text.as_str()),
        Expr::Undefined => put(out, "undefined"),
        Expr::Name(name) => put(out, name.as_str()),
        Expr::Bag(key) => put_key(out, key),
        Expr::Member { param, safe, name } => put_member(out, params, *param, *safe, name),
        Expr::Neg(a) => put_neg(alloc, out, params, a),
        Expr::Binary(op, left, right) => {
            put_at(alloc, out, params, left, op_level(*op))?;
            put_right(alloc, out, params, *op, right)
        }
        Expr::Choose(condition, first, second) => {
            put_choose(alloc, out, params, condition, first, second)
        }
    }
}

#[cycle(exprs)]
fn put_neg(alloc: Global, out: &mut Vec<u8>, params: &[Name], a: &Expr) -> Result<(), AllocError>
    ensures { OnOk result (out.new.items ≡ out.old.items ++ expr_text params.now (neg (expr_of a.now))) }
{
    put(out, "-")?;
    put_at(alloc, out, params, a, 5)
}

#[cycle(exprs)]
fn put_choose(
    alloc: Global,
    out: &mut Vec<u8>,
    params: &[Name],
    condition: &Expr,
    first: &Expr,
    second: &Expr,
) -> Result<(), AllocError>
    ensures { OnOk result
        (out.new.items
        ≡ out.old.items
        ++ expr_text params.now (choose (expr_of condition.now) (expr_of first.now) (expr_of second.now))) }
{
    put_at(alloc, out, params, condition, 1)?;
    put(out, " ? ")?;
    put_at(alloc, out, params, first, 0)?;
    put(out, " : ")?;
    put_at(alloc, out, params, second, 0)
}

/// Puts an operator and its right side.
#[cycle(exprs)]
fn put_right(
    alloc: Global,
    out: &mut Vec<u8>,
    params: &[Name],
    op: Op,
    right: &Expr,
) -> Result<(), AllocError>
    ensures { OnOk result (out.new.items ≡ out.old.items ++ right_text params.now op (expr_of right.now)) }
{
    put(out, op_str(op))?;
    put_at(alloc, out, params, right, op_level(op) + 1)
}

/// Puts a key of the bag.
pub fn put_key(out: &mut Vec<u8>, key: &Name) -> Result<(), AllocError>
    ensures { OnOk result (out.new.items ≡ out.old.items ++ (codes "import.meta.hot.data." ++ key.now)) }
{
    put_both(out, "import.meta.hot.data.", key.as_str())
}

fn put_member(
    out: &mut Vec<u8>,
    params: &[Name],
    place: u32,
    safe: bool,
    name: &Name,
) -> Result<(), AllocError>
    ensures { OnOk result
        (out.new.items ≡ out.old.items ++ expr_text params.now (member place safe name.now)) }
{
    put_param(out, params, place)?;
    put(out, dot_str(safe))?;
    put(out, name.as_str())
}

fn put_open(out: &mut Vec<u8>, closed: bool) -> Result<(), AllocError>
    ensures { OnOk result (out.new.items ≡ out.old.items ++ opening closed) }
{
    if closed { put(out, "(") } else { Ok(()) }
}

fn put_close(out: &mut Vec<u8>, closed: bool) -> Result<(), AllocError>
    ensures { OnOk result (out.new.items ≡ out.old.items ++ closing closed) }
{
    if closed { put(out, ")") } else { Ok(()) }
}

/// The level of the grammar that an expression is of.
fn level(e: &Expr) -> u8
    ensures { result ≡ level (expr_of e.now) }
{
    match e {
        Expr::Num(_) | Expr::Text(_) | Expr::Undefined => 5,
        Expr::Name(_) | Expr::Bag(_) => 5,
        Expr::Member {
            param: _,
            safe: _,
            name: _,
        } => 5,
        Expr::Neg(_) => 4,
        Expr::Binary(op, _, _) => op_level(*op),
        Expr::Choose(_, _, _) => 0,
    }
}

fn op_level(op: Op) -> u8
    ensures value { result ≡ op_level op }
    ensures small { result ≤ 3 }
{
    match op {
        Op::Null => 1,
        Op::Add | Op::Sub => 2,
        Op::Mul => 3,
    }
}

/// An operator with a space at each side.
fn op_str(op: Op) -> &'static str
    ensures { result.now ≡ op_text op }
{
    match op {
        Op::Null => " ?? ",
        Op::Add => " + ",
        Op::Sub => " - ",
        Op::Mul => " * ",
    }
}

fn dot_str(safe: bool) -> &'static str
    ensures { result.now ≡ dot_text safe }
{
    if safe { "?." } else { "." }
}

/// Puts expressions with commas between them.
pub fn put_exprs(
    alloc: Global,
    out: &mut Vec<u8>,
    params: &[Name],
    es: &[Expr],
) -> Result<(), AllocError>
    ensures { OnOk result
        (out.new.items ≡ out.old.items ++ commas (map (expr_text params.now) (map expr_of es.now))) }
{
    if let [first, rest @ ..] = es {
        put_expr(alloc, out, params, first)?;
        put_later_exprs(alloc, out, params, rest)?;
    }
    Ok(())
}

fn put_later_exprs(
    alloc: Global,
    out: &mut Vec<u8>,
    params: &[Name],
    es: &[Expr],
) -> Result<(), AllocError>
    ensures { OnOk result
        (out.new.items ≡ out.old.items ++ comma_then (map (expr_text params.now) (map expr_of es.now))) }
{
    for e in es {
        put(out, ", ")?;
        put_expr(alloc, out, params, e)?;
    }
    Ok(())
}
