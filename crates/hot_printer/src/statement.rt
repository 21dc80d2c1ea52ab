// The text of statements: each on lines of its own, two spaces further in for each block round it.
ghost use Rattle.std.specs.Prelude.{◌≡◌, ◌++◌, OnOk, map, suc};
ghost use Rattle.std.specs.Option.{option_map};
ghost use Rattle.module_tree.specs.Syntax.{assign, bag_set, invalidate, log, throw};
ghost use Rattle.module_tree.specs.Tree.{cond_of, expr_of, stmt_of, stmts_of};
ghost use Rattle.hot_printer.specs.Pieces.{block_text, if_text, value_text};
ghost use Rattle.module_semantics.specs.Canon.{cond_text, else_text, indent, stmt_text};
ghost use Rattle.module_semantics.specs.Canon.{stmts_text, told_text};

use crate::expression::{put_expr, put_exprs, put_key};
use crate::names::put_param;
use crate::text::put;
use hmr_types::Name;
use module_tree::{Cond, Expr, Stmt};
use std::alloc::{AllocError, Global};

/// Puts statements in order, inside so many blocks.
#[cycle(stmts)]
pub fn put_stmts(
    alloc: Global,
    out: &mut Vec<u8>,
    params: &[Name],
    depth: usize,
    stmts: &[Stmt],
) -> Result<(), AllocError>
    ensures { OnOk result
        (out.new.items ≡ out.old.items ++ stmts_text params.now depth (stmts_of stmts.now)) }
{
    for stmt in stmts {
        put_stmt(alloc, out, params, depth, stmt)?;
    }
    Ok(())
}

/// Puts a statement, inside so many blocks.
#[cycle(stmts)]
pub fn put_stmt(
    alloc: Global,
    out: &mut Vec<u8>,
    params: &[Name],
    depth: usize,
    stmt: &Stmt,
) -> Result<(), AllocError>
    ensures { OnOk result (out.new.items ≡ out.old.items ++ stmt_text params.now depth (stmt_of stmt.now)) }
{
    match stmt {
        Stmt::Log(es) => put_log(alloc, out, params, depth, es),
        Stmt::Assign(name, e) => put_assign(alloc, out, params, depth, name, e),
        Stmt::BagSet(key, e) => put_bag_set(alloc, out, params, depth, key, e),
        Stmt::Throw(e) => put_throw(alloc, out, params, depth, e),
        Stmt::Invalidate(told) => put_invalidate(alloc, out, params, depth, told),
        Stmt::If(condition, first, second) => {
            put_if(alloc, out, params, depth, condition)?;
            put_block(alloc, out, params, depth, first)?;
            put_else(alloc, out, params, depth, second)
        }
    }
}

/// Puts the end of an `if`, with its other body unless that is empty.
#[cycle(stmts)]
fn put_else(
    alloc: Global,
    out: &mut Vec<u8>,
    params: &[Name],
    depth: usize,
    body: &[Stmt],
) -> Result<(), AllocError>
    ensures { OnOk result
        (out.new.items
        ≡ out.old.items
        ++ else_text depth (stmts_of body.now) (stmts_text params.now (suc depth) (stmts_of body.now))) }
{
    if body.is_empty() {
        return put(out, "\n");
    }
    put(out, " else {\n")?;
    put_block(alloc, out, params, depth, body)?;
    put(out, "\n")
}

/// Puts the statements of a block and its end.
#[cycle(stmts)]
fn put_block(
    alloc: Global,
    out: &mut Vec<u8>,
    params: &[Name],
    depth: usize,
    body: &[Stmt],
) -> Result<(), AllocError>
    ensures { OnOk result
        (out.new.items ≡ out.old.items ++ block_text params.now depth (stmts_of body.now)) }
{
    let inner = depth.checked_add(1).ok_or(AllocError)?;
    put_stmts(alloc, out, params, inner, body)?;
    put_indent(out, depth)?;
    put(out, "}")
}

fn put_log(
    alloc: Global,
    out: &mut Vec<u8>,
    params: &[Name],
    depth: usize,
    es: &[Expr],
) -> Result<(), AllocError>
    ensures { OnOk result
        (out.new.items ≡ out.old.items ++ stmt_text params.now depth (log (map expr_of es.now))) }
{
    put_indent(out, depth)?;
    put(out, "console.log(")?;
    put_exprs(alloc, out, params, es)?;
    put(out, ");\n")
}

fn put_assign(
    alloc: Global,
    out: &mut Vec<u8>,
    params: &[Name],
    depth: usize,
    name: &Name,
    e: &Expr,
) -> Result<(), AllocError>
    ensures { OnOk result
        (out.new.items ≡ out.old.items ++ stmt_text params.now depth (assign name.now (expr_of e.now))) }
{
    put_indent(out, depth)?;
    put(out, name.as_str())?;
    put_value(alloc, out, params, e)
}

fn put_bag_set(
    alloc: Global,
    out: &mut Vec<u8>,
    params: &[Name],
    depth: usize,
    key: &Name,
    e: &Expr,
) -> Result<(), AllocError>
    ensures { OnOk result
        (out.new.items ≡ out.old.items ++ stmt_text params.now depth (bag_set key.now (expr_of e.now))) }
{
    put_indent(out, depth)?;
    put_key(out, key)?;
    put_value(alloc, out, params, e)
}

fn put_throw(
    alloc: Global,
    out: &mut Vec<u8>,
    params: &[Name],
    depth: usize,
    e: &Expr,
) -> Result<(), AllocError>
    ensures { OnOk result
        (out.new.items ≡ out.old.items ++ stmt_text params.now depth (throw (expr_of e.now))) }
{
    put_indent(out, depth)?;
    put(out, "throw new Error(")?;
    put_expr(alloc, out, params, e)?;
    put(out, ");\n")
}

fn put_invalidate(
    alloc: Global,
    out: &mut Vec<u8>,
    params: &[Name],
    depth: usize,
    told: &Option<Expr>,
) -> Result<(), AllocError>
    ensures { OnOk result
        (out.new.items
        ≡ out.old.items ++ stmt_text params.now depth (invalidate (option_map expr_of told.now))) }
{
    put_indent(out, depth)?;
    put(out, "import.meta.hot.invalidate(")?;
    put_told(alloc, out, params, told)?;
    put(out, ");\n")
}

fn put_told(
    alloc: Global,
    out: &mut Vec<u8>,
    params: &[Name],
    told: &Option<Expr>,
) -> Result<(), AllocError>
    ensures { OnOk result
        (out.new.items ≡ out.old.items ++ told_text params.now (option_map expr_of told.now)) }
{
    match told {
        None => Ok(()),
        Some(e) => put_expr(alloc, out, params, e),
    }
}

/// Puts an `if` up to its first block.
fn put_if(
    alloc: Global,
    out: &mut Vec<u8>,
    params: &[Name],
    depth: usize,
    condition: &Cond,
) -> Result<(), AllocError>
    ensures { OnOk result
        (out.new.items ≡ out.old.items ++ if_text params.now depth (cond_of condition.now)) }
{
    put_indent(out, depth)?;
    put(out, "if (")?;
    put_condition(alloc, out, params, condition)?;
    put(out, ") {\n")
}

/// Puts two spaces for each block.
fn put_indent(out: &mut Vec<u8>, depth: usize) -> Result<(), AllocError>
    ensures { OnOk result (out.new.items ≡ out.old.items ++ indent depth) }
{
    for _block in 0..depth {
        put(out, "  ")?;
    }
    Ok(())
}

/// Puts what is given to a variable or a key.
fn put_value(alloc: Global, out: &mut Vec<u8>, params: &[Name], e: &Expr) -> Result<(), AllocError>
    ensures { OnOk result (out.new.items ≡ out.old.items ++ value_text params.now (expr_of e.now)) }
{
    put(out, " = ")?;
    put_expr(alloc, out, params, e)?;
    put(out, ";\n")
}

fn put_condition(
    alloc: Global,
    out: &mut Vec<u8>,
    params: &[Name],
    condition: &Cond,
) -> Result<(), AllocError>
    ensures { OnOk result (out.new.items ≡ out.old.items ++ cond_text params.now (cond_of condition.now)) }
{
    match condition {
        Cond::Param(place) => put_param(out, params, *place),
        Cond::Value(e) => put_expr(alloc, out, params, e),
    }
}
