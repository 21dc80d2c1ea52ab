// The tree of a module, of what the grammar tells. What a name means hangs on where it stands: in a
// callback of `dispose` or `prune` the keys of its parameter are those of the bag, and in one of `accept`
// or `on` a parameter is told by its place. A callback of an event lists the event's module.
ghost use Rattle.std.specs.Prelude.{◌≡◌, IfOk, map};
ghost use Rattle.module_semantics.specs.Raw.{on};
ghost use Rattle.module_tree.specs.Syntax.{binary};
ghost use Rattle.module_tree.specs.Tree.{cond_of, expr_of, handler_of, item_of, module_of};
ghost use Rattle.module_tree.specs.Tree.{once_of, stmt_of, stmts_of};
ghost use Rattle.raw_trees.specs.Raw.{name_at_of, operation_of, raw_expr_of, raw_handler_of};
ghost use Rattle.raw_trees.specs.Raw.{raw_import_of, raw_item_of, raw_items_of, raw_once_of};
ghost use Rattle.raw_trees.specs.Raw.{raw_stmt_of, raw_stmts_of};
ghost use Rattle.module_semantics.specs.NameRules.{names_of};
ghost use Rattle.module_semantics.specs.Resolving.{accept_tree, cond_tree, expr_tree, handler_tree};
ghost use Rattle.module_semantics.specs.Resolving.{import_name, item_tree, member_tree, module_tree};
ghost use Rattle.module_semantics.specs.Resolving.{name_cond, once_handler_tree, once_tree, stmt_tree};
ghost use Rattle.module_semantics.specs.Resolving.{stmts_tree};
ghost use Rattle.name_rules.specs.Rows.{rowed};
ghost use Rattle.name_rules.specs.Within.{within_of};

use crate::alone::alone;
use crate::name_table::NameTable;
use crate::within::Within;
use hmr_types::{Name, Sequence, event_module};
use module_tree::{Cond, Expr, HandlerCode, ImportName, Item, Module, Once, Op, Stmt};
use raw_trees::{NameAt, RawExpr, RawHandler, RawImport, RawItem, RawOnce, RawStmt};
use std::alloc::{AllocError, Global};

/// The tree of what the grammar tells of a module. Parameters are looked up in a table: the time is
/// linear but for the logarithm of their number in a callback, and the memory is linear.
pub fn module_tree(alloc: Global, items: &[RawItem]) -> Result<Module, AllocError>
    ensures exact { IfOk result (λ tree. module_of tree ≡ module_tree (raw_items_of items.now)) }
{
    let mut tree = Vec::new(alloc);
    for item in items {
        tree.push(item_tree(alloc, item)?)?;
    }
    Ok(Module { items: tree })
}

fn item_tree(alloc: Global, item: &RawItem) -> Result<Item, AllocError>
    ensures { IfOk result (λ tree. item_of tree ≡ item_tree (raw_item_of item.now)) }
{
    match item {
        RawItem::Import { spec, names } => Ok(Item::Import {
            spec: spec.clone()?,
            names: import_names(alloc, names)?,
        }),
        RawItem::Declare {
            exported,
            mutable,
            name,
            value,
        } => Ok(Item::Declare {
            exported: *exported,
            mutable: *mutable,
            name: name.name.clone()?,
            value: expr_tree(alloc, &Within::Outside, value)?,
        }),
        RawItem::Act(stmt) => Ok(Item::Do(stmt_tree(alloc, &Within::Outside, stmt)?)),
        RawItem::Own(None) => Ok(Item::Own(None)),
        RawItem::Own(Some(once)) => Ok(Item::Own(Some(accept_tree(alloc, once)?))),
        RawItem::Deps { list, specs, call } => Ok(Item::Deps {
            list: *list,
            specs: Sequence::from_vec(specs.clone()?),
            call: match call {
                None => None,
                Some(code) => Some(handler_tree(alloc, code)?),
            },
        }),
        RawItem::On { event, call } => listener_tree(alloc, event, call),
        RawItem::Dispose(once) => Ok(Item::Dispose(once_tree(alloc, once)?)),
        RawItem::Prune(once) => Ok(Item::Prune(once_tree(alloc, once)?)),
        RawItem::Decline => Ok(Item::Decline),
    }
}

fn import_names(alloc: Global, names: &[RawImport]) -> Result<Sequence<ImportName>, AllocError>
    ensures { IfOk result (λ tree. tree ≡ map import_name (map raw_import_of names.now)) }
{
    let mut tree = Vec::new(alloc);
    for name in names {
        tree.push(ImportName {
            exported: name.exported.clone()?,
            local: name.local.name.clone()?,
        })?;
    }
    Ok(Sequence::from_vec(tree))
}

/// A callback of an event.
fn listener_tree(alloc: Global, event: &NameAt, call: &RawHandler) -> Result<Item, AllocError>
    ensures { IfOk result
        (λ tree. item_of tree ≡ item_tree (on (name_at_of event.now) (raw_handler_of call.now))) }
{
    let mut specs = Vec::new(alloc);
    specs.push(event_module(alloc, event.name.as_str())?)?;
    let call = handler_tree(alloc, call)?;
    Ok(Item::Deps {
        list: false,
        specs: Sequence::from_vec(specs),
        call: Some(call),
    })
}

/// What `accept` of the module itself takes.
fn accept_tree(alloc: Global, once: &RawOnce) -> Result<Once, AllocError>
    ensures { IfOk result (λ tree. once_of tree ≡ accept_tree (raw_once_of once.now)) }
{
    match once {
        RawOnce::Code(code) => Ok(Once::Code(handler_tree(alloc, code)?)),
        RawOnce::Host(label) => Ok(Once::Host(label.clone()?)),
    }
}

/// What `dispose` and `prune` take.
fn once_tree(alloc: Global, once: &RawOnce) -> Result<Once, AllocError>
    ensures { IfOk result (λ tree. once_of tree ≡ once_tree (raw_once_of once.now)) }
{
    match once {
        RawOnce::Code(code) => Ok(Once::Code(once_handler_tree(alloc, code)?)),
        RawOnce::Host(label) => Ok(Once::Host(label.clone()?)),
    }
}

/// A callback of `accept`, which keeps its parameters.
fn handler_tree(alloc: Global, code: &RawHandler) -> Result<HandlerCode, AllocError>
    ensures { IfOk result (λ tree. handler_of tree ≡ handler_tree (raw_handler_of code.now)) }
{
    let params = NameTable::new(alloc, &code.params)?;
    Ok(HandlerCode {
        params: param_names(alloc, &code.params)?,
        body: stmts_tree(alloc, &Within::Accept(&params), &code.body)?,
    })
}

/// A callback of `dispose` or `prune`, whose parameter is forgotten.
fn once_handler_tree(alloc: Global, code: &RawHandler) -> Result<HandlerCode, AllocError>
    ensures { IfOk result (λ tree. handler_of tree ≡ once_handler_tree (raw_handler_of code.now)) }
{
    let params = NameTable::new(alloc, &code.params)?;
    Ok(HandlerCode {
        params: Sequence::new(alloc),
        body: stmts_tree(alloc, &Within::Once(&params), &code.body)?,
    })
}

fn param_names(alloc: Global, params: &[NameAt]) -> Result<Sequence<Name>, AllocError>
    ensures { IfOk result (λ names. names ≡ names_of (map name_at_of params.now)) }
{
    let mut names = Vec::new(alloc);
    for param in params {
        names.push(param.name.clone()?)?;
    }
    Ok(Sequence::from_vec(names))
}

#[cycle(stmts)]
fn stmts_tree(
    alloc: Global,
    within: &Within<'_>,
    stmts: &[RawStmt],
) -> Result<Vec<Stmt>, AllocError>
    ensures { IfOk result
        (λ tree. stmts_of tree.items ≡ stmts_tree (within_of within.now) (raw_stmts_of stmts.now)) }
{
    let mut tree = Vec::new(alloc);
    for stmt in stmts {
        tree.push(stmt_tree(alloc, within, stmt)?)?;
    }
    Ok(tree)
}

#[cycle(stmts)]
fn stmt_tree(alloc: Global, within: &Within<'_>, stmt: &RawStmt) -> Result<Stmt, AllocError>
    ensures { IfOk result (λ tree. stmt_of tree ≡ stmt_tree (within_of within.now) (raw_stmt_of stmt.now)) }
{
    match stmt {
        RawStmt::Log(es) => Ok(Stmt::Log(exprs_tree(alloc, within, es)?)),
        RawStmt::Assign(name, e) => Ok(Stmt::Assign(
            name.name.clone()?,
            expr_tree(alloc, within, e)?,
        )),
        RawStmt::Set(_, key, e) => Ok(Stmt::BagSet(key.clone()?, expr_tree(alloc, within, e)?)),
        RawStmt::SetBag(key, e) => Ok(Stmt::BagSet(key.clone()?, expr_tree(alloc, within, e)?)),
        RawStmt::Throw(e) => Ok(Stmt::Throw(expr_tree(alloc, within, e)?)),
        RawStmt::Invalidate(_, None) => Ok(Stmt::Invalidate(None)),
        RawStmt::Invalidate(_, Some(e)) => {
            Ok(Stmt::Invalidate(Some(expr_tree(alloc, within, e)?)))
        }
        RawStmt::Branch(condition, first, second) => Ok(Stmt::If(
            cond_tree(alloc, within, condition)?,
            stmts_tree(alloc, within, first)?,
            stmts_tree(alloc, within, second)?,
        )),
    }
}

/// The condition of an `if`.
fn cond_tree(alloc: Global, within: &Within<'_>, e: &RawExpr) -> Result<Cond, AllocError>
    ensures { IfOk result (λ tree. cond_of tree ≡ cond_tree (within_of within.now) (raw_expr_of e.now)) }
{
    match alone(e) {
        Some(name) => name_cond(within, name),
        None => Ok(Cond::Value(expr_tree(alloc, within, e)?)),
    }
}

/// A name alone, as the whole condition of an `if`.
fn name_cond(within: &Within<'_>, name: &NameAt) -> Result<Cond, AllocError>
    ensures { IfOk result (λ tree. cond_of tree ≡ name_cond (within_of within.now) name.now.name) }
{
    match within {
        Within::Accept(params) => {
            if params.has(&name.name) {
                return Ok(Cond::Param(params.place_of(&name.name)));
            }
            Ok(Cond::Value(Expr::Name(name.name.clone()?)))
        }
        Within::Outside | Within::Once(_) => Ok(Cond::Value(Expr::Name(name.name.clone()?))),
    }
}

fn exprs_tree(alloc: Global, within: &Within<'_>, es: &[RawExpr]) -> Result<Vec<Expr>, AllocError>
    ensures { IfOk result
        (λ tree. map expr_of tree.items ≡ map (expr_tree (within_of within.now)) (map raw_expr_of es.now)) }
{
    let mut tree = Vec::new(alloc);
    for e in es {
        tree.push(expr_tree(alloc, within, e)?)?;
    }
    Ok(tree)
}

#[cycle(exprs)]
fn expr_tree(alloc: Global, within: &Within<'_>, e: &RawExpr) -> Result<Expr, AllocError>
    ensures { IfOk result (λ tree. expr_of tree ≡ expr_tree (within_of within.now) (raw_expr_of e.now)) }
{
    match e {
        RawExpr::Num(n) => Ok(Expr::Num(*n)),
        RawExpr::Text(text) => Ok(Expr::Text(text.clone()?)),
        RawExpr::Undefined => Ok(Expr::Undefined),
        RawExpr::Name(name) => Ok(Expr::Name(name.name.clone()?)),
        RawExpr::Bag(key) => Ok(Expr::Bag(key.clone()?)),
        RawExpr::Member { base, safe, key } => member_tree(within, base, *safe, key),
        RawExpr::Neg(a) => Ok(Expr::Neg(boxed_tree(alloc, within, a)?)),
        RawExpr::Row(first, rest) => {
            let first = expr_tree(alloc, within, first)?;
            row_tree(alloc, within, rest, first)
        }
        RawExpr::Choose(condition, first, second) => Ok(Expr::Choose(
            boxed_tree(alloc, within, condition)?,
            boxed_tree(alloc, within, first)?,
            boxed_tree(alloc, within, second)?,
        )),
    }
}

#[cycle(exprs)]
fn boxed_tree(alloc: Global, within: &Within<'_>, e: &RawExpr) -> Result<Box<Expr>, AllocError>
    ensures { IfOk result
        (λ tree. expr_of tree.value ≡ expr_tree (within_of within.now) (raw_expr_of e.now)) }
{
    Ok(Box::new(alloc, expr_tree(alloc, within, e)?)?)
}

/// A row of operators behind its first operand, which group to the left.
#[cycle(exprs)]
fn row_tree(
    alloc: Global,
    within: &Within<'_>,
    rest: &[(Op, RawExpr)],
    first: Expr,
) -> Result<Expr, AllocError>
    ensures { IfOk result
        (λ tree. expr_of tree ≡ rowed (within_of within.now) (expr_of first) (map operation_of rest.now)) }
{
    let mut tree = first;
    for (op, right) in rest {
        let right = expr_tree(alloc, within, right)?;
        tree = joined(alloc, *op, tree, right)?;
    }
    Ok(tree)
}

/// Two operands with their operator.
fn joined(alloc: Global, op: Op, left: Expr, right: Expr) -> Result<Expr, AllocError>
    ensures { IfOk result (λ e. expr_of e ≡ binary op (expr_of left) (expr_of right)) }
{
    Ok(Expr::Binary(op, Box::new(alloc, left)?, Box::new(alloc, right)?))
}

/// A key of what a name is.
fn member_tree(
    within: &Within<'_>,
    base: &NameAt,
    safe: bool,
    key: &Name,
) -> Result<Expr, AllocError>
    ensures { IfOk result
        (λ tree. expr_of tree ≡ member_tree (within_of within.now) (name_at_of base.now) safe key.now) }
{
    match within {
        Within::Outside => Ok(Expr::Member {
            param: 0,
            safe,
            name: key.clone()?,
        }),
        Within::Once(_) => Ok(Expr::Bag(key.clone()?)),
        Within::Accept(params) => Ok(Expr::Member {
            param: params.place_of(&base.name),
            safe,
            name: key.clone()?,
        }),
    }
}
