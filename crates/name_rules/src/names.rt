// The rules on names, which are asked of a text that has the grammar. Each part tells the place at which
// it breaks one first, and of two parts the lesser place counts; of two at one place, the earlier.
ghost use Rattle.std.specs.Prelude.{◌≡◌, ◌∷◌, ◌++◌, [], IfOk, None, OnOk, map};
ghost use Rattle.std.specs.Option.{option_map};
ghost use Rattle.raw_trees.specs.Raw.{name_at_of, operation_of, raw_expr_of, raw_handler_of};
ghost use Rattle.raw_trees.specs.Raw.{raw_import_of, raw_item_of, raw_items_of, raw_once_of};
ghost use Rattle.raw_trees.specs.Raw.{raw_stmt_of, raw_stmts_of};
ghost use Rattle.module_semantics.specs.NameRules.{bound_by, first_broken, is_bag, is_param};
ghost use Rattle.module_semantics.specs.NameRules.{accepts, lets_by, lets_of, names_of};
ghost use Rattle.module_semantics.specs.Reading.{flat};
ghost use Rattle.name_rules.specs.Firsts.{accept_handler_first, accept_once_first, assign_first};
ghost use Rattle.name_rules.specs.Firsts.{cond_first, earlier, expr_first, exprs_first, first_if};
ghost use Rattle.name_rules.specs.Firsts.{item_first, items_first, listener_first, maybe_first};
ghost use Rattle.name_rules.specs.Firsts.{once_first, once_handler_first, repeated_first, rowed_first};
ghost use Rattle.name_rules.specs.Firsts.{stmt_first, stmts_first};
ghost use Rattle.name_rules.specs.Told.{rule_word, told};
ghost use Rattle.name_rules.specs.Within.{within_of};

use crate::alone::alone;
use crate::name_table::NameTable;
use crate::within::Within;
use hmr_types::{Name, is_event};
use module_tree::Op;
use raw_trees::{NameAt, RawExpr, RawHandler, RawImport, RawItem, RawOnce, RawStmt};
use std::alloc::{AllocError, Global};

/// A rule on names.
#[derive(Clone, Copy, Debug, PartialEq, Eq)]
pub enum NameRule {
    /// A name stands where none may.
    Unexpected,
    /// A name is declared once.
    DuplicateName,
    /// What is assigned is a `let` of the module.
    NotAssignable,
}

/// A place that breaks a rule on names.
#[derive(Clone, Copy, Debug)]
pub struct Broken {
    /// The place of its first byte in the text, from 0.
    pub at: u32,
    /// The rule.
    pub rule: NameRule,
}

/// What breaks a rule on names at the least place, unless the rules hold. Names are looked up in tables
/// of the declared names, of those that `let` declares and of the parameters of a callback: the time is
/// linear but for the logarithm of their number, and the memory is linear.
pub fn first_broken(alloc: Global, items: &[RawItem]) -> Result<Option<Broken>, AllocError>
    ensures exact { IfOk result (λ found. told found ≡ first_broken (raw_items_of items.now)) }
{
    let bound = bound_names(alloc, items)?;
    let declared = let_names(alloc, items)?;
    let lets = NameTable::new(alloc, &declared)?;
    let found = repeated(&NameTable::new(alloc, &bound)?);
    items_first(alloc, &lets, items, found)
}

/// The one at the lesser place.
fn earlier(first: Option<Broken>, later: Option<Broken>) -> Option<Broken>
    ensures { told result ≡ earlier (told first) (told later) }
{
    match (first, later) {
        (None, later) => later,
        (Some(b), None) => Some(b),
        (Some(b), Some(c)) => { if b.at <= c.at { Some(b) } else { Some(c) } }
    }
}

fn first_if(test: bool, rule: NameRule, at: u32) -> Option<Broken>
    ensures { told result ≡ first_if test (rule_word rule) at }
{
    if test {
        Some(Broken { at, rule })
    } else {
        None
    }
}

/// Copies of the declared names and of the locals of imports, in order.
fn bound_names(alloc: Global, items: &[RawItem]) -> Result<Vec<NameAt>, AllocError>
    ensures { IfOk result
        (λ names. map name_at_of names.items ≡ flat (map bound_by (raw_items_of items.now))) }
{
    let mut names = Vec::new(alloc);
    for item in items {
        add_bound(&mut names, item)?;
    }
    Ok(names)
}

fn add_bound(names: &mut Vec<NameAt>, item: &RawItem) -> Result<(), AllocError>
    ensures { OnOk result
        (map name_at_of names.new.items
        ≡ map name_at_of names.old.items ++ bound_by (raw_item_of item.now)) }
{
    match item {
        RawItem::Import {
            spec: _,
            names: imported,
        } => add_locals(names, imported),
        RawItem::Declare {
            exported: _,
            mutable: _,
            name,
            value: _,
        } => add_copy(names, name),
        RawItem::Act(_) | RawItem::Own(_) | RawItem::Decline => Ok(()),
        RawItem::Deps {
            list: _,
            specs: _,
            call: _,
        } => Ok(()),
        RawItem::On { event: _, call: _ } => Ok(()),
        RawItem::Dispose(_) | RawItem::Prune(_) => Ok(()),
    }
}

fn add_locals(names: &mut Vec<NameAt>, imported: &[RawImport]) -> Result<(), AllocError>
    ensures { OnOk result
        (map name_at_of names.new.items
        ≡ map name_at_of names.old.items ++ map (λ i. i.local) (map raw_import_of imported.now)) }
{
    for import in imported {
        add_copy(names, &import.local)?;
    }
    Ok(())
}

fn add_copy(names: &mut Vec<NameAt>, name: &NameAt) -> Result<(), AllocError>
    ensures { OnOk result
        (map name_at_of names.new.items ≡ map name_at_of names.old.items ++ (name_at_of name.now ∷ [])) }
{
    names.push(NameAt {
        name: name.name.clone()?,
        at: name.at,
    })?;
    Ok(())
}

/// Copies of the names that `let` declares, in order.
fn let_names(alloc: Global, items: &[RawItem]) -> Result<Vec<NameAt>, AllocError>
    ensures { IfOk result
        (λ names. names_of (map name_at_of names.items) ≡ lets_of (raw_items_of items.now)) }
{
    let mut names = Vec::new(alloc);
    for item in items {
        add_let(&mut names, item)?;
    }
    Ok(names)
}

fn add_let(names: &mut Vec<NameAt>, item: &RawItem) -> Result<(), AllocError>
    ensures { OnOk result
        (names_of (map name_at_of names.new.items)
        ≡ names_of (map name_at_of names.old.items) ++ lets_by (raw_item_of item.now)) }
{
    match item {
        RawItem::Declare {
            exported: _,
            mutable,
            name,
            value: _,
        } => {
            if *mutable {
                add_copy(names, name)
            } else {
                Ok(())
            }
        }
        RawItem::Import { spec: _, names: _ } => Ok(()),
        RawItem::Act(_) | RawItem::Own(_) | RawItem::Decline => Ok(()),
        RawItem::Deps {
            list: _,
            specs: _,
            call: _,
        } => Ok(()),
        RawItem::On { event: _, call: _ } => Ok(()),
        RawItem::Dispose(_) | RawItem::Prune(_) => Ok(()),
    }
}

/// The first name that is one of those before it.
fn repeated(names: &NameTable<'_>) -> Option<Broken>
    ensures { told result ≡ repeated_first [] None names.now }
{
    let all = names.as_slice();
    let mut found = None;
    for place in 0..all.len() {
        let name = &all[place];
        let again = names.has_before(place, &name.name);
        found = earlier(found, first_if(again, NameRule::DuplicateName, name.at));
    }
    found
}

/// The one at the lesser place, of what was found before and of what the items break.
fn items_first(
    alloc: Global,
    lets: &NameTable<'_>,
    items: &[RawItem],
    first: Option<Broken>,
) -> Result<Option<Broken>, AllocError>
    ensures { IfOk result
        (λ found. told found ≡ items_first (names_of lets.now) (told first) (raw_items_of items.now)) }
{
    let mut found = first;
    for item in items {
        found = earlier(found, item_first(alloc, lets, item)?);
    }
    Ok(found)
}

fn item_first(
    alloc: Global,
    lets: &NameTable<'_>,
    item: &RawItem,
) -> Result<Option<Broken>, AllocError>
    ensures { IfOk result (λ found. told found ≡ item_first (names_of lets.now) (raw_item_of item.now)) }
{
    match item {
        RawItem::Import { spec: _, names: _ } => Ok(None),
        RawItem::Declare {
            exported: _,
            mutable: _,
            name: _,
            value,
        } => Ok(expr_first(&Within::Outside, value)),
        RawItem::Act(stmt) => Ok(stmt_first(lets, &Within::Outside, stmt)),
        RawItem::Own(None) => Ok(None),
        RawItem::Own(Some(once)) => accept_once_first(alloc, lets, once),
        RawItem::Deps {
            list: _,
            specs: _,
            call: None,
        } => Ok(None),
        RawItem::Deps {
            list: _,
            specs: _,
            call: Some(code),
        } => accept_handler_first(alloc, lets, code),
        RawItem::On { event, call } => listener_first(alloc, lets, event, call),
        RawItem::Dispose(once) => once_first(alloc, lets, once),
        RawItem::Prune(once) => once_first(alloc, lets, once),
        RawItem::Decline => Ok(None),
    }
}

fn accept_once_first(
    alloc: Global,
    lets: &NameTable<'_>,
    once: &RawOnce,
) -> Result<Option<Broken>, AllocError>
    ensures { IfOk result
        (λ found. told found ≡ accept_once_first (names_of lets.now) (raw_once_of once.now)) }
{
    match once {
        RawOnce::Code(code) => accept_handler_first(alloc, lets, code),
        RawOnce::Host(_) => Ok(None),
    }
}

fn once_first(
    alloc: Global,
    lets: &NameTable<'_>,
    once: &RawOnce,
) -> Result<Option<Broken>, AllocError>
    ensures { IfOk result (λ found. told found ≡ once_first (names_of lets.now) (raw_once_of once.now)) }
{
    match once {
        RawOnce::Code(code) => once_handler_first(alloc, lets, code),
        RawOnce::Host(_) => Ok(None),
    }
}

fn accept_handler_first(
    alloc: Global,
    lets: &NameTable<'_>,
    code: &RawHandler,
) -> Result<Option<Broken>, AllocError>
    ensures { IfOk result
        (λ found. told found ≡ accept_handler_first (names_of lets.now) (raw_handler_of code.now)) }
{
    let params = NameTable::new(alloc, &code.params)?;
    let body = stmts_first(lets, &Within::Accept(&params), &code.body);
    Ok(earlier(repeated(&params), body))
}

/// A callback of an event is one of `accept`; last, what it listens to is the name of an event.
fn listener_first(
    alloc: Global,
    lets: &NameTable<'_>,
    event: &NameAt,
    call: &RawHandler,
) -> Result<Option<Broken>, AllocError>
    ensures { IfOk result
        (λ found. told found
        ≡ listener_first (names_of lets.now) (name_at_of event.now) (raw_handler_of call.now)) }
{
    let found = accept_handler_first(alloc, lets, call)?;
    let named = is_event(event.name.as_str().as_bytes());
    Ok(earlier(found, first_if(!named, NameRule::Unexpected, event.at)))
}

fn once_handler_first(
    alloc: Global,
    lets: &NameTable<'_>,
    code: &RawHandler,
) -> Result<Option<Broken>, AllocError>
    ensures { IfOk result
        (λ found. told found ≡ once_handler_first (names_of lets.now) (raw_handler_of code.now)) }
{
    let params = NameTable::new(alloc, &code.params)?;
    let body = stmts_first(lets, &Within::Once(&params), &code.body);
    Ok(earlier(repeated(&params), body))
}

#[cycle(stmts)]
fn stmts_first(lets: &NameTable<'_>, within: &Within<'_>, stmts: &[RawStmt]) -> Option<Broken>
    ensures { told result
        ≡ stmts_first (names_of lets.now) (within_of within.now) None (raw_stmts_of stmts.now) }
{
    let mut found = None;
    for stmt in stmts {
        found = earlier(found, stmt_first(lets, within, stmt));
    }
    found
}

#[cycle(stmts)]
fn stmt_first(lets: &NameTable<'_>, within: &Within<'_>, stmt: &RawStmt) -> Option<Broken>
    ensures { told result ≡ stmt_first (names_of lets.now) (within_of within.now) (raw_stmt_of stmt.now) }
{
    match stmt {
        RawStmt::Log(es) => exprs_first(within, es),
        RawStmt::Assign(name, e) => earlier(assigned(lets, within, name), expr_first(within, e)),
        RawStmt::Set(name, _, e) => earlier(
            first_if(!is_bag(within, &name.name), NameRule::Unexpected, name.at),
            expr_first(within, e),
        ),
        RawStmt::SetBag(_, e) => expr_first(within, e),
        RawStmt::Throw(e) => expr_first(within, e),
        RawStmt::Invalidate(at, e) => earlier(
            first_if(!accepts(within), NameRule::Unexpected, *at),
            maybe_first(within, e),
        ),
        RawStmt::Branch(condition, first, second) => earlier(
            cond_first(within, condition),
            earlier(
                stmts_first(lets, within, first),
                stmts_first(lets, within, second),
            ),
        ),
    }
}

/// An assignment names a `let` of the module that no parameter of the callback hides.
fn assigned(lets: &NameTable<'_>, within: &Within<'_>, name: &NameAt) -> Option<Broken>
    ensures { told result ≡ assign_first (names_of lets.now) (within_of within.now) (name_at_of name.now) }
{
    let hidden = is_param(within, &name.name);
    let declared = lets.has(&name.name);
    first_if(hidden || !declared, NameRule::NotAssignable, name.at)
}

/// The condition of an `if` may be a parameter of a callback of `accept`.
fn cond_first(within: &Within<'_>, e: &RawExpr) -> Option<Broken>
    ensures { told result ≡ cond_first (within_of within.now) (raw_expr_of e.now) }
{
    match alone(e) {
        Some(name) => {
            if accepts(within) {
                return None;
            }
            first_if(is_param(within, &name.name), NameRule::Unexpected, name.at)
        }
        None => expr_first(within, e),
    }
}

fn maybe_first(within: &Within<'_>, e: &Option<RawExpr>) -> Option<Broken>
    ensures { told result ≡ maybe_first (within_of within.now) (option_map raw_expr_of e.now) }
{
    match e {
        None => None,
        Some(e) => expr_first(within, e),
    }
}

fn exprs_first(within: &Within<'_>, es: &[RawExpr]) -> Option<Broken>
    ensures { told result ≡ exprs_first (within_of within.now) None (map raw_expr_of es.now) }
{
    let mut found = None;
    for e in es {
        found = earlier(found, expr_first(within, e));
    }
    found
}

#[cycle(exprs)]
fn expr_first(within: &Within<'_>, e: &RawExpr) -> Option<Broken>
    ensures { told result ≡ expr_first (within_of within.now) (raw_expr_of e.now) }
{
    match e {
        RawExpr::Num(_) | RawExpr::Text(_) | RawExpr::Undefined | RawExpr::Bag(_) => None,
        RawExpr::Name(name) => {
            first_if(is_param(within, &name.name), NameRule::Unexpected, name.at)
        }
        RawExpr::Member {
            base,
            safe: _,
            key: _,
        } => { first_if(!is_param(within, &base.name), NameRule::Unexpected, base.at) }
        RawExpr::Neg(a) => expr_first(within, a),
        RawExpr::Row(first, rest) => row_first(within, rest, expr_first(within, first)),
        RawExpr::Choose(condition, first, second) => earlier(
            expr_first(within, condition),
            earlier(expr_first(within, first), expr_first(within, second)),
        ),
    }
}

/// What stands behind the first operand of a row.
#[cycle(exprs)]
fn row_first(within: &Within<'_>, rest: &[(Op, RawExpr)], first: Option<Broken>) -> Option<Broken>
    ensures { told result ≡ rowed_first (within_of within.now) (told first) (map operation_of rest.now) }
{
    let mut found = first;
    for (_op, right) in rest {
        found = earlier(found, expr_first(within, right));
    }
    found
}

/// Whether a name is a parameter of the callback.
fn is_param(within: &Within<'_>, name: &Name) -> bool
    ensures { result ≡ is_param (within_of within.now) name.now }
{
    match within {
        Within::Outside => false,
        Within::Once(params) | Within::Accept(params) => params.has(name),
    }
}

/// Whether a name is a parameter of a callback of `dispose` or `prune`.
fn is_bag(within: &Within<'_>, name: &Name) -> bool
    ensures { result ≡ is_bag (within_of within.now) name.now }
{
    match within {
        Within::Once(params) => params.has(name),
        Within::Outside | Within::Accept(_) => false,
    }
}

/// Whether it stands in a callback of `accept`.
fn accepts(within: &Within<'_>) -> bool
    ensures { result ≡ accepts (within_of within.now) }
{
    matches!(within, Within::Accept(_))
}
