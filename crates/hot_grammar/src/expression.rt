// Expressions, by recursive descent. What stands inside something else is read one level less deep, so
// the recursion ends with the depth; a row of operators of one strength is read by a loop, in which each
// turn takes a token or more.
ghost use Rattle.std.specs.Prelude.{◌≡◌, ◌∷◌, [], IfOk, map};
ghost use Rattle.module_semantics.specs.Kinds.{DATA, DOT, IMPORT};
ghost use Rattle.module_semantics.specs.Readers.{many, mapped, mark, ◌&◌, ◌▷◌};
ghost use Rattle.module_semantics.specs.Reading.{access, accessed, expr, free_name};
ghost use Rattle.module_semantics.specs.Reading.{grouped, hot, key, prim, unary};
ghost use Rattle.hot_grammar.specs.Levels.{operand_at, operation_at, operators_at, row_at};
ghost use Rattle.raw_trees.specs.Raw.{operation_of, raw_expr_of};
ghost use Rattle.hot_grammar.specs.Reads.{Gives};

use crate::GrammarFault;
use crate::hot::pass_hot;
use crate::kinds::{ALL_NAMES, EXPR_FIRSTS, FREE_NAMES};
use crate::level::Level;
use crate::tokens::Tokens;
use hmr_types::Name;
use module_tree::Op;
use raw_trees::RawExpr;
use std::alloc::{AllocError, Global};
use token_kinds::Kind;

/// An expression in which at most `depth` others stand in one another.
#[cycle(expressions)]
#[tactic(auto, unfolding(module_semantics::specs::Reading::expr, module_semantics::specs::Reading::expr_over))]
pub(crate) fn read_expr(
    alloc: Global,
    tokens: &mut Tokens<'_>,
    depth: u32,
) -> Result<RawExpr, GrammarFault>
    ensures { Gives (λ e. (raw_expr_of e, tokens.new)) result (expr depth tokens.old) }
{
    if depth == 0 {
        return Err(tokens.deep(&EXPR_FIRSTS));
    }
    let condition = read_row(alloc, tokens, depth - 1, Level::Null)?;
    if !tokens.next_is(Kind::Question) {
        return Ok(condition);
    }
    let condition = Box::new(alloc, condition)?;
    tokens.mark(Kind::Question)?;
    let first = Box::new(alloc, read_expr(alloc, tokens, depth - 1)?)?;
    tokens.mark(Kind::Colon)?;
    let second = Box::new(alloc, read_expr(alloc, tokens, depth - 1)?)?;
    Ok(RawExpr::Choose(condition, first, second))
}

/// One operand or more, with operators of one strength between.
#[cycle(expressions)]
fn read_row(
    alloc: Global,
    tokens: &mut Tokens<'_>,
    depth: u32,
    level: Level,
) -> Result<RawExpr, GrammarFault>
    ensures { Gives (λ e. (raw_expr_of e, tokens.new)) result (row_at level (expr depth) tokens.old) }
{
    let first = read_operand(alloc, tokens, depth, level)?;
    let rest = read_operations(alloc, tokens, depth, level)?;
    Ok(row(alloc, first, rest)?)
}

/// The operators of a row, each with the operand at its right.
#[cycle(expressions)]
fn read_operations(
    alloc: Global,
    tokens: &mut Tokens<'_>,
    depth: u32,
    level: Level,
) -> Result<Vec<(Op, RawExpr)>, GrammarFault>
    ensures { Gives
        (λ rest. (map operation_of rest.items, tokens.new))
        result (many (operators_at level) (operation_at level (expr depth)) tokens.old) }
{
    let mut rest = Vec::new(alloc);
    for turn in 0..tokens.len() {
        if !level.is_next(tokens) {
            return Ok(rest);
        }
        rest.push(read_operation(alloc, tokens, depth, level)?)?;
    }
    Ok(rest)
}

/// An operator with the operand at its right.
#[cycle(expressions)]
fn read_operation(
    alloc: Global,
    tokens: &mut Tokens<'_>,
    depth: u32,
    level: Level,
) -> Result<(Op, RawExpr), GrammarFault>
    ensures { Gives (λ b. (operation_of b, tokens.new)) result (operation_at level (expr depth) tokens.old) }
{
    match level {
        Level::Null => {
            tokens.mark(Kind::Nullish)?;
            Ok((Op::Null, read_operand(alloc, tokens, depth, level)?))
        }
        Level::Sum => {
            if tokens.next_is(Kind::Plus) {
                tokens.mark(Kind::Plus)?;
                return Ok((Op::Add, read_operand(alloc, tokens, depth, level)?));
            }
            tokens.mark(Kind::Minus)?;
            Ok((Op::Sub, read_operand(alloc, tokens, depth, level)?))
        }
        Level::Product => {
            tokens.mark(Kind::Times)?;
            Ok((Op::Mul, read_operand(alloc, tokens, depth, level)?))
        }
    }
}

/// An operand of a row: a row of the next closer strength, or what has perhaps a minus.
#[cycle(expressions)]
fn read_operand(
    alloc: Global,
    tokens: &mut Tokens<'_>,
    depth: u32,
    level: Level,
) -> Result<RawExpr, GrammarFault>
    ensures { Gives (λ e. (raw_expr_of e, tokens.new)) result (operand_at level (expr depth) tokens.old) }
{
    match level {
        Level::Null => read_row(alloc, tokens, depth, Level::Sum),
        Level::Sum => read_row(alloc, tokens, depth, Level::Product),
        Level::Product => read_unary(alloc, tokens, depth),
    }
}

/// Perhaps a minus, and what it stands before.
#[cycle(expressions)]
#[tactic(auto, unfolding(module_semantics::specs::Reading::unary))]
fn read_unary(alloc: Global, tokens: &mut Tokens<'_>, depth: u32) -> Result<RawExpr, GrammarFault>
    ensures { Gives (λ e. (raw_expr_of e, tokens.new)) result (unary (expr depth) tokens.old) }
{
    if !tokens.next_is(Kind::Minus) {
        return read_prim(alloc, tokens, depth);
    }
    tokens.mark(Kind::Minus)?;
    let value = read_prim(alloc, tokens, depth)?;
    Ok(RawExpr::Neg(Box::new(alloc, value)?))
}

/// A number, a text, `undefined`, a key of the bag, an expression in parentheses, or a name that is read.
#[cycle(expressions)]
#[tactic(auto, unfolding(module_semantics::specs::Reading::prim))]
fn read_prim(alloc: Global, tokens: &mut Tokens<'_>, depth: u32) -> Result<RawExpr, GrammarFault>
    ensures { Gives (λ e. (raw_expr_of e, tokens.new)) result (prim (expr depth) tokens.old) }
{
    if tokens.next_is(Kind::Number) {
        return Ok(RawExpr::Num(tokens.number()?));
    }
    if tokens.next_is(Kind::Text) {
        return Ok(RawExpr::Text(tokens.text(alloc)?));
    }
    if tokens.next_is(Kind::Undefined) {
        tokens.mark(Kind::Undefined)?;
        return Ok(RawExpr::Undefined);
    }
    if tokens.next_is(Kind::Import) {
        return Ok(RawExpr::Bag(read_bag_key(alloc, tokens)?));
    }
    if !tokens.next_is(Kind::Open) {
        return read_access(alloc, tokens);
    }
    tokens.mark(Kind::Open)?;
    let inner = read_expr(alloc, tokens, depth)?;
    tokens.mark_after(inner, Kind::Close)
}

/// An operand and what follows it in its row.
fn row(alloc: Global, first: RawExpr, rest: Vec<(Op, RawExpr)>) -> Result<RawExpr, AllocError>
    ensures { IfOk result (λ e. raw_expr_of e ≡ grouped (raw_expr_of first) (map operation_of rest.items)) }
{
    if rest.is_empty() {
        return Ok(first);
    }
    Ok(RawExpr::Row(Box::new(alloc, first)?, rest))
}

/// A key of the bag, from `import` on.
fn read_bag_key(alloc: Global, tokens: &mut Tokens<'_>) -> Result<Name, GrammarFault>
    ensures { Gives
        (λ k. (k, tokens.new)) result ((mark IMPORT ▷ hot (mark DATA ▷ mark DOT ▷ key)) tokens.old) }
{
    tokens.mark(Kind::Import)?;
    pass_hot(tokens)?;
    tokens.mark(Kind::Data)?;
    tokens.mark(Kind::Dot)?;
    tokens.name(alloc, &ALL_NAMES)
}

/// A name that is read, or a key of it.
#[tactic(auto, unfolding(module_semantics::specs::Reading::access))]
fn read_access(alloc: Global, tokens: &mut Tokens<'_>) -> Result<RawExpr, GrammarFault>
    ensures { Gives
        (λ e. (raw_expr_of e, tokens.new)) result (mapped accessed (free_name & access) tokens.old) }
{
    let base = tokens.name_at(alloc, &FREE_NAMES)?;
    if tokens.next_is(Kind::Dot) {
        tokens.mark(Kind::Dot)?;
        let key = tokens.name(alloc, &ALL_NAMES)?;
        return Ok(RawExpr::Member {
            base,
            safe: false,
            key,
        });
    }
    if tokens.next_is(Kind::SafeDot) {
        tokens.mark(Kind::SafeDot)?;
        let key = tokens.name(alloc, &ALL_NAMES)?;
        return Ok(RawExpr::Member {
            base,
            safe: true,
            key,
        });
    }
    Ok(RawExpr::Name(base))
}
