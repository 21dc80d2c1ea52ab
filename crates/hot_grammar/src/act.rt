// Statements without a block: those that begin with a name, `throw`, and what is said of
// `import.meta.hot` in a callback.
ghost use Rattle.std.specs.Prelude.{◌≡◌, ◌∷◌, [], map};
ghost use Rattle.std.specs.Option.{option_map};
ghost use Rattle.module_semantics.specs.Kinds.{COMMA};
ghost use Rattle.module_semantics.specs.Readers.{mark, separated, ◌▷◌};
ghost use Rattle.module_semantics.specs.Reading.{bag_act, console_act, expr_firsts, import_stmt};
ghost use Rattle.module_semantics.specs.Reading.{inner, name_act, other_act, thrown, told};
ghost use Rattle.hot_grammar.specs.Parts.{keyed, logged};
ghost use Rattle.raw_trees.specs.Raw.{raw_expr_of, raw_stmt_of};
ghost use Rattle.hot_grammar.specs.Reads.{Gives};

use crate::GrammarFault;
use crate::expression::read_expr;
use crate::hot::pass_hot;
use crate::kinds::{ALL_NAMES, BUT_CONSOLE, EXPR_FIRSTS};
use crate::tokens::Tokens;
use hmr_types::Name;
use raw_trees::{RawExpr, RawStmt};
use std::alloc::Global;
use token_kinds::Kind;

/// An expression that stands in a statement.
pub(crate) fn read_value(
    alloc: Global,
    tokens: &mut Tokens<'_>,
    depth: u32,
) -> Result<RawExpr, GrammarFault>
    ensures { Gives (λ e. (raw_expr_of e, tokens.new)) result ((inner depth).expr tokens.old) }
{
    read_expr(alloc, tokens, depth)
}

/// A comma and a value.
fn read_next_value(
    alloc: Global,
    tokens: &mut Tokens<'_>,
    depth: u32,
) -> Result<RawExpr, GrammarFault>
    ensures { Gives
        (λ e. (raw_expr_of e, tokens.new)) result ((mark COMMA ▷ (inner depth).expr) tokens.old) }
{
    tokens.mark(Kind::Comma)?;
    let value = read_value(alloc, tokens, depth)?;
    Ok(value)
}

/// Values with a comma between each two.
fn read_values(
    alloc: Global,
    tokens: &mut Tokens<'_>,
    depth: u32,
) -> Result<Vec<RawExpr>, GrammarFault>
    ensures { Gives
        (λ es. (map raw_expr_of es.items, tokens.new))
        result (separated expr_firsts (inner depth).expr tokens.old) }
{
    let mut values = Vec::new(alloc);
    if !tokens.next_in(&EXPR_FIRSTS) {
        return Ok(values);
    }
    values.push(read_value(alloc, tokens, depth)?)?;
    for turn in 0..tokens.len() {
        if !tokens.next_is(Kind::Comma) {
            return Ok(values);
        }
        values.push(read_next_value(alloc, tokens, depth)?)?;
    }
    Ok(values)
}

/// After `console`: `.log` and the values of a line, in parentheses.
fn read_logged(
    alloc: Global,
    tokens: &mut Tokens<'_>,
    depth: u32,
) -> Result<Vec<RawExpr>, GrammarFault>
    ensures { Gives
        (λ es. (map raw_expr_of es.items, tokens.new)) result (logged (inner depth).expr tokens.old) }
{
    tokens.mark(Kind::Dot)?;
    tokens.mark(Kind::Log)?;
    tokens.mark(Kind::Open)?;
    let values = read_values(alloc, tokens, depth)?;
    tokens.mark_after(values, Kind::Close)
}

/// A statement that begins with `console`: a line, or a new value for the name.
#[tactic(auto, unfolding(module_semantics::specs::Reading::console_act))]
fn read_console(alloc: Global, tokens: &mut Tokens<'_>, depth: u32) -> Result<RawStmt, GrammarFault>
    ensures { Gives (λ s. (raw_stmt_of s, tokens.new)) result (console_act (inner depth).expr tokens.old) }
{
    let name = tokens.name_at(alloc, &[Kind::Console])?;
    if !tokens.next_is(Kind::Dot) {
        tokens.mark(Kind::Equals)?;
        return Ok(RawStmt::Assign(name, read_value(alloc, tokens, depth)?));
    }
    Ok(RawStmt::Log(read_logged(alloc, tokens, depth)?))
}

/// A dot, a key, and `=` with a value for it.
fn read_keyed(
    alloc: Global,
    tokens: &mut Tokens<'_>,
    depth: u32,
) -> Result<(Name, RawExpr), GrammarFault>
    ensures { Gives
        (λ v. ((v.0, raw_expr_of v.1), tokens.new)) result (keyed (inner depth).expr tokens.old) }
{
    tokens.mark(Kind::Dot)?;
    let key = tokens.name(alloc, &ALL_NAMES)?;
    tokens.mark(Kind::Equals)?;
    let value = read_value(alloc, tokens, depth)?;
    Ok((key, value))
}

/// A statement that begins with another name: a new value for it, or for a key of what it is.
#[tactic(auto, unfolding(module_semantics::specs::Reading::other_act))]
fn read_other(alloc: Global, tokens: &mut Tokens<'_>, depth: u32) -> Result<RawStmt, GrammarFault>
    ensures { Gives (λ s. (raw_stmt_of s, tokens.new)) result (other_act (inner depth).expr tokens.old) }
{
    let name = tokens.name_at(alloc, &BUT_CONSOLE)?;
    if !tokens.next_is(Kind::Dot) {
        tokens.mark(Kind::Equals)?;
        return Ok(RawStmt::Assign(name, read_value(alloc, tokens, depth)?));
    }
    let (key, value) = read_keyed(alloc, tokens, depth)?;
    Ok(RawStmt::Set(name, key, value))
}

/// A statement that begins with a name.
#[tactic(auto, unfolding(module_semantics::specs::Reading::name_act))]
pub(crate) fn read_name_act(
    alloc: Global,
    tokens: &mut Tokens<'_>,
    depth: u32,
) -> Result<RawStmt, GrammarFault>
    ensures { Gives (λ s. (raw_stmt_of s, tokens.new)) result (name_act (inner depth).expr tokens.old) }
{
    if tokens.next_is(Kind::Console) {
        read_console(alloc, tokens, depth)
    } else {
        read_other(alloc, tokens, depth)
    }
}

/// After `import.meta.hot.`: a new value for a key of the bag.
#[tactic(auto, unfolding(module_semantics::specs::Reading::bag_act))]
pub(crate) fn read_bag_set(
    alloc: Global,
    tokens: &mut Tokens<'_>,
    depth: u32,
) -> Result<RawStmt, GrammarFault>
    ensures { Gives (λ s. (raw_stmt_of s, tokens.new)) result (bag_act (inner depth).expr tokens.old) }
{
    tokens.mark(Kind::Data)?;
    let (key, value) = read_keyed(alloc, tokens, depth)?;
    Ok(RawStmt::SetBag(key, value))
}

/// `throw` and what is thrown. `new` directly before `Error` is always the form with an error.
#[tactic(auto, unfolding(module_semantics::specs::Reading::thrown))]
pub(crate) fn read_thrown(
    alloc: Global,
    tokens: &mut Tokens<'_>,
    depth: u32,
) -> Result<RawExpr, GrammarFault>
    ensures { Gives (λ e. (raw_expr_of e, tokens.new)) result (thrown (inner depth).expr tokens.old) }
{
    tokens.mark(Kind::Throw)?;
    if !tokens.next_two(Kind::New, Kind::Error) {
        let value = read_value(alloc, tokens, depth)?;
        return Ok(value);
    }
    tokens.mark(Kind::New)?;
    tokens.mark(Kind::Error)?;
    tokens.mark(Kind::Open)?;
    let value = read_value(alloc, tokens, depth)?;
    tokens.mark_after(value, Kind::Close)
}

/// After `import.meta.hot.`: `invalidate`, and perhaps its message.
#[tactic(auto, unfolding(module_semantics::specs::Reading::told))]
fn read_told(
    alloc: Global,
    tokens: &mut Tokens<'_>,
    depth: u32,
) -> Result<Option<RawExpr>, GrammarFault>
    ensures { Gives
        (λ e. (option_map raw_expr_of e, tokens.new)) result (told (inner depth).expr tokens.old) }
{
    tokens.mark(Kind::Invalidate)?;
    tokens.mark(Kind::Open)?;
    if !tokens.next_in(&EXPR_FIRSTS) {
        tokens.mark(Kind::Close)?;
        return Ok(None);
    }
    let message = read_value(alloc, tokens, depth)?;
    tokens.mark_after(Some(message), Kind::Close)
}

/// In a callback: a statement that begins with `import`.
#[tactic(auto, unfolding(module_semantics::specs::Reading::import_stmt))]
pub(crate) fn read_import_act(
    alloc: Global,
    tokens: &mut Tokens<'_>,
    depth: u32,
) -> Result<RawStmt, GrammarFault>
    ensures { Gives (λ s. (raw_stmt_of s, tokens.new)) result (import_stmt (inner depth).expr tokens.old) }
{
    let at = tokens.place(Kind::Import)?;
    pass_hot(tokens)?;
    if tokens.next_is(Kind::Data) {
        let act = read_bag_set(alloc, tokens, depth)?;
        return Ok(act);
    }
    let message = read_told(alloc, tokens, depth)?;
    Ok(RawStmt::Invalidate(at, message))
}
