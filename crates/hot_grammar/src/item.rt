// Items: declarations, statements at the top, and guards, whose items stand in their place.
ghost use Rattle.std.specs.Prelude.{◌≡◌, ◌∷◌, [], IfOk};
ghost use Rattle.module_semantics.specs.Readers.{many};
ghost use Rattle.module_semantics.specs.Reading.{declaration, guard, inner, item};
ghost use Rattle.module_semantics.specs.Reading.{plain_top, top, top_firsts};
ghost use Rattle.hot_grammar.specs.Items.{declared};
ghost use Rattle.hot_grammar.specs.Parts.{named_value};
ghost use Rattle.raw_trees.specs.Raw.{name_at_of, raw_expr_of, raw_item_of, raw_items_of};
ghost use Rattle.hot_grammar.specs.Reads.{Gives};

use crate::GrammarFault;
use crate::act::{read_name_act, read_thrown, read_value};
use crate::hot_call::read_hot_top;
use crate::import::read_import;
use crate::kinds::{FREE_NAMES, TOP_FIRSTS};
use crate::tokens::Tokens;
use raw_trees::{NameAt, RawExpr, RawItem, RawStmt};
use std::alloc::{AllocError, Global};
use token_kinds::Kind;

/// A declaration, of which isn't told yet whether it is exported.
#[derive(Drop)]
struct Declaration {
    mutable: bool,
    name: NameAt,
    value: RawExpr,
}

/// A statement at the top that begins with a name or `throw`.
#[tactic(auto, unfolding(module_semantics::specs::Reading::plain_top))]
fn read_plain_top(
    alloc: Global,
    tokens: &mut Tokens<'_>,
    depth: u32,
) -> Result<RawItem, GrammarFault>
    ensures { Gives (λ i. (raw_item_of i, tokens.new)) result (plain_top (inner depth) tokens.old) }
{
    if tokens.next_is(Kind::Throw) {
        let thrown = read_thrown(alloc, tokens, depth)?;
        return tokens.end_after(RawItem::Act(RawStmt::Throw(thrown)));
    }
    let act = read_name_act(alloc, tokens, depth)?;
    tokens.end_after(RawItem::Act(act))
}

/// A statement or a call at the top.
#[tactic(auto, unfolding(module_semantics::specs::Reading::top))]
fn read_top(alloc: Global, tokens: &mut Tokens<'_>, depth: u32) -> Result<RawItem, GrammarFault>
    ensures { Gives (λ i. (raw_item_of i, tokens.new)) result (top (inner depth) tokens.old) }
{
    if !tokens.next_is(Kind::Import) {
        return read_plain_top(alloc, tokens, depth);
    }
    tokens.mark(Kind::Import)?;
    let item = read_hot_top(alloc, tokens, depth)?;
    Ok(item)
}

/// The statements that a guard has.
fn read_tops(
    alloc: Global,
    tokens: &mut Tokens<'_>,
    depth: u32,
) -> Result<Vec<RawItem>, GrammarFault>
    ensures { Gives
        (λ is. (raw_items_of is.items, tokens.new)) result (many top_firsts (top (inner depth)) tokens.old) }
{
    let mut items = Vec::new(alloc);
    for turn in 0..tokens.len() {
        if !tokens.next_in(&TOP_FIRSTS) {
            return Ok(items);
        }
        items.push(read_top(alloc, tokens, depth)?)?;
    }
    Ok(items)
}

/// `if (import.meta.hot)` and the statements that it guards.
#[tactic(auto, unfolding(module_semantics::specs::Reading::guard))]
fn read_guard(
    alloc: Global,
    tokens: &mut Tokens<'_>,
    depth: u32,
) -> Result<Vec<RawItem>, GrammarFault>
    ensures { Gives (λ is. (raw_items_of is.items, tokens.new)) result (guard (inner depth) tokens.old) }
{
    tokens.mark(Kind::If)?;
    tokens.mark(Kind::Open)?;
    tokens.mark(Kind::Import)?;
    tokens.mark(Kind::Dot)?;
    tokens.mark(Kind::Meta)?;
    tokens.mark(Kind::Dot)?;
    tokens.mark(Kind::Hot)?;
    tokens.mark(Kind::Close)?;
    tokens.mark(Kind::OpenBrace)?;
    let items = read_tops(alloc, tokens, depth)?;
    tokens.mark_after(items, Kind::CloseBrace)
}

/// The name that is declared, its value, and the end.
fn read_named_value(
    alloc: Global,
    tokens: &mut Tokens<'_>,
    depth: u32,
) -> Result<(NameAt, RawExpr), GrammarFault>
    ensures { Gives
        (λ v. ((name_at_of v.0, raw_expr_of v.1), tokens.new))
        result (named_value (inner depth).expr tokens.old) }
{
    let name = tokens.name_at(alloc, &FREE_NAMES)?;
    tokens.mark(Kind::Equals)?;
    let value = read_value(alloc, tokens, depth)?;
    tokens.end_after((name, value))
}

/// A declaration, without its `export`.
#[tactic(auto, unfolding(module_semantics::specs::Reading::declaration))]
fn read_declaration(
    alloc: Global,
    tokens: &mut Tokens<'_>,
    depth: u32,
) -> Result<Declaration, GrammarFault>
    ensures { Gives (λ d. (declared d, tokens.new)) result (declaration (inner depth).expr tokens.old) }
{
    if tokens.next_is(Kind::Const) {
        tokens.mark(Kind::Const)?;
        let (name, value) = read_named_value(alloc, tokens, depth)?;
        return Ok(Declaration {
            mutable: false,
            name,
            value,
        });
    }
    tokens.mark(Kind::Let)?;
    let (name, value) = read_named_value(alloc, tokens, depth)?;
    Ok(Declaration {
        mutable: true,
        name,
        value,
    })
}

/// A declaration as the only item.
fn one_declared(
    alloc: Global,
    exported: bool,
    declaration: Declaration,
) -> Result<Vec<RawItem>, AllocError>
    ensures { IfOk result (λ is. raw_items_of is.items ≡ declared declaration exported ∷ []) }
{
    one(
        alloc,
        RawItem::Declare {
            exported,
            mutable: declaration.mutable,
            name: declaration.name,
            value: declaration.value,
        },
    )
}

/// An item as the only one.
fn one(alloc: Global, item: RawItem) -> Result<Vec<RawItem>, AllocError>
    ensures { IfOk result (λ is. raw_items_of is.items ≡ raw_item_of item ∷ []) }
{
    let mut items = Vec::new(alloc);
    items.push(item)?;
    Ok(items)
}

/// An item, or the items of a guard.
#[tactic(auto, unfolding(module_semantics::specs::Reading::item))]
pub(crate) fn read_item(
    alloc: Global,
    tokens: &mut Tokens<'_>,
    depth: u32,
) -> Result<Vec<RawItem>, GrammarFault>
    ensures { Gives (λ is. (raw_items_of is.items, tokens.new)) result (item (inner depth) tokens.old) }
{
    if tokens.next_is(Kind::Import) {
        tokens.mark(Kind::Import)?;
        let item = read_import(alloc, tokens, depth)?;
        return Ok(one(alloc, item)?);
    }
    if tokens.next_is(Kind::Export) {
        tokens.mark(Kind::Export)?;
        let declaration = read_declaration(alloc, tokens, depth)?;
        return Ok(one_declared(alloc, true, declaration)?);
    }
    if tokens.next_in(&[Kind::Const, Kind::Let]) {
        let declaration = read_declaration(alloc, tokens, depth)?;
        return Ok(one_declared(alloc, false, declaration)?);
    }
    if tokens.next_is(Kind::If) {
        return read_guard(alloc, tokens, depth);
    }
    let item = read_plain_top(alloc, tokens, depth)?;
    Ok(one(alloc, item)?)
}
