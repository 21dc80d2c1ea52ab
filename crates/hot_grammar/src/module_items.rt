// A whole module: items, one after another, up to the end of the tokens.
ghost use Rattle.std.specs.Prelude.{◌≡◌, ◌≤◌, IfErr, length};
ghost use Rattle.hmr_types.specs.declared.limits.TheConstants.{DEPTH};
ghost use Rattle.module_semantics.specs.Readers.{many, mapped};
ghost use Rattle.module_semantics.specs.Reading.{flat, inner, item, item_firsts, module_reader, reading};
ghost use Rattle.raw_trees.specs.Raw.{raw_items_of};
ghost use Rattle.hot_grammar.specs.Reads.{Gives, left_of};

use crate::GrammarFault;
use crate::item::read_item;
use crate::kinds::ITEM_FIRSTS;
use crate::tokens::Tokens;
use hmr_types::limits::DEPTH;
use raw_trees::RawItem;
use std::alloc::Global;
use token_kinds::LineToken;

/// The items that stand from here.
fn read_all(
    alloc: Global,
    tokens: &mut Tokens<'_>,
    depth: u32,
) -> Result<Vec<RawItem>, GrammarFault>
    ensures { Gives
        (λ is. (raw_items_of is.items, tokens.new))
        result (mapped flat (many item_firsts (item (inner depth))) tokens.old) }
{
    let mut items = Vec::new(alloc);
    for turn in 0..tokens.len() {
        if !tokens.next_in(&ITEM_FIRSTS) {
            return Ok(items);
        }
        let mut more = read_item(alloc, tokens, depth)?;
        items.append(&mut more)?;
    }
    Ok(items)
}

/// The items of a whole module.
#[tactic(auto, unfolding(module_semantics::specs::Reading::reading, module_semantics::specs::Reading::module_reader))]
fn read_module(alloc: Global, tokens: &[LineToken<'_>]) -> Result<Vec<RawItem>, GrammarFault>
    ensures { Gives (λ items. raw_items_of items.items) result (reading DEPTH tokens.now) }
{
    let mut left = Tokens::new(tokens);
    let items = read_all(alloc, &mut left, DEPTH)?;
    left.finish()?;
    Ok(items)
}

/// The items of a module, by its tokens, or the first fault.
///
/// `Ok`, [`GrammarFault::Unexpected`] and [`GrammarFault::TooDeep`] come exactly where the definition
/// `reading` gives them. The stack grows with what stands in one another, at most 64 deep, and not with
/// the number of tokens; the time is linear in it, and so is the memory.
pub fn read_items(alloc: Global, tokens: &[LineToken<'_>]) -> Result<Vec<RawItem>, GrammarFault>
    ensures exact { Gives (λ items. raw_items_of items.items) result (reading DEPTH tokens.now) }
    ensures place { IfErr result (λ fault. left_of fault ≤ length tokens.now) }
{
    read_module(alloc, tokens)
}
