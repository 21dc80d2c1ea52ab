// The calls of `import.meta.hot` at the top of a module: `accept`, `dispose`, `prune`, `on` and `decline`.
ghost use Rattle.std.specs.Prelude.{◌≡◌, ◌∷◌, []};
ghost use Rattle.module_semantics.specs.Kinds.{CLOSE, OPEN, TEXT};
ghost use Rattle.module_semantics.specs.Readers.{listed, mark, ◌▷◌, ◌◁◌};
ghost use Rattle.module_semantics.specs.Reading.{accepted, body, hot_call, hot_top, inner};
ghost use Rattle.module_semantics.specs.Reading.{listened, once, text_token};
ghost use Rattle.token_kinds.specs.Kinds.{code_of};
ghost use Rattle.hot_grammar.specs.Parts.{list_deps, one_dep, told_hot};
ghost use Rattle.raw_trees.specs.Raw.{raw_item_of, raw_once_of};
ghost use Rattle.hot_grammar.specs.Reads.{Gives};

use crate::GrammarFault;
use crate::act::read_bag_set;
use crate::callback::{read_callback, read_list_callback, read_once};
use crate::hot::pass_hot;
use crate::kinds::OWN_FIRSTS;
use crate::tokens::Tokens;
use hmr_types::Text;
use raw_trees::{RawItem, RawOnce};
use std::alloc::Global;
use token_kinds::Kind;

/// What `accept` takes of one dependency, and perhaps its callback.
fn read_one_dep(alloc: Global, tokens: &mut Tokens<'_>, depth: u32) -> Result<RawItem, GrammarFault>
    ensures { Gives (λ i. (raw_item_of i, tokens.new)) result (one_dep (body (inner depth)) tokens.old) }
{
    let mut specs = Vec::new(alloc);
    specs.push(tokens.text(alloc)?)?;
    if !tokens.next_is(Kind::Comma) {
        return Ok(RawItem::Deps {
            list: false,
            specs,
            call: None,
        });
    }
    tokens.mark(Kind::Comma)?;
    let call = read_callback(alloc, tokens, depth)?;
    Ok(RawItem::Deps {
        list: false,
        specs,
        call: Some(call),
    })
}

/// Texts with a comma between each two, and perhaps one after the last.
fn read_texts(alloc: Global, tokens: &mut Tokens<'_>) -> Result<Vec<Text>, GrammarFault>
    ensures { Gives (λ texts. (texts.items, tokens.new)) result (listed (TEXT ∷ []) text_token tokens.old) }
{
    let mut texts = Vec::new(alloc);
    for turn in 0..tokens.len() {
        if !tokens.next_is(Kind::Text) {
            return Ok(texts);
        }
        texts.push(tokens.text(alloc)?)?;
        if !tokens.next_is(Kind::Comma) {
            return Ok(texts);
        }
        tokens.mark(Kind::Comma)?;
    }
    Ok(texts)
}

/// What `accept` takes of a list of dependencies, and perhaps its callback.
fn read_list_deps(
    alloc: Global,
    tokens: &mut Tokens<'_>,
    depth: u32,
) -> Result<RawItem, GrammarFault>
    ensures { Gives (λ i. (raw_item_of i, tokens.new)) result (list_deps (body (inner depth)) tokens.old) }
{
    tokens.mark(Kind::OpenBracket)?;
    let specs = read_texts(alloc, tokens)?;
    tokens.mark(Kind::CloseBracket)?;
    if !tokens.next_is(Kind::Comma) {
        return Ok(RawItem::Deps {
            list: true,
            specs,
            call: None,
        });
    }
    tokens.mark(Kind::Comma)?;
    let call = read_list_callback(alloc, tokens, depth)?;
    Ok(RawItem::Deps {
        list: true,
        specs,
        call: Some(call),
    })
}

/// What `accept` takes.
#[tactic(auto, unfolding(module_semantics::specs::Reading::accepted))]
fn read_accepted(
    alloc: Global,
    tokens: &mut Tokens<'_>,
    depth: u32,
) -> Result<RawItem, GrammarFault>
    ensures { Gives (λ i. (raw_item_of i, tokens.new)) result (accepted (body (inner depth)) tokens.old) }
{
    if tokens.next_is(Kind::Text) {
        return read_one_dep(alloc, tokens, depth);
    }
    if tokens.next_is(Kind::OpenBracket) {
        return read_list_deps(alloc, tokens, depth);
    }
    if tokens.next_in(&OWN_FIRSTS) {
        return Ok(RawItem::Own(Some(read_once(alloc, tokens, depth)?)));
    }
    Ok(RawItem::Own(None))
}

/// `dispose` or `prune`, with its handler in parentheses.
fn read_once_call(
    alloc: Global,
    tokens: &mut Tokens<'_>,
    depth: u32,
    word: Kind,
) -> Result<RawOnce, GrammarFault>
    ensures { Gives
        (λ o. (raw_once_of o, tokens.new))
        result ((mark (code_of word) ▷ mark OPEN ▷ once (body (inner depth)) ◁ mark CLOSE) tokens.old) }
{
    tokens.mark(word)?;
    tokens.mark(Kind::Open)?;
    let once = read_once(alloc, tokens, depth)?;
    tokens.mark_after(once, Kind::Close)
}

/// What `on` takes: the name of an event, and a callback.
fn read_listened(
    alloc: Global,
    tokens: &mut Tokens<'_>,
    depth: u32,
) -> Result<RawItem, GrammarFault>
    ensures { Gives (λ i. (raw_item_of i, tokens.new)) result (listened (body (inner depth)) tokens.old) }
{
    let event = tokens.name_at(alloc, &[Kind::Text])?;
    tokens.mark(Kind::Comma)?;
    let call = read_callback(alloc, tokens, depth)?;
    Ok(RawItem::On { event, call })
}

/// A call of `import.meta.hot`.
#[tactic(auto, unfolding(module_semantics::specs::Reading::hot_call))]
fn read_hot_call(
    alloc: Global,
    tokens: &mut Tokens<'_>,
    depth: u32,
) -> Result<RawItem, GrammarFault>
    ensures { Gives (λ i. (raw_item_of i, tokens.new)) result (hot_call (body (inner depth)) tokens.old) }
{
    if tokens.next_is(Kind::Accept) {
        tokens.mark(Kind::Accept)?;
        tokens.mark(Kind::Open)?;
        let item = read_accepted(alloc, tokens, depth)?;
        return tokens.mark_after(item, Kind::Close);
    }
    if tokens.next_is(Kind::Dispose) {
        let once = read_once_call(alloc, tokens, depth, Kind::Dispose)?;
        return Ok(RawItem::Dispose(once));
    }
    if tokens.next_is(Kind::Prune) {
        let once = read_once_call(alloc, tokens, depth, Kind::Prune)?;
        return Ok(RawItem::Prune(once));
    }
    if tokens.next_is(Kind::On) {
        tokens.mark(Kind::On)?;
        tokens.mark(Kind::Open)?;
        let item = read_listened(alloc, tokens, depth)?;
        return tokens.mark_after(item, Kind::Close);
    }
    tokens.mark(Kind::Decline)?;
    tokens.mark(Kind::Open)?;
    tokens.mark(Kind::Close)?;
    Ok(RawItem::Decline)
}

/// After `import.meta.hot.`: a call, or a new value for a key of the bag.
fn read_told_hot(
    alloc: Global,
    tokens: &mut Tokens<'_>,
    depth: u32,
) -> Result<RawItem, GrammarFault>
    ensures { Gives (λ i. (raw_item_of i, tokens.new)) result (told_hot (inner depth) tokens.old) }
{
    if tokens.next_is(Kind::Data) {
        let act = read_bag_set(alloc, tokens, depth)?;
        return Ok(RawItem::Act(act));
    }
    read_hot_call(alloc, tokens, depth)
}

/// After `import`: a call of `import.meta.hot`, or a new value for a key of the bag.
pub(crate) fn read_hot_top(
    alloc: Global,
    tokens: &mut Tokens<'_>,
    depth: u32,
) -> Result<RawItem, GrammarFault>
    ensures { Gives (λ i. (raw_item_of i, tokens.new)) result (hot_top (inner depth) tokens.old) }
{
    pass_hot(tokens)?;
    let item = read_told_hot(alloc, tokens, depth)?;
    tokens.end_after(item)
}
