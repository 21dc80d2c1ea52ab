// Imports: their names, and what they are of.
ghost use Rattle.std.specs.Prelude.{◌≡◌, map};
ghost use Rattle.module_semantics.specs.Kinds.{AS, FROM, all_names};
ghost use Rattle.module_semantics.specs.Readers.{end, listed, mark, ◌▷◌, ◌◁◌};
ghost use Rattle.module_semantics.specs.Reading.{free_name, import_item, import_name, inner, text_token};
ghost use Rattle.raw_trees.specs.Raw.{name_at_of, raw_import_of, raw_item_of};
ghost use Rattle.hot_grammar.specs.Reads.{Gives};

use crate::GrammarFault;
use crate::hot_call::read_hot_top;
use crate::kinds::{ALL_NAMES, FREE_NAMES, RESERVED};
use crate::tokens::Tokens;
use hmr_types::Text;
use raw_trees::{NameAt, RawImport, RawItem};
use std::alloc::Global;
use token_kinds::Kind;

/// `as` and a local name.
fn read_local_name(alloc: Global, tokens: &mut Tokens<'_>) -> Result<NameAt, GrammarFault>
    ensures { Gives (λ n. (name_at_of n, tokens.new)) result ((mark AS ▷ free_name) tokens.old) }
{
    tokens.mark(Kind::As)?;
    let local = tokens.name_at(alloc, &FREE_NAMES)?;
    Ok(local)
}

/// One name of an import: a reserved word only before `as`.
#[tactic(auto, unfolding(module_semantics::specs::Reading::import_name))]
fn read_import_name(alloc: Global, tokens: &mut Tokens<'_>) -> Result<RawImport, GrammarFault>
    ensures { Gives (λ i. (raw_import_of i, tokens.new)) result (import_name tokens.old) }
{
    if tokens.next_in(&RESERVED) {
        let exported = tokens.name(alloc, &RESERVED)?;
        let local = read_local_name(alloc, tokens)?;
        return Ok(RawImport { exported, local });
    }
    let name = tokens.name_at(alloc, &FREE_NAMES)?;
    if !tokens.next_is(Kind::As) {
        let exported = name.name.clone()?;
        return Ok(RawImport {
            exported,
            local: name,
        });
    }
    let local = read_local_name(alloc, tokens)?;
    Ok(RawImport {
        exported: name.name,
        local,
    })
}

/// Names with a comma between each two, and perhaps one after the last.
fn read_import_names(alloc: Global, tokens: &mut Tokens<'_>) -> Result<Vec<RawImport>, GrammarFault>
    ensures { Gives
        (λ names. (map raw_import_of names.items, tokens.new))
        result (listed all_names import_name tokens.old) }
{
    let mut names = Vec::new(alloc);
    for turn in 0..tokens.len() {
        if !tokens.next_in(&ALL_NAMES) {
            return Ok(names);
        }
        names.push(read_import_name(alloc, tokens)?)?;
        if !tokens.next_is(Kind::Comma) {
            return Ok(names);
        }
        tokens.mark(Kind::Comma)?;
    }
    Ok(names)
}

/// `from`, the text of what is imported, and the end.
fn read_source(alloc: Global, tokens: &mut Tokens<'_>) -> Result<Text, GrammarFault>
    ensures { Gives (λ t. (t, tokens.new)) result ((mark FROM ▷ text_token ◁ end) tokens.old) }
{
    tokens.mark(Kind::From)?;
    let spec = tokens.text(alloc)?;
    tokens.end_after(spec)
}

/// After `import`: a text, names in braces and a text, or what is said of `import.meta.hot`.
#[tactic(auto, unfolding(module_semantics::specs::Reading::import_item))]
pub(crate) fn read_import(
    alloc: Global,
    tokens: &mut Tokens<'_>,
    depth: u32,
) -> Result<RawItem, GrammarFault>
    ensures { Gives (λ i. (raw_item_of i, tokens.new)) result (import_item (inner depth) tokens.old) }
{
    if tokens.next_is(Kind::Text) {
        let spec = tokens.text(alloc)?;
        return tokens.end_after(RawItem::Import {
            spec,
            names: Vec::new(alloc),
        });
    }
    if !tokens.next_is(Kind::OpenBrace) {
        return read_hot_top(alloc, tokens, depth);
    }
    tokens.mark(Kind::OpenBrace)?;
    let names = read_import_names(alloc, tokens)?;
    let names = tokens.mark_after(names, Kind::CloseBrace)?;
    let spec = read_source(alloc, tokens)?;
    Ok(RawItem::Import { spec, names })
}
