// Callbacks, with their parameters, and host closures.
ghost use Rattle.std.specs.Prelude.{◌≡◌, map};
ghost use Rattle.module_semantics.specs.Kinds.{ARROW, COMMA, free_names};
ghost use Rattle.module_semantics.specs.Readers.{mark, separated, ◌▷◌};
ghost use Rattle.module_semantics.specs.Reading.{body, callback, callback_by, free_name, host_own};
ghost use Rattle.module_semantics.specs.Reading.{in_parens, inner, list_callback, once};
ghost use Rattle.token_kinds.specs.Kinds.{code_of};
ghost use Rattle.hot_grammar.specs.Parts.{list_params, own_code};
ghost use Rattle.raw_trees.specs.Raw.{name_at_of, raw_handler_of, raw_once_of, raw_stmts_of};
ghost use Rattle.hot_grammar.specs.Reads.{Gives};

use crate::GrammarFault;
use crate::block::read_body;
use crate::kinds::{BUT_HOST, FREE_NAMES};
use crate::tokens::Tokens;
use raw_trees::{NameAt, RawHandler, RawOnce, RawStmt};
use std::alloc::Global;
use token_kinds::Kind;

/// Perhaps a parameter, in parentheses.
#[tactic(auto, unfolding(module_semantics::specs::Reading::in_parens))]
fn read_parens(alloc: Global, tokens: &mut Tokens<'_>) -> Result<Vec<NameAt>, GrammarFault>
    ensures { Gives (λ ns. (map name_at_of ns.items, tokens.new)) result (in_parens tokens.old) }
{
    let mut params = Vec::new(alloc);
    tokens.mark(Kind::Open)?;
    if !tokens.next_in(&FREE_NAMES) {
        tokens.mark(Kind::Close)?;
        return Ok(params);
    }
    params.push(tokens.name_at(alloc, &FREE_NAMES)?)?;
    tokens.mark(Kind::Close)?;
    Ok(params)
}

/// An arrow, and the body of a callback.
fn read_arrow_body(
    alloc: Global,
    tokens: &mut Tokens<'_>,
    depth: u32,
) -> Result<Vec<RawStmt>, GrammarFault>
    ensures { Gives
        (λ ss. (raw_stmts_of ss.items, tokens.new)) result ((mark ARROW ▷ body (inner depth)) tokens.old) }
{
    tokens.mark(Kind::Arrow)?;
    let body = read_body(alloc, tokens, depth)?;
    Ok(body)
}

/// A callback whose parameter, where it stands alone, is of one of these kinds.
fn read_callback_by(
    alloc: Global,
    tokens: &mut Tokens<'_>,
    depth: u32,
    kinds: &[Kind],
) -> Result<RawHandler, GrammarFault>
    ensures { Gives
        (λ h. (raw_handler_of h, tokens.new))
        result (callback_by (map code_of kinds.now) (body (inner depth)) tokens.old) }
{
    if tokens.next_is(Kind::Open) {
        let params = read_parens(alloc, tokens)?;
        let body = read_arrow_body(alloc, tokens, depth)?;
        return Ok(RawHandler { params, body });
    }
    let mut params = Vec::new(alloc);
    params.push(tokens.name_at(alloc, kinds)?)?;
    let body = read_arrow_body(alloc, tokens, depth)?;
    Ok(RawHandler { params, body })
}

/// A callback of one dependency.
#[tactic(auto, unfolding(module_semantics::specs::Reading::callback))]
pub(crate) fn read_callback(
    alloc: Global,
    tokens: &mut Tokens<'_>,
    depth: u32,
) -> Result<RawHandler, GrammarFault>
    ensures { Gives (λ h. (raw_handler_of h, tokens.new)) result (callback (body (inner depth)) tokens.old) }
{
    read_callback_by(alloc, tokens, depth, &FREE_NAMES)
}

/// After `host`, a callback of which it is the parameter, or the label of a host closure.
#[tactic(auto, unfolding(module_semantics::specs::Reading::host_own))]
fn read_host(alloc: Global, tokens: &mut Tokens<'_>, depth: u32) -> Result<RawOnce, GrammarFault>
    ensures { Gives (λ o. (raw_once_of o, tokens.new)) result (host_own (body (inner depth)) tokens.old) }
{
    let mut params = Vec::new(alloc);
    params.push(tokens.name_at(alloc, &[Kind::Host])?)?;
    if tokens.next_is(Kind::Open) {
        tokens.mark(Kind::Open)?;
        let label = tokens.text(alloc)?;
        return tokens.mark_after(RawOnce::Host(label), Kind::Close);
    }
    let body = read_arrow_body(alloc, tokens, depth)?;
    Ok(RawOnce::Code(RawHandler { params, body }))
}

/// A callback of the module itself, whose parameter isn't `host` alone.
fn read_own_code(
    alloc: Global,
    tokens: &mut Tokens<'_>,
    depth: u32,
) -> Result<RawOnce, GrammarFault>
    ensures { Gives (λ o. (raw_once_of o, tokens.new)) result (own_code (body (inner depth)) tokens.old) }
{
    let handler = read_callback_by(alloc, tokens, depth, &BUT_HOST)?;
    Ok(RawOnce::Code(handler))
}

/// A callback of the module itself, or a host closure.
#[tactic(auto, unfolding(module_semantics::specs::Reading::once))]
pub(crate) fn read_once(
    alloc: Global,
    tokens: &mut Tokens<'_>,
    depth: u32,
) -> Result<RawOnce, GrammarFault>
    ensures { Gives (λ o. (raw_once_of o, tokens.new)) result (once (body (inner depth)) tokens.old) }
{
    if tokens.next_is(Kind::Host) {
        return read_host(alloc, tokens, depth);
    }
    read_own_code(alloc, tokens, depth)
}

/// A comma and a name.
fn read_next_name(alloc: Global, tokens: &mut Tokens<'_>) -> Result<NameAt, GrammarFault>
    ensures { Gives (λ n. (name_at_of n, tokens.new)) result ((mark COMMA ▷ free_name) tokens.old) }
{
    tokens.mark(Kind::Comma)?;
    let name = tokens.name_at(alloc, &FREE_NAMES)?;
    Ok(name)
}

/// Names with a comma between each two.
fn read_names(alloc: Global, tokens: &mut Tokens<'_>) -> Result<Vec<NameAt>, GrammarFault>
    ensures { Gives
        (λ ns. (map name_at_of ns.items, tokens.new)) result (separated free_names free_name tokens.old) }
{
    let mut names = Vec::new(alloc);
    if !tokens.next_in(&FREE_NAMES) {
        return Ok(names);
    }
    names.push(tokens.name_at(alloc, &FREE_NAMES)?)?;
    for turn in 0..tokens.len() {
        if !tokens.next_is(Kind::Comma) {
            return Ok(names);
        }
        names.push(read_next_name(alloc, tokens)?)?;
    }
    Ok(names)
}

/// Parameters of a callback of a list: none, or names in brackets, all in parentheses.
fn read_list_params(alloc: Global, tokens: &mut Tokens<'_>) -> Result<Vec<NameAt>, GrammarFault>
    ensures { Gives (λ ns. (map name_at_of ns.items, tokens.new)) result (list_params tokens.old) }
{
    tokens.mark(Kind::Open)?;
    if !tokens.next_is(Kind::OpenBracket) {
        tokens.mark(Kind::Close)?;
        return Ok(Vec::new(alloc));
    }
    tokens.mark(Kind::OpenBracket)?;
    let names = read_names(alloc, tokens)?;
    let names = tokens.mark_after(names, Kind::CloseBracket)?;
    tokens.mark_after(names, Kind::Close)
}

/// A callback of a list of dependencies.
#[tactic(auto, unfolding(module_semantics::specs::Reading::list_callback))]
pub(crate) fn read_list_callback(
    alloc: Global,
    tokens: &mut Tokens<'_>,
    depth: u32,
) -> Result<RawHandler, GrammarFault>
    ensures { Gives
        (λ h. (raw_handler_of h, tokens.new)) result (list_callback (body (inner depth)) tokens.old) }
{
    let params = read_list_params(alloc, tokens)?;
    let body = read_arrow_body(alloc, tokens, depth)?;
    Ok(RawHandler { params, body })
}
