// Statements of callbacks and their blocks. A block and an `if` after `else` are read one level less deep
// than what they stand in; the statements of a block are read by a loop.
ghost use Rattle.std.specs.Prelude.{◌≡◌, map};
ghost use Rattle.module_semantics.specs.Readers.{end, many, ◌◁◌};
ghost use Rattle.module_semantics.specs.Reading.{body, braces, else_part, if_stmt, import_stmt};
ghost use Rattle.module_semantics.specs.Reading.{inner, name_act, stmt, stmt_firsts};
ghost use Rattle.hot_grammar.specs.Parts.{branches, ended_act};
ghost use Rattle.raw_trees.specs.Raw.{raw_stmt_of, raw_stmts_of};
ghost use Rattle.hot_grammar.specs.Reads.{Gives};

use crate::GrammarFault;
use crate::act::{read_import_act, read_name_act, read_thrown, read_value};
use crate::kinds::STMT_FIRSTS;
use crate::tokens::Tokens;
use raw_trees::RawStmt;
use std::alloc::Global;
use token_kinds::Kind;

/// A block, in which at most `depth` constructs stand in one another.
#[cycle(blocks)]
#[tactic(auto, unfolding(module_semantics::specs::Reading::inner))]
fn read_block(
    alloc: Global,
    tokens: &mut Tokens<'_>,
    depth: u32,
) -> Result<Vec<RawStmt>, GrammarFault>
    ensures { Gives (λ ss. (raw_stmts_of ss.items, tokens.new)) result ((inner depth).block tokens.old) }
{
    if depth == 0 {
        return Err(tokens.deep(&[Kind::OpenBrace]));
    }
    read_braces(alloc, tokens, depth - 1)
}

/// An `if` after `else`, in which at most `depth` constructs stand in one another.
#[cycle(blocks)]
#[tactic(auto, unfolding(module_semantics::specs::Reading::inner))]
fn read_else_if(alloc: Global, tokens: &mut Tokens<'_>, depth: u32) -> Result<RawStmt, GrammarFault>
    ensures { Gives (λ s. (raw_stmt_of s, tokens.new)) result ((inner depth).else_if tokens.old) }
{
    if depth == 0 {
        return Err(tokens.deep(&[Kind::If]));
    }
    read_if(alloc, tokens, depth - 1)
}

/// `else` and what follows it, where it stands there.
#[cycle(blocks)]
#[tactic(auto, unfolding(module_semantics::specs::Reading::else_part))]
fn read_else(
    alloc: Global,
    tokens: &mut Tokens<'_>,
    depth: u32,
) -> Result<Vec<RawStmt>, GrammarFault>
    ensures { Gives (λ ss. (raw_stmts_of ss.items, tokens.new)) result (else_part (inner depth) tokens.old) }
{
    let mut second = Vec::new(alloc);
    if !tokens.next_is(Kind::Else) {
        return Ok(second);
    }
    tokens.mark(Kind::Else)?;
    if tokens.next_is(Kind::OpenBrace) {
        let block = read_block(alloc, tokens, depth)?;
        return Ok(block);
    }
    second.push(read_else_if(alloc, tokens, depth)?)?;
    Ok(second)
}

/// What follows the condition of an `if`: its statements, and those of its `else`.
#[cycle(blocks)]
fn read_branches(
    alloc: Global,
    tokens: &mut Tokens<'_>,
    depth: u32,
) -> Result<(Vec<RawStmt>, Vec<RawStmt>), GrammarFault>
    ensures { Gives
        (λ ss. ((raw_stmts_of ss.0.items, raw_stmts_of ss.1.items), tokens.new))
        result (branches (inner depth) tokens.old) }
{
    let first = read_block(alloc, tokens, depth)?;
    let second = read_else(alloc, tokens, depth)?;
    Ok((first, second))
}

/// An `if`.
#[cycle(blocks)]
#[tactic(auto, unfolding(module_semantics::specs::Reading::if_stmt))]
fn read_if(alloc: Global, tokens: &mut Tokens<'_>, depth: u32) -> Result<RawStmt, GrammarFault>
    ensures { Gives (λ s. (raw_stmt_of s, tokens.new)) result (if_stmt (inner depth) tokens.old) }
{
    tokens.mark(Kind::If)?;
    tokens.mark(Kind::Open)?;
    let condition = read_value(alloc, tokens, depth)?;
    let condition = tokens.mark_after(condition, Kind::Close)?;
    let (first, second) = read_branches(alloc, tokens, depth)?;
    Ok(RawStmt::Branch(condition, first, second))
}

/// A statement of a callback.
#[cycle(blocks)]
#[tactic(auto, unfolding(module_semantics::specs::Reading::stmt))]
fn read_stmt(alloc: Global, tokens: &mut Tokens<'_>, depth: u32) -> Result<RawStmt, GrammarFault>
    ensures { Gives (λ s. (raw_stmt_of s, tokens.new)) result (stmt (inner depth) tokens.old) }
{
    if tokens.next_is(Kind::If) {
        return read_if(alloc, tokens, depth);
    }
    read_act(alloc, tokens, depth)
}

/// The statements that stand from here.
#[cycle(blocks)]
fn read_stmts(
    alloc: Global,
    tokens: &mut Tokens<'_>,
    depth: u32,
) -> Result<Vec<RawStmt>, GrammarFault>
    ensures { Gives
        (λ ss. (map raw_stmt_of ss.items, tokens.new))
        result (many stmt_firsts (stmt (inner depth)) tokens.old) }
{
    let mut stmts = Vec::new(alloc);
    for turn in 0..tokens.len() {
        if !tokens.next_in(&STMT_FIRSTS) {
            return Ok(stmts);
        }
        stmts.push(read_stmt(alloc, tokens, depth)?)?;
    }
    Ok(stmts)
}

/// Statements in braces.
#[cycle(blocks)]
#[tactic(auto, unfolding(module_semantics::specs::Reading::braces))]
fn read_braces(
    alloc: Global,
    tokens: &mut Tokens<'_>,
    depth: u32,
) -> Result<Vec<RawStmt>, GrammarFault>
    ensures { Gives (λ ss. (raw_stmts_of ss.items, tokens.new)) result (braces (inner depth) tokens.old) }
{
    tokens.mark(Kind::OpenBrace)?;
    let stmts = read_stmts(alloc, tokens, depth)?;
    tokens.mark_after(stmts, Kind::CloseBrace)
}

/// A statement that begins with `import`, and its end.
fn read_import_ended(
    alloc: Global,
    tokens: &mut Tokens<'_>,
    depth: u32,
) -> Result<RawStmt, GrammarFault>
    ensures { Gives
        (λ s. (raw_stmt_of s, tokens.new)) result ((import_stmt (inner depth).expr ◁ end) tokens.old) }
{
    let act = read_import_act(alloc, tokens, depth)?;
    tokens.end_after(act)
}

/// A statement that begins with a name, and its end.
fn read_name_ended(
    alloc: Global,
    tokens: &mut Tokens<'_>,
    depth: u32,
) -> Result<RawStmt, GrammarFault>
    ensures { Gives
        (λ s. (raw_stmt_of s, tokens.new)) result ((name_act (inner depth).expr ◁ end) tokens.old) }
{
    let act = read_name_act(alloc, tokens, depth)?;
    tokens.end_after(act)
}

/// A statement of a callback that is no `if`.
fn read_act(alloc: Global, tokens: &mut Tokens<'_>, depth: u32) -> Result<RawStmt, GrammarFault>
    ensures { Gives (λ s. (raw_stmt_of s, tokens.new)) result (ended_act (inner depth).expr tokens.old) }
{
    if tokens.next_is(Kind::Throw) {
        let thrown = read_thrown(alloc, tokens, depth)?;
        return tokens.end_after(RawStmt::Throw(thrown));
    }
    if tokens.next_is(Kind::Import) {
        return read_import_ended(alloc, tokens, depth);
    }
    read_name_ended(alloc, tokens, depth)
}

/// The body of a callback.
#[tactic(auto, unfolding(module_semantics::specs::Reading::body))]
pub(crate) fn read_body(
    alloc: Global,
    tokens: &mut Tokens<'_>,
    depth: u32,
) -> Result<Vec<RawStmt>, GrammarFault>
    ensures { Gives (λ ss. (raw_stmts_of ss.items, tokens.new)) result (body (inner depth) tokens.old) }
{
    if tokens.next_is(Kind::OpenBrace) {
        return read_braces(alloc, tokens, depth);
    }
    let mut body = Vec::new(alloc);
    if tokens.next_is(Kind::Import) {
        body.push(read_import_act(alloc, tokens, depth)?)?;
        return Ok(body);
    }
    body.push(read_name_act(alloc, tokens, depth)?)?;
    Ok(body)
}
