// A module text as its tree: its bytes, its tokens, its grammar and its names are asked in this order,
// and what is wrong first is told.
ghost use Rattle.std.specs.Option.{option_map};
ghost use Rattle.std.specs.Prelude.{◌≡◌, ◌≤◌, ◌⊎◌, IfErr, IfOk, IfSome, List, None, Result, Err, Ok, length};
ghost use Rattle.module_tree.specs.Tree.{module_of};
ghost use Rattle.hmr_types.specs.declared.limits.TheConstants.{DEPTH};
ghost use Rattle.raw_trees.specs.Raw.{raw_items_of};
ghost use Rattle.module_semantics.specs.Lexing as lexing;
ghost use Rattle.module_semantics.specs.ModuleText.{ReadsAs, fault_at, named, parsing, place_left};
ghost use Rattle.module_semantics.specs.ModuleText.{read_items, read_tokens};
ghost use Rattle.module_semantics.specs.NameRules.{first_broken};
ghost use Rattle.module_semantics.specs.Reading.{reading};
ghost use Rattle.module_semantics.specs.Resolving.{module_tree};
ghost use Rattle.module_semantics.specs.TextFaults.{BreaksNames, IsFault, LeavesGrammar};
ghost use Rattle.module_semantics.specs.Token.{Lexeme};
ghost use Rattle.module_semantics.specs.declared.tokens.LexFault as plain;
ghost use Rattle.syntax_faults.specs.Syntax.{FaultIs, Parses, no_memory, text_fault_of, word_of};
ghost use Rattle.name_rules.specs.Told.{rule_word};
ghost use Rattle.syntax_faults.specs.declared.syntax_fault.SyntaxKind.TheVariants.{Unexpected};

use hot_grammar::{GrammarFault, read_items};
use hot_lexer::{LexFault, LexKind, lex};
use module_tree::Module;
use name_rules::{Broken, NameRule, first_broken, module_tree};
use raw_trees::RawItem;
use std::alloc::Global;
use syntax_faults::{SyntaxFault, SyntaxKind, fault_at};
use token_kinds::LineToken;
use token_lines::line_tokens;

/// The module that a text is, or its first fault. The text has at most 4,294,967,294 bytes.
///
/// A module comes exactly where the text reads as it: it is UTF-8, spaces, comments and tokens, its
/// tokens have the grammar with at most 64 constructs in one another, and the rules on names hold.
/// Else the fault is the first of these that fails, at the line and column where it does, each from 1
/// and in bytes; an unexpected token is the first after which no module text continues the tokens up
/// to it, or a name that breaks a rule. `NoMemory` may come in place of either, with line and column 0.
/// The stack grows with what stands in one another alone. Each name is looked up in an ordered table:
/// the time is linear but for the logarithm of the number of names, and the memory is linear.
pub fn parse(alloc: Global, text: &[u8]) -> Result<Module, SyntaxFault>
    requires short { length text.now ≤ 4294967294 }
    ensures exact { Parses module_of result (parsing text.now) }
    ensures reads { IfOk result (λ m. ReadsAs text.now (module_of m)) }
    ensures fault { IfErr result (λ f. IfSome (text_fault_of f) (IsFault text.now)) }
    ensures first { IfErr result
        (λ f. f.kind ≡ Unexpected
        → IfSome (text_fault_of f) (λ t. LeavesGrammar text.now t ⊎ BreaksNames text.now t)) }
    ensures memory { IfErr result (λ f. text_fault_of f ≡ None → f ≡ no_memory) }
{
    parse_bytes(alloc, text)
}

#[tactic(auto, unfolding(module_semantics::specs::ModuleText::parsing))]
fn parse_bytes(alloc: Global, text: &[u8]) -> Result<Module, SyntaxFault>
    requires short { length text.now ≤ 4294967294 }
    ensures exact { Parses module_of result (parsing text.now) }
{
    match std::str::from_utf8(text) {
        Ok(characters) => parse_characters(alloc, characters),
        Err(error) => Err(fault_at(text, error.valid_up_to(), SyntaxKind::NotUtf8)),
    }
}

fn parse_characters(alloc: Global, text: &str) -> Result<Module, SyntaxFault>
    requires { length text.now ≤ 4294967294 }
    ensures { Parses module_of result (read_tokens text.now (lexing.lexing text.now)) }
{
    let tokens = match lex(alloc, text) {
        Ok(tokens) => tokens,
        Err(fault) => return Err(lex_fault(text, fault)),
    };
    match line_tokens(alloc, text, tokens) {
        Ok(tokens) => parse_tokens(alloc, text, &tokens),
        Err(_) => Err(SyntaxFault::no_memory()),
    }
}

/// The fault of the tokens of a text.
fn lex_fault(text: &str, fault: LexFault) -> SyntaxFault
    requires { length text.now ≤ 4294967294 }
    ensures { (read : Result (List Lexeme) plain.LexFault) → lexing.FaultIs fault.kind fault read
        → FaultIs (text_fault_of result) result (read_tokens text.now read) }
{
    match fault.kind {
        LexKind::NoMemory => SyntaxFault::no_memory(),
        kind => fault_at(text.as_bytes(), fault.at as usize, SyntaxKind::Lex(kind)),
    }
}

fn parse_tokens(alloc: Global, text: &str, tokens: &[LineToken<'_>]) -> Result<Module, SyntaxFault>
    requires { length text.now ≤ 4294967294 }
    ensures { Parses module_of result (read_items text.now tokens.now (reading DEPTH tokens.now)) }
{
    match read_items(alloc, tokens) {
        Ok(items) => name_items(alloc, text, &items),
        Err(GrammarFault::Unexpected(left)) => {
            Err(fault_left(text, tokens, left, SyntaxKind::Unexpected))
        }
        Err(GrammarFault::TooDeep(left)) => {
            Err(fault_left(text, tokens, left, SyntaxKind::TooDeep))
        }
        Err(GrammarFault::NoMemory) => Err(SyntaxFault::no_memory()),
    }
}

/// A fault at the place at which so many of the tokens are left.
fn fault_left(text: &str, tokens: &[LineToken<'_>], left: usize, kind: SyntaxKind) -> SyntaxFault
    requires few { left ≤ length tokens.now }
    requires short { length text.now ≤ 4294967294 }
    ensures told { text_fault_of result
        ≡ option_map (fault_at text.now (place_left text.now tokens.now left)) (word_of kind) }
    ensures kind { result.kind ≡ kind }
{
    fault_at(text.as_bytes(), place_left(text, tokens, left), kind)
}

/// The place of the first of the tokens that are left, or the end of the text.
fn place_left(text: &str, tokens: &[LineToken<'_>], left: usize) -> usize
    requires { left ≤ length tokens.now }
    ensures { result ≡ place_left text.now tokens.now left }
{
    match &tokens[tokens.len() - left..] {
        [] => text.len(),
        [first, ..] => first.at() as usize,
    }
}

fn name_items(alloc: Global, text: &str, items: &[RawItem]) -> Result<Module, SyntaxFault>
    requires { length text.now ≤ 4294967294 }
    ensures { Parses module_of result
        (named text.now (raw_items_of items.now) (first_broken (raw_items_of items.now))) }
{
    match first_broken(alloc, items) {
        Ok(Some(broken)) => Err(name_fault(text, broken)),
        Ok(None) => named_items(alloc, items),
        Err(_) => Err(SyntaxFault::no_memory()),
    }
}

fn named_items(alloc: Global, items: &[RawItem]) -> Result<Module, SyntaxFault>
    ensures { Parses module_of result (Ok (module_tree (raw_items_of items.now))) }
{
    match module_tree(alloc, items) {
        Ok(tree) => Ok(tree),
        Err(_) => Err(SyntaxFault::no_memory()),
    }
}

fn name_fault(text: &str, broken: Broken) -> SyntaxFault
    requires { length text.now ≤ 4294967294 }
    ensures { FaultIs (text_fault_of result) result
        (Err (fault_at text.now broken.at (rule_word broken.rule))) }
{
    let kind = match broken.rule {
        NameRule::Unexpected => SyntaxKind::Unexpected,
        NameRule::DuplicateName => SyntaxKind::DuplicateName,
        NameRule::NotAssignable => SyntaxKind::NotAssignable,
    };
    fault_at(text.as_bytes(), broken.at as usize, kind)
}
