// The words of the command line, read.
ghost use Rattle.std.specs.Prelude.{◌≡◌, ◌≢◌, ◌≤◌, [], IfOk, IfSome, IsErrOf, codes, map, string_bytes};
ghost use Rattle.clap.specs.Words.{found_of, rows_of};
ghost use Rattle.command_words.specs.Words.{Gives, HasMakeNumbers, HasRanges, audit_app, audit_of};
ghost use Rattle.command_words.specs.Words.{check_app, check_of, checking, command_of, faults_of, found_in};
ghost use Rattle.command_words.specs.Words.{make_app, make_of, making, named_command, number_of, play_app};
ghost use Rattle.command_words.specs.Words.{play_of, record_app, record_of};

use crate::command::{Command, WordsFault};
use crate::found::{is_text, number_in, taken, word_in};
use crate::grammars::{audit_grammar, check_grammar, make_grammar, play_grammar, record_grammar};
use crate::roots::read_name;
use crate::serving::{read_join, read_page, read_serve};
use clap::ArgMatches;
use std::alloc::Global;

/// The command that the words are, of which the first names it. `NotACommand` comes exactly where they
/// are none. The time is linear in the words.
pub fn read_words(alloc: Global, words: &[String]) -> Result<Command, WordsFault>
    ensures exact { Gives result (command_of (map string_bytes words.now)) }
    ensures ranges { IfOk result HasRanges }
{
    match words {
        [name, rest @ ..] => read_named(alloc, name.as_bytes(), rest),
        [] => Err(WordsFault::NotACommand),
    }
}

fn read_named(alloc: Global, name: &[u8], words: &[String]) -> Result<Command, WordsFault>
    ensures exact { Gives result (named_command name.now (map string_bytes words.now)) }
    ensures ranges { IfOk result HasRanges }
{
    if is_text(name, b"play") {
        return read_play(alloc, words);
    }
    if is_text(name, b"check") {
        return read_check(alloc, words);
    }
    if is_text(name, b"make") {
        return read_make(alloc, words);
    }
    if is_text(name, b"serve") {
        return read_serve(alloc, words);
    }
    if is_text(name, b"join") {
        return read_join(alloc, words);
    }
    if is_text(name, b"page") {
        return read_page(alloc, words);
    }
    if is_text(name, b"record") {
        return read_record(alloc, words);
    }
    if is_text(name, b"audit") {
        return read_audit(alloc, words);
    }
    Err(WordsFault::NotACommand)
}

fn read_play(alloc: Global, words: &[String]) -> Result<Command, WordsFault>
    ensures exact { Gives result (play_of (map string_bytes words.now)) }
    ensures ranges { IfOk result HasRanges }
{
    play_matches(alloc, words)?;
    Ok(Command::Play)
}

/// What `clap` finds in the words of `play`.
fn play_matches<'a>(alloc: Global, words: &'a [String]) -> Result<ArgMatches<'a>, WordsFault>
    ensures taken { IfOk result (λ _. faults_of play_app (map string_bytes words.entry.now) ≡ []) }
    ensures refused { IsErrOf result WordsFault.NotACommand
        → faults_of play_app (map string_bytes words.entry.now) ≢ [] }
{
    let command = play_grammar(alloc);
    taken(command, words)
}

fn read_record(alloc: Global, words: &[String]) -> Result<Command, WordsFault>
    ensures exact { Gives result (record_of (map string_bytes words.now)) }
    ensures ranges { IfOk result HasRanges }
{
    record_matches(alloc, words)?;
    Ok(Command::Record)
}

/// What `clap` finds in the words of `record`.
fn record_matches<'a>(alloc: Global, words: &'a [String]) -> Result<ArgMatches<'a>, WordsFault>
    ensures taken { IfOk result (λ _. faults_of record_app (map string_bytes words.entry.now) ≡ []) }
    ensures refused { IsErrOf result WordsFault.NotACommand
        → faults_of record_app (map string_bytes words.entry.now) ≢ [] }
{
    let command = record_grammar(alloc);
    taken(command, words)
}

fn read_audit(alloc: Global, words: &[String]) -> Result<Command, WordsFault>
    ensures exact { Gives result (audit_of (map string_bytes words.now)) }
    ensures ranges { IfOk result HasRanges }
{
    audit_matches(alloc, words)?;
    Ok(Command::Audit)
}

/// What `clap` finds in the words of `audit`.
fn audit_matches<'a>(alloc: Global, words: &'a [String]) -> Result<ArgMatches<'a>, WordsFault>
    ensures taken { IfOk result (λ _. faults_of audit_app (map string_bytes words.entry.now) ≡ []) }
    ensures refused { IsErrOf result WordsFault.NotACommand
        → faults_of audit_app (map string_bytes words.entry.now) ≢ [] }
{
    let command = audit_grammar(alloc);
    taken(command, words)
}

fn read_check(alloc: Global, words: &[String]) -> Result<Command, WordsFault>
    ensures exact { Gives result (check_of (map string_bytes words.now)) }
    ensures ranges { IfOk result HasRanges }
{
    let matches = check_matches(alloc, words)?;
    match word_in(&matches, "NAME") {
        Some(name) => checking(alloc, name),
        None => Err(WordsFault::NotACommand),
    }
}

/// The command that checks the module of this name.
fn checking(alloc: Global, name: &str) -> Result<Command, WordsFault>
    ensures exact { Gives result (checking name.now) }
    ensures ranges { IfOk result HasRanges }
{
    let name = read_name(alloc, name)?;
    Ok(Command::Check(name))
}

/// What `clap` finds in the words of `check`.
fn check_matches<'a>(alloc: Global, words: &'a [String]) -> Result<ArgMatches<'a>, WordsFault>
    ensures taken { IfOk result (λ _. faults_of check_app (map string_bytes words.entry.now) ≡ []) }
    ensures rows { IfOk result (λ m.
        rows_of (found_of m) ≡ found_in check_app (map string_bytes words.entry.now)) }
    ensures refused { IsErrOf result WordsFault.NotACommand
        → faults_of check_app (map string_bytes words.entry.now) ≢ [] }
{
    let command = check_grammar(alloc)?;
    taken(command, words)
}

fn read_make(alloc: Global, words: &[String]) -> Result<Command, WordsFault>
    ensures exact { Gives result (make_of (map string_bytes words.now)) }
    ensures ranges { IfOk result HasRanges }
{
    let matches = make_matches(alloc, words)?;
    make_found(&matches)
}

/// The command that makes the modules that were found.
fn make_found(matches: &ArgMatches<'_>) -> Result<Command, WordsFault>
    requires { HasMakeNumbers (found_of matches.now) }
    ensures exact { Gives result (making (number_of (codes "N") (rows_of (found_of matches.now)))
        (number_of (codes "SEED") (rows_of (found_of matches.now)))) }
    ensures ranges { IfOk result HasRanges }
{
    let count = number_in(matches, "N");
    let seed = number_in(matches, "SEED");
    making(count, seed)
}

/// The command that makes so many modules from a seed.
fn making(count: Option<u32>, seed: Option<u32>) -> Result<Command, WordsFault>
    requires low { IfSome count (λ n. 1 ≤ n) }
    requires high { IfSome count (λ n. n ≤ 4096) }
    requires seed { IfSome seed (λ n. n ≤ 2147483647) }
    ensures exact { Gives result (making count seed) }
    ensures ranges { IfOk result HasRanges }
{
    match (count, seed) {
        (Some(count), Some(seed)) => Ok(Command::Make { count, seed }),
        _ => Err(WordsFault::NotACommand),
    }
}

/// What `clap` finds in the words of `make`: its numbers are in their ranges.
fn make_matches<'a>(alloc: Global, words: &'a [String]) -> Result<ArgMatches<'a>, WordsFault>
    ensures taken { IfOk result (λ _. faults_of make_app (map string_bytes words.entry.now) ≡ []) }
    ensures rows { IfOk result (λ m.
        rows_of (found_of m) ≡ found_in make_app (map string_bytes words.entry.now)) }
    ensures numbers { IfOk result (λ m. HasMakeNumbers (found_of m)) }
    ensures refused { IsErrOf result WordsFault.NotACommand
        → faults_of make_app (map string_bytes words.entry.now) ≢ [] }
{
    let command = make_grammar(alloc)?;
    taken(command, words)
}
