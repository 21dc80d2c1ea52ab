// The words of `serve`, `join` and `page`, read: a folder or a port, roots, and options with their standard
// values.
ghost use Rattle.std.specs.Prelude.{◌≡◌, ◌≢◌, ◌≤◌, []};
ghost use Rattle.std.specs.Prelude.{false, IfOk, IfSome, IsErrOf, codes, map, string_bytes};
ghost use Rattle.clap.specs.Words.{found_of, rows_of};
ghost use Rattle.core_model.specs.Roots.{AreRoots, are_bad};
ghost use Rattle.command_words.specs.Words.{Between, Gives, HasJoinNumbers, HasRanges, HasServeNumbers};
ghost use Rattle.command_words.specs.Words.{IsServable, any_roots, faults_of, found_in, join_app, join_of};
ghost use Rattle.command_words.specs.Words.{joining, number_of, number_or, page_app, page_of, plan_of};
ghost use Rattle.command_words.specs.Words.{serve_app, serve_of, serving, some_roots, word_of, words_of};

use crate::command::{Command, ServePlan, WordsFault};
use crate::found::{flag_in, number_or, port_in, taken, word_in, words_in};
use crate::grammars::{join_grammar, page_grammar, serve_grammar};
use crate::roots::read_roots;
use clap::ArgMatches;
use hmr_types::{ModName, Sequence, Text};
use std::alloc::Global;

pub(crate) fn read_serve(alloc: Global, words: &[String]) -> Result<Command, WordsFault>
    ensures exact { Gives result (serve_of (map string_bytes words.now)) }
    ensures ranges { IfOk result HasRanges }
{
    let matches = serve_matches(alloc, words)?;
    let folder = folder_in(alloc, &matches)?;
    let roots = some_roots_in(alloc, &matches)?;
    Ok(Command::Serve(plan_of(&matches, folder, roots)))
}

/// What `clap` finds in the words of `serve`: its numbers are in their ranges.
fn serve_matches<'a>(alloc: Global, words: &'a [String]) -> Result<ArgMatches<'a>, WordsFault>
    ensures taken { IfOk result (λ _. faults_of serve_app (map string_bytes words.entry.now) ≡ []) }
    ensures rows { IfOk result (λ m.
        rows_of (found_of m) ≡ found_in serve_app (map string_bytes words.entry.now)) }
    ensures numbers { IfOk result (λ m. HasServeNumbers (found_of m)) }
    ensures refused { IsErrOf result WordsFault.NotACommand
        → faults_of serve_app (map string_bytes words.entry.now) ≢ [] }
{
    let command = serve_grammar(alloc)?;
    taken(command, words)
}

fn folder_in(alloc: Global, matches: &ArgMatches<'_>) -> Result<Text, WordsFault>
    ensures { Gives result (word_of (codes "FOLDER") (rows_of (found_of matches.now))) }
{
    match word_in(matches, "FOLDER") {
        Some(folder) => Ok(Text::from_string(String::from_str(alloc, folder)?)),
        None => Err(WordsFault::NotACommand),
    }
}

fn some_roots_in(alloc: Global, matches: &ArgMatches<'_>) -> Result<Sequence<ModName>, WordsFault>
    ensures exact { Gives result (some_roots (words_of (codes "ROOT") (rows_of (found_of matches.now)))) }
    ensures good { IfOk result AreRoots }
{
    match words_in(matches, "ROOT") {
        Some([]) | None => Err(WordsFault::NotACommand),
        Some(words) => read_roots(alloc, words),
    }
}

/// The plan for a folder and roots, with the options that were found.
fn plan_of(matches: &ArgMatches<'_>, folder: Text, roots: Sequence<ModName>) -> ServePlan
    requires numbers { HasServeNumbers (found_of matches.now) }
    requires roots { AreRoots roots }
    ensures exact { result ≡ plan_of (rows_of (found_of matches.now)) folder roots }
    ensures ranges { IsServable result }
{
    let port = match port_in(matches, "port") {
        Some(port) => port,
        None => 0,
    };
    ServePlan {
        folder,
        roots,
        port,
        clients: number_or(matches, "clients", 0),
        outside: number_or(matches, "outside", 0),
        turns: number_or(matches, "turns", 1000),
        workers: number_or(matches, "workers", 2),
        rounds: number_or(matches, "rounds", 0),
        edits: flag_in(matches, "edits"),
        recorded: flag_in(matches, "record"),
    }
}

pub(crate) fn read_join(alloc: Global, words: &[String]) -> Result<Command, WordsFault>
    ensures exact { Gives result (join_of (map string_bytes words.now)) }
    ensures ranges { IfOk result HasRanges }
{
    let matches = join_matches(alloc, words)?;
    joining(alloc, &matches)
}

/// What `clap` finds in the words of `join`: its numbers are in their ranges.
fn join_matches<'a>(alloc: Global, words: &'a [String]) -> Result<ArgMatches<'a>, WordsFault>
    ensures taken { IfOk result (λ _. faults_of join_app (map string_bytes words.entry.now) ≡ []) }
    ensures rows { IfOk result (λ m.
        rows_of (found_of m) ≡ found_in join_app (map string_bytes words.entry.now)) }
    ensures numbers { IfOk result (λ m. HasJoinNumbers (found_of m)) }
    ensures refused { IsErrOf result WordsFault.NotACommand
        → faults_of join_app (map string_bytes words.entry.now) ≢ [] }
{
    let command = join_grammar(alloc)?;
    taken(command, words)
}

/// The command that joins the server that was found.
fn joining(alloc: Global, matches: &ArgMatches<'_>) -> Result<Command, WordsFault>
    requires numbers { HasJoinNumbers (found_of matches.now) }
    ensures exact { Gives result (joining (rows_of (found_of matches.now))
        (number_of (codes "PORT") (rows_of (found_of matches.now)))
        (any_roots (words_of (codes "ROOT") (rows_of (found_of matches.now))))) }
    ensures ranges { IfOk result HasRanges }
{
    let Some(port) = port_in(matches, "PORT") else {
        return Err(WordsFault::NotACommand);
    };
    let roots = any_roots_in(alloc, matches)?;
    let turns = number_or(matches, "turns", 1000);
    Ok(Command::Join { port, roots, turns })
}

fn any_roots_in(alloc: Global, matches: &ArgMatches<'_>) -> Result<Sequence<ModName>, WordsFault>
    ensures exact { Gives result (any_roots (words_of (codes "ROOT") (rows_of (found_of matches.now)))) }
    ensures good { IfOk result (λ roots. are_bad roots ≡ false) }
{
    match words_in(matches, "ROOT") {
        Some(words) => read_roots(alloc, words),
        None => Ok(Sequence::new(alloc)),
    }
}

pub(crate) fn read_page(alloc: Global, words: &[String]) -> Result<Command, WordsFault>
    ensures exact { Gives result (page_of (map string_bytes words.now)) }
    ensures ranges { IfOk result HasRanges }
{
    let matches = page_matches(alloc, words)?;
    let folder = folder_in(alloc, &matches)?;
    Ok(Command::Page(folder))
}

/// What `clap` finds in the words of `page`.
fn page_matches<'a>(alloc: Global, words: &'a [String]) -> Result<ArgMatches<'a>, WordsFault>
    ensures taken { IfOk result (λ _. faults_of page_app (map string_bytes words.entry.now) ≡ []) }
    ensures rows { IfOk result (λ m.
        rows_of (found_of m) ≡ found_in page_app (map string_bytes words.entry.now)) }
    ensures refused { IsErrOf result WordsFault.NotACommand
        → faults_of page_app (map string_bytes words.entry.now) ≢ [] }
{
    let command = page_grammar(alloc)?;
    taken(command, words)
}
