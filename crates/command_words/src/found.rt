// What `clap` finds in the words of a command, and how it is read: a word, several, a number, a flag.
ghost use Rattle.std.specs.Prelude.{◌≡◌, ◌≢◌, ◌≤◌, ◌<◌, ◌^◌, []};
ghost use Rattle.std.specs.Prelude.{ℕ, true, IfOk, IfSome, IsErrOf, codes, map, option_map, string_bytes};
ghost use Rattle.clap.specs.Words.{IsParsedFrom, app_of, found_of, is_simple, is_simple_and_free, rows_of};
ghost use Rattle.hmr_types.specs.ModName.{is_text};
ghost use Rattle.command_words.specs.Words.{Between, Fits, IsWithin, faults_of, flag_of, found_in};
ghost use Rattle.command_words.specs.Words.{number_of, number_or, says_true, word_of, words_of};

use crate::command::WordsFault;
use clap::ArgMatches;
use clap::error::ErrorKind;

/// What `clap` finds in the words of a command.
#[tactic(auto, unfolding(crate::specs::Words::faults_of, crate::specs::Words::found_in))]
pub(crate) fn taken<'a>(
    command: clap::Command<'a>,
    words: &'a [String],
) -> Result<ArgMatches<'a>, WordsFault>
    requires simple { is_simple (app_of command) ≡ true }
    requires free { is_simple_and_free (app_of command) ≡ true }
    ensures taken { IfOk result (λ _.
        faults_of (app_of command.entry) (map string_bytes words.entry.now) ≡ []) }
    ensures rows { IfOk result (λ m.
        rows_of (found_of m) ≡ found_in (app_of command.entry) (map string_bytes words.entry.now)) }
    ensures parsed { IfOk result (λ m. IsParsedFrom command.entry m) }
    ensures refused { IsErrOf result WordsFault.NotACommand
        → faults_of (app_of command.entry) (map string_bytes words.entry.now) ≢ [] }
{
    match command.try_get_matches_from(words) {
        Ok(matches) => Ok(matches),
        Err(error) => {
            if error.kind() == ErrorKind::OutOfMemory {
                Err(WordsFault::NoMemory)
            } else {
                Err(WordsFault::NotACommand)
            }
        }
    }
}

/// The word of an argument.
pub(crate) fn word_in<'a>(matches: &ArgMatches<'a>, id: &str) -> Option<&'a str>
    ensures { option_map (λ s. s.now) result ≡ word_of id.now (rows_of (found_of matches.now)) }
{
    matches.get_str(id)
}

/// The words of an argument that may come more than once.
pub(crate) fn words_in<'a, 'b>(matches: &'b ArgMatches<'a>, id: &str) -> Option<&'b [&'a str]>
    ensures { option_map (λ s. map (λ v. v.now) s.now) result
        ≡ words_of id.now (rows_of (found_of matches.entry.now)) }
{
    matches.get_strs(id)
}

/// The number of an argument.
pub(crate) fn number_in(matches: &ArgMatches<'_>, id: &str) -> Option<u32>
    requires { Fits 32 (found_of matches.now) id.now }
    ensures value { result ≡ number_of id.now (rows_of (found_of matches.now)) }
    ensures within { (least most : ℕ) → most < 2 ^ 32 → IsWithin least most (found_of matches.now) id.now
        → IfSome result (Between least most) }
{
    matches.get_one::<u32>(id)
}

/// The port of an argument.
pub(crate) fn port_in(matches: &ArgMatches<'_>, id: &str) -> Option<u16>
    requires { Fits 16 (found_of matches.now) id.now }
    ensures value { result ≡ number_of id.now (rows_of (found_of matches.now)) }
    ensures within { (least most : ℕ) → most < 2 ^ 16 → IsWithin least most (found_of matches.now) id.now
        → IfSome result (Between least most) }
{
    matches.get_one::<u16>(id)
}

/// The number of an option, or the standard one.
pub(crate) fn number_or(matches: &ArgMatches<'_>, id: &str, standard: u32) -> u32
    requires { Fits 32 (found_of matches.now) id.now }
    ensures value { result ≡ number_or standard id.now (rows_of (found_of matches.now)) }
    ensures within { (least most : ℕ) → most < 2 ^ 32 → IsWithin least most (found_of matches.now) id.now
        → Between least most standard → Between least most result }
{
    match number_in(matches, id) {
        Some(number) => number,
        None => standard,
    }
}

/// Whether a flag is there.
pub(crate) fn flag_in(matches: &ArgMatches<'_>, id: &str) -> bool
    ensures { result ≡ flag_of id.now (rows_of (found_of matches.now)) }
{
    says_true(word_in(matches, id))
}

fn says_true(word: Option<&str>) -> bool
    ensures { result ≡ says_true (option_map (λ s. s.now) word.entry) }
{
    match word {
        Some(word) => is_text(word.as_bytes(), b"true"),
        None => false,
    }
}

pub(crate) fn is_text(name: &[u8], text: &[u8]) -> bool
    ensures { result ≡ is_text name.now text.now }
{
    name == text
}
