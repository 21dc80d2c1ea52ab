// The words behind a line's first: names, numbers and tables.
ghost use Rattle.std.specs.Prelude.{◌≡◌, ◌≤◌, IfOk, IfSome, None, [], map};
ghost use Rattle.hmr_types.specs.declared.limits.TheConstants.{LARGEST_CLIENT, LARGEST_NUMBER};
ghost use Rattle.play_script.specs.Script.{number_of};
ghost use Rattle.record_text.specs.Lines.{Gives, all_named, named, one_client, one_name, one_word};
ghost use Rattle.record_text.specs.Lines.{rows_from, table_of};
ghost use Rattle.record_text.specs.Numbers.{count_of, largest_count};

use crate::refusal::Refusal;
use crate::said::is_text;
use hmr_types::limits::{LARGEST_CLIENT, LARGEST_NUMBER};
use hmr_types::{ClientId, ModName, NameFault, Sequence, Table, Ver};
use play_script::number_of;
use std::alloc::Global;

/// The one word that there is to be.
fn only_word<'a>(words: &[&'a [u8]]) -> Result<&'a [u8], Refusal>
    ensures { Gives (λ word. word.now) result (one_word (map (λ w. w.now) words.now)) }
{
    match words {
        [word] => Ok(*word),
        _ => Err(Refusal::BadLine),
    }
}

/// The name that a word is.
pub(crate) fn read_name(alloc: Global, word: &[u8]) -> Result<ModName, Refusal>
    ensures { Gives (λ name. name) result (named word.now) }
{
    match ModName::read(alloc, word) {
        Ok(name) => Ok(name),
        Err(NameFault::NotAName) => Err(Refusal::BadLine),
        Err(NameFault::NoMemory) => Err(Refusal::NoMemory),
    }
}

/// The name that the one word is.
pub(crate) fn only_name(alloc: Global, words: &[&[u8]]) -> Result<ModName, Refusal>
    ensures { Gives (λ name. name) result (one_name (map (λ w. w.now) words.now)) }
{
    let word = only_word(words)?;
    read_name(alloc, word)
}

/// The names that words are, in order.
pub(crate) fn read_names(alloc: Global, words: &[&[u8]]) -> Result<Sequence<ModName>, Refusal>
    ensures { Gives (λ names. names) result (all_named (map (λ w. w.now) words.now)) }
{
    let mut names = Vec::new(alloc);
    for word in words {
        let name = read_name(alloc, word)?;
        names.push(name)?;
    }
    Ok(Sequence::from_vec(names))
}

/// The number of a client that a word is.
pub(crate) fn read_client(word: &[u8]) -> Result<ClientId, Refusal>
    ensures { Gives (λ n. n) result (count_of LARGEST_CLIENT word.now) }
{
    let number = read_count(word, u64::from(LARGEST_CLIENT))?;
    Ok(number as u32)
}

/// The number of a client that the one word is.
pub(crate) fn only_client(words: &[&[u8]]) -> Result<ClientId, Refusal>
    ensures { Gives (λ n. n) result (one_client (map (λ w. w.now) words.now)) }
{
    let word = only_word(words)?;
    read_client(word)
}

/// The version that a word is.
pub(crate) fn read_version(word: &[u8]) -> Result<Ver, Refusal>
    ensures { Gives (λ n. n) result (count_of largest_count word.now) }
{
    read_count(word, u64::MAX)
}

fn read_count(word: &[u8], most: u64) -> Result<u64, Refusal>
    ensures number { Gives (λ n. n) result (count_of most word.now) }
    ensures range { IfOk result (λ n. n ≤ most) }
{
    match count_of(word, most) {
        Some(number) => Ok(number),
        None => Err(Refusal::BadLine),
    }
}

/// The number, 0 included, that a word is, where it isn't over the most.
pub(crate) fn count_of(word: &[u8], most: u64) -> Option<u64>
    ensures number { result ≡ count_of most word.now }
    ensures range { IfSome result (λ n. n ≤ most) }
{
    if is_text(word, b"0") {
        return Some(0);
    }
    number_of(word, most)
}

/// The table that words are: names that rise, each with its version.
pub(crate) fn read_table(alloc: Global, words: &[&[u8]]) -> Result<Table, Refusal>
    ensures { Gives (λ table. table) result (table_of (map (λ w. w.now) words.now)) }
{
    let rows = read_rows(alloc, words)?;
    match Table::of(rows) {
        Some(table) => Ok(table),
        None => Err(Refusal::BadLine),
    }
}

fn read_rows(alloc: Global, words: &[&[u8]]) -> Result<Vec<(ModName, Ver)>, Refusal>
    ensures { Gives (λ rows. rows.items) result (rows_from [] None (map (λ w. w.now) words.now)) }
{
    let mut rows = Vec::new(alloc);
    let mut pending: Option<ModName> = None;
    for word in words {
        match pending {
            None => pending = Some(read_name(alloc, word)?),
            Some(name) => {
                let version = read_row_version(word)?;
                rows.push((name, version))?;
                pending = None;
            }
        }
    }
    match pending {
        None => Ok(rows),
        Some(_) => Err(Refusal::BadLine),
    }
}

fn read_row_version(word: &[u8]) -> Result<Ver, Refusal>
    ensures { Gives (λ n. n) result (number_of LARGEST_NUMBER word.now) }
{
    match number_of(word, LARGEST_NUMBER) {
        Some(version) => Ok(version),
        None => Err(Refusal::BadLine),
    }
}
