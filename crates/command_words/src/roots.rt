// The roots of a page, from words: names, 16 at most, no two equal.
ghost use Rattle.std.specs.Prelude.{◌≡◌, ◌∷◌, [], ◌&&◌};
ghost use Rattle.std.specs.Prelude.{true, false, not, length, map, IfOk, if◌then◌else◌, Some, None};
ghost use Rattle.std.specs.List.{list_all};
ghost use Rattle.hmr_types.specs.ModName.{is_name};
ghost use Rattle.core_model.specs.Names.{has};
ghost use Rattle.core_model.specs.Roots.{are_bad, are_distinct};
ghost use Rattle.command_words.specs.Words.{Gives, roots_of};

use crate::command::WordsFault;
use hmr_types::limits::ROOTS;
use hmr_types::{ModName, NameFault, Sequence};
use std::alloc::Global;

/// The roots that words are. The time is linear in their bytes.
pub(crate) fn read_roots(alloc: Global, words: &[&str]) -> Result<Sequence<ModName>, WordsFault>
    ensures exact { Gives result (roots_of (map (λ w. w.now) words.now)) }
    ensures good { IfOk result (λ roots. are_bad roots ≡ false) }
    ensures whole { IfOk result (λ roots. roots ≡ map (λ w. w.now) words.now) }
{
    let names = read_names(alloc, words)?;
    if are_bad(names.as_slice()) {
        return Err(WordsFault::NotACommand);
    }
    Ok(names)
}

fn read_names(alloc: Global, words: &[&str]) -> Result<Sequence<ModName>, WordsFault>
    ensures { Gives result (if list_all is_name (map (λ w. w.now) words.now)
        then Some (map (λ w. w.now) words.now) else None) }
{
    let mut names = Vec::new(alloc);
    for word in words {
        let name = read_name(alloc, word)?;
        names.push(name)?;
    }
    Ok(Sequence::from_vec(names))
}

/// The name that a word is.
pub(crate) fn read_name(alloc: Global, word: &str) -> Result<ModName, WordsFault>
    ensures exact { Gives result (if is_name word.now then Some word.now else None) }
    ensures name { IfOk result (λ name. is_name name ≡ true) }
{
    match ModName::read(alloc, word.as_bytes()) {
        Ok(name) => Ok(name),
        Err(NameFault::NotAName) => Err(WordsFault::NotACommand),
        Err(NameFault::NoMemory) => Err(WordsFault::NoMemory),
    }
}

fn are_bad(names: &[ModName]) -> bool
    ensures { result ≡ are_bad names.now }
{
    names.len() > ROOTS || !are_distinct(names)
}

fn are_distinct(names: &[ModName]) -> bool
    ensures { result ≡ are_distinct names.now }
{
    for place in 0..names.len() {
        if has_name(&names[place + 1..], &names[place]) {
            return false;
        }
    }
    true
}

fn has_name(names: &[ModName], name: &ModName) -> bool
    ensures { result ≡ has names.now name.now }
{
    names.iter().any(|known| known == name)
}
