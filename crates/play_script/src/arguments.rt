// The words after a command's first: names, and numbers in their range.
ghost use Rattle.std.specs.Prelude.{◌≡◌, ◌≤◌, IfOk, None, Some, if◌then◌else◌, map, option_map};
ghost use Rattle.std.specs.Str.{is_utf8};
ghost use Rattle.hmr_types.specs.Event.{is_event};
ghost use Rattle.hmr_types.specs.ModName.{between};
ghost use Rattle.play_script.specs.Script.{Gives, named, all_named, number};
ghost use Rattle.play_script.specs.Script.{event_named, one_word, text_value};

use crate::fault::{Refusal, ScriptKind};
use crate::numbers::number_of;
use hmr_types::limits::{LARGEST_CLIENT, LARGEST_NUMBER, VALUE_BYTES};
use hmr_types::{ClientId, ModName, NameFault, Sequence, Text, Ver, event_module, is_event};
use std::alloc::Global;
use std::str;

/// The one word that there is to be.
pub fn only_word<'a>(words: &[&'a [u8]]) -> Result<&'a [u8], Refusal>
    ensures { Gives (λ word. word.now) result (one_word (map (λ w. w.now) words.now)) }
{
    match words {
        [word] => Ok(*word),
        _ => Err(Refusal::Fault(ScriptKind::WordCount)),
    }
}

/// The name that a word is.
pub fn read_name(alloc: Global, word: &[u8]) -> Result<ModName, Refusal>
    ensures { Gives (λ name. name) result (named word.now) }
{
    match ModName::read(alloc, word) {
        Ok(name) => Ok(name),
        Err(NameFault::NotAName) => Err(Refusal::Fault(ScriptKind::BadName)),
        Err(NameFault::NoMemory) => Err(Refusal::NoMemory),
    }
}

/// The names that words are, in order. The time is linear in their bytes.
pub fn read_names(alloc: Global, words: &[&[u8]]) -> Result<Sequence<ModName>, Refusal>
    ensures { Gives (λ names. names) result (all_named (map (λ w. w.now) words.now)) }
{
    let mut names = Vec::new(alloc);
    for word in words {
        let name = read_name(alloc, word)?;
        names.push(name)?;
    }
    Ok(Sequence::from_vec(names))
}

/// The module of the event that a word names.
pub fn read_event(alloc: Global, word: &[u8]) -> Result<ModName, Refusal>
    ensures { Gives (λ name. name) result (event_named word.now) }
{
    let Some(event) = event_of(word) else {
        return Err(Refusal::Fault(ScriptKind::BadName));
    };
    let module = event_module(alloc, event)?;
    read_name(alloc, module.as_str().as_bytes())
}

fn event_of(word: &[u8]) -> Option<&str>
    ensures { option_map (λ event. event.now) result ≡ (if is_event word.now then Some word.now else None) }
{
    if is_event(word) { utf8_of(word) } else { None }
}

/// The text that a word is, as a value of the module language.
pub fn read_text(alloc: Global, word: &[u8]) -> Result<Text, Refusal>
    ensures { Gives (λ text. text) result (text_value word.now) }
{
    match utf8_of(word) {
        Some(text) if text.len() <= VALUE_BYTES => {
            Ok(Text::from_string(String::from_str(alloc, text)?))
        }
        _ => Err(Refusal::Fault(ScriptKind::BadName)),
    }
}

fn utf8_of(word: &[u8]) -> Option<&str>
    ensures { option_map (λ text. text.now) result ≡ (if is_utf8 word.now then Some word.now else None) }
{
    match str::from_utf8(word) {
        Ok(text) => Some(text),
        Err(_) => None,
    }
}

/// The number of a client, or of turns, that a word is.
pub fn read_count(word: &[u8]) -> Result<u32, Refusal>
    ensures { Gives (λ n. n) result (number LARGEST_CLIENT word.now) }
{
    let number = read_number(word, u64::from(LARGEST_CLIENT))?;
    Ok(number as u32)
}

/// The version that a word is.
pub fn read_version(word: &[u8]) -> Result<Ver, Refusal>
    ensures { Gives (λ n. n) result (number LARGEST_NUMBER word.now) }
{
    read_number(word, LARGEST_NUMBER)
}

fn read_number(word: &[u8], most: u64) -> Result<u64, Refusal>
    ensures number { Gives (λ n. n) result (number most word.now) }
    ensures range { IfOk result (λ n. n ≤ most) }
{
    match number_of(word, most) {
        Some(number) => Ok(number),
        None => Err(Refusal::Fault(ScriptKind::BadNumber)),
    }
}
