// Which bytes have the form of a reply.
ghost use Rattle.std.specs.Prelude.{◌≡◌, IfOk, map};
ghost use Rattle.play_script.specs.Script.{words};
ghost use Rattle.record_text.specs.Replies.{is_counted, is_fault_word, is_line_column, is_lone_word};
ghost use Rattle.record_text.specs.Replies.{is_message_text, is_refused, is_reply, is_word_reply, place_parts};

use crate::arguments::count_of;
use crate::said::is_text;
use hmr_types::limits::LARGEST_CLIENT;
use message_json::{MsgFault, decode};
use message_text::encode;
use play_script::words_of;
use std::alloc::{AllocError, Global};

/// Whether bytes have the form of a reply: words, or just what is written of a server's message in format 2.
/// It takes time and memory in proportion to the bytes.
#[tactic(auto, unfolding(crate::specs::Replies::is_reply))]
pub fn is_reply(alloc: Global, bytes: &[u8]) -> Result<bool, AllocError>
    ensures { IfOk result (λ b. b ≡ is_reply bytes.now) }
{
    match bytes {
        [] => Ok(false),
        [b'{', ..] => is_message_text(alloc, bytes),
        _ => is_word_reply(alloc, bytes),
    }
}

fn is_message_text(alloc: Global, bytes: &[u8]) -> Result<bool, AllocError>
    ensures { IfOk result (λ b. b ≡ is_message_text bytes.now) }
{
    match decode(alloc, bytes, 2) {
        Ok(msg) => {
            let text = encode(alloc, &msg, 2)?;
            Ok(is_text(&text, bytes))
        }
        Err(MsgFault::NoMemory) => Err(AllocError),
        Err(MsgFault::NotJson) => Ok(false),
        Err(MsgFault::NoType) => Ok(false),
        Err(MsgFault::BadField(_)) => Ok(false),
        Err(MsgFault::ExtraField(_)) => Ok(false),
    }
}

fn is_word_reply(alloc: Global, bytes: &[u8]) -> Result<bool, AllocError>
    ensures { IfOk result (λ b. b ≡ is_word_reply (words bytes.now)) }
{
    let words = words_of(alloc, bytes)?;
    are_reply(alloc, &words)
}

fn are_reply(alloc: Global, words: &[&[u8]]) -> Result<bool, AllocError>
    ensures { IfOk result (λ b. b ≡ is_word_reply (map (λ w. w.now) words.now)) }
{
    match words {
        [word] => Ok(is_lone_word(word)),
        [word, version] => Ok(is_counted(word, version)),
        [word, place, fault] => is_refused(alloc, word, place, fault),
        _ => Ok(false),
    }
}

fn is_lone_word(word: &[u8]) -> bool
    ensures { result ≡ is_lone_word word.now }
{
    is_text(word, b"same")
        || is_text(word, b"served")
        || is_text(word, b"late")
        || is_text(word, b"gone")
        || is_text(word, b"text-too-long")
        || is_text(word, b"too-many-names")
        || is_text(word, b"source-total")
        || is_text(word, b"numbers-spent")
}

fn is_counted(word: &[u8], version: &[u8]) -> bool
    ensures { result ≡ is_counted word.now version.now }
{
    (is_text(word, b"job") || is_text(word, b"removed")) && count_of(version, u64::MAX).is_some()
}

fn is_refused(alloc: Global, word: &[u8], place: &[u8], fault: &[u8]) -> Result<bool, AllocError>
    ensures { IfOk result (λ b. b ≡ is_refused word.now place.now fault.now) }
{
    let parts = place_parts(alloc, place)?;
    Ok(is_text(word, b"refused") && is_line_column(&parts) && is_fault_word(fault))
}

fn place_parts(alloc: Global, place: &[u8]) -> Result<Vec<&[u8]>, AllocError>
    ensures { IfOk result (λ v. map (λ w. w.now) v.items ≡ place_parts place.now) }
{
    place.split(|b| *b == b':').collect(alloc)
}

fn is_line_column(parts: &[&[u8]]) -> bool
    ensures { result ≡ is_line_column (map (λ w. w.now) parts.now) }
{
    let most = u64::from(LARGEST_CLIENT);
    match parts {
        [line, column] => count_of(line, most).is_some() && count_of(column, most).is_some(),
        _ => false,
    }
}

fn is_fault_word(word: &[u8]) -> bool
    ensures { result ≡ is_fault_word word.now }
{
    is_text(word, b"bad-byte")
        || is_text(word, b"open-string")
        || is_text(word, b"open-comment")
        || is_text(word, b"bad-escape")
        || is_text(word, b"number-too-large")
        || is_text(word, b"too-many-tokens")
        || is_text(word, b"unexpected")
        || is_text(word, b"too-deep")
        || is_text(word, b"duplicate-name")
        || is_text(word, b"not-utf8")
        || is_text(word, b"not-assignable")
        || is_text(word, b"specifier-bare")
        || is_text(word, b"specifier-climbs")
        || is_text(word, b"specifier-empty")
        || is_text(word, b"specifier-too-long")
        || is_text(word, b"specifier-bad-segment")
        || is_text(word, b"too-many-imports")
}
