// The text of a table as `encode_client` writes it, read row by row with nothing built on the way: the one
// message that is as long as the page. A table in any other spelling is read as a value.
ghost use Rattle.std.specs.Prelude.{◌≡◌, ◌∷◌, ◌++◌, ◌<◌, ◌+◌, IfOk, IfSome, codes, decimal, true};
ghost use Rattle.message_json.specs.TableText.{AreRows, IsTableText, row_bytes, tail};

use crate::field::read_name;
use hmr_types::{ModName, Table, Ver};
use std::alloc::{AllocError, Global};

/// The table, of one row or more, that bytes are the text of as [`crate::encode_client`] writes it. None for
/// a table in another spelling, and for bytes of anything else. It takes time in proportion to the bytes, and
/// memory for the table alone.
pub(crate) fn written_table(alloc: Global, bytes: &[u8]) -> Result<Option<Table>, AllocError>
    ensures { IfOk result (λ o. IfSome o (IsTableText bytes.now)) }
{
    match after_head(bytes) {
        Some(rows) => table_of(alloc, rows),
        None => Ok(None),
    }
}

fn after_head(bytes: &[u8]) -> Option<&[u8]>
    ensures { IfSome result (λ rows. bytes.now ≡ codes "{\"table\":[" ++ rows.now) }
{
    match bytes {
        [
            b'{',
            b'"',
            b't',
            b'a',
            b'b',
            b'l',
            b'e',
            b'"',
            b':',
            b'[',
            rows @ ..,
        ] => Some(rows),
        _ => None,
    }
}

#[tactic(auto, using(crate::proofs::TableText::table_result))]
fn table_of(alloc: Global, text: &[u8]) -> Result<Option<Table>, AllocError>
    ensures { IfOk result
        (λ o. IfSome o (λ table. IsTableText (codes "{\"table\":[" ++ text.now) table)) }
{
    match rows_of(alloc, text)? {
        Some(rows) => Ok(Table::of(rows)),
        None => Ok(None),
    }
}

#[tactic(auto, using(crate::proofs::TableText::row_shorter))]
fn rows_of(alloc: Global, text: &[u8]) -> Result<Option<Vec<(ModName, Ver)>>, AllocError>
    ensures { IfOk result (λ o. IfSome o (λ rows. AreRows text.now rows.items)) }
{
    let mut rows = Vec::new(alloc);
    let mut left = text;
    while let Some((name, version, rest)) = row_of(left) {
        match read_name(alloc, name)? {
            Some(name) => rows.push((name, version))?,
            None => return Ok(None),
        }
        match after(b',', rest) {
            Some(more) => left = more,
            None if is_tail(rest) => return Ok(Some(rows)),
            None => return Ok(None),
        }
    }
    Ok(None)
}

#[tactic(auto, using(crate::proofs::TableText::same_bytes))]
fn is_tail(text: &[u8]) -> bool
    ensures { result ≡ true → text.now ≡ tail }
{
    text == b"],\"type\":\"applied\"}".as_slice()
}

// One row: the bytes of its name, its version, and what stands behind it.
fn row_of(text: &[u8]) -> Option<(&[u8], Ver, &[u8])>
    ensures { IfSome result (λ r. text.now ≡ row_bytes (r.0.now, r.1) ++ r.2.now) }
{
    let rest = after(b'[', text)?;
    let rest = after(b'"', rest)?;
    let (name, rest) = until_quote(rest)?;
    let rest = after(b',', rest)?;
    let (version, rest) = number_at(rest)?;
    let rest = after(b']', rest)?;
    Some((name, version, rest))
}

fn after(byte: u8, text: &[u8]) -> Option<&[u8]>
    ensures { IfSome result (λ rest. text.now ≡ byte ∷ rest.now) }
{
    match text {
        [first, rest @ ..] if *first == byte => Some(rest),
        _ => None,
    }
}

#[tactic(auto, using(crate::proofs::TableText::around_quote))]
fn until_quote(text: &[u8]) -> Option<(&[u8], &[u8])>
    ensures { IfSome result (λ p. text.now ≡ p.0.now ++ 34 ∷ p.1.now) }
{
    for at in 0..text.len() {
        if text[at] == b'"' {
            return Some((&text[..at], &text[at + 1..]));
        }
    }
    None
}

// A number from 1 on as it is written, of 16 digits at most.
#[tactic(auto, using(std::proofs::lemmas::Fmt::decimal_digit))]
fn number_at(text: &[u8]) -> Option<(u64, &[u8])>
    ensures { IfSome result (λ p. text.now ≡ decimal p.0 ++ p.1.now) }
{
    let (mut number, mut left) = digit_at(text)?;
    if number == 0 {
        return None;
    }
    while let Some((digit, rest)) = digit_at(left) {
        if number >= 1_000_000_000_000_000 {
            return None;
        }
        number = number * 10 + digit;
        left = rest;
    }
    Some((number, left))
}

fn digit_at(text: &[u8]) -> Option<(u64, &[u8])>
    ensures { IfSome result (λ p. (text.now ≡ (48 + p.0) ∷ p.1.now) × (p.0 < 10)) }
{
    match text {
        [first, rest @ ..] if b'0' <= *first && *first <= b'9' => {
            Some((u64::from(*first - b'0'), rest))
        }
        _ => None,
    }
}
