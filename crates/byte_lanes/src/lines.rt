// Lines: how many LFs a text has, and where its lines begin.
ghost use Rattle.std.specs.Prelude.{◌≡◌, ◌^◌, ◌<◌, ◌≤◌, ◌++◌, length, drop, suc};
ghost use Rattle.module_semantics.specs.Lines.{line_feeds};
ghost use Rattle.byte_lanes.specs.Starts.{starts_of};

use crate::Class;
use crate::masks::newline_mask;
use crate::search::first_of;
use std::simd::prelude::*;

/// How many LFs stand in a text. Linear in the text.
pub fn count_newlines(text: &[u8]) -> usize
    ensures exact { result ≡ line_feeds text.now }
    ensures within { result ≤ length text.now }
{
    let mut count = 0;
    let mut at = 0;
    while text.len() - at >= 64 {
        count += newline_mask(u8x64::from_slice(&text[at..])).count_ones() as usize;
        at += 64;
    }
    count + count_byte_by_byte(&text[at..])
}

/// The same, byte by byte.
#[tactic(auto, unfolding(module_semantics::specs::Lines::line_feeds))]
fn count_byte_by_byte(bytes: &[u8]) -> usize
    ensures exact { result ≡ line_feeds bytes.now }
    ensures within { result ≤ length bytes.now }
{
    let mut count = 0;
    for byte in bytes {
        if *byte == b'\n' {
            count += 1;
        }
    }
    count
}

/// Writes where the lines of a text begin, 0 and the place after each LF, to the front of `into`, and
/// answers how many these are. What stands in `into` after them stays. Linear in the text, and in
/// its lines at one block each.
pub fn line_starts(text: &[u8], into: &mut [u32]) -> usize
    requires room { line_feeds text.now < length into.old }
    requires short { length text.now < 2 ^ 32 }
    ensures count { result ≡ suc (line_feeds text.now) }
    ensures written { into.new ≡ starts_of text.now ++ drop result into.old }
{
    into[0] = 0;
    let mut count = 1;
    let mut start = 0;
    while let Some(line) = first_of(&text[start..], Class::Newline) {
        start += line + 1;
        into[count] = start as u32;
        count += 1;
    }
    count
}
