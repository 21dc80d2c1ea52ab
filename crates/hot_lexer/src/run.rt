// Runs: how many bytes of one class stand at the front. What stands in names and between tokens mostly
// has a few bytes, so the first ones are looked at one by one; what is longer goes on 64 at a time.
ghost use Rattle.std.specs.Prelude.{◌≡◌, ◌≤◌, length};
ghost use Rattle.std.specs.List.{position_or_len};
ghost use Rattle.byte_lanes.specs.Classes.{is_in};
ghost use Rattle.module_semantics.specs.Bytes.{span, is_blank, is_name_byte, not_line_feed};

use crate::bytes;
use byte_lanes::{Class, first_not, first_of};

/// How many bytes are looked at one by one first.
const NEAR: usize = 16;

/// How many bytes of a name stand at the front.
#[tactic(auto, unfolding(module_semantics::specs::Bytes::span))]
pub(crate) fn name_run(bytes: &[u8]) -> usize
    ensures count { result ≡ span is_name_byte bytes.now }
    ensures within { result ≤ length bytes.now }
{
    let near = bytes.len().min(NEAR);
    for i in 0..near {
        if !bytes::is_name_byte(bytes[i]) {
            return i;
        }
    }
    near + long_run(&bytes[near..], Class::Word)
}

/// How many blanks stand at the front.
#[tactic(auto, unfolding(module_semantics::specs::Bytes::span))]
pub(crate) fn blank_run(bytes: &[u8]) -> usize
    ensures count { result ≡ span is_blank bytes.now }
    ensures within { result ≤ length bytes.now }
{
    let near = bytes.len().min(NEAR);
    for i in 0..near {
        if !bytes::is_blank(bytes[i]) {
            return i;
        }
    }
    near + long_run(&bytes[near..], Class::Space)
}

/// How many bytes of the class stand at the front.

fn long_run(bytes: &[u8], class: Class) -> usize
    ensures count { result ≡ span (is_in class) bytes.now }
    ensures within { result ≤ length bytes.now }
{
    first_not(bytes, class).unwrap_or(bytes.len())
}

/// How many bytes come before the first LF.

pub(crate) fn line_run(bytes: &[u8]) -> usize
    ensures count { result ≡ span not_line_feed bytes.now }
    ensures within { result ≤ length bytes.now }
{
    first_of(bytes, Class::Newline).unwrap_or(bytes.len())
}
