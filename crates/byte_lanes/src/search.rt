// The first byte that is in a class, or that isn't: whole blocks by their masks, and then byte by byte.
ghost use Rattle.std.specs.Prelude.{◌≡◌, ◌≤◌, length, map, not};
ghost use Rattle.std.specs.List.{position, position_or_len};
ghost use Rattle.std.specs.Simd.Lanes.{mask_l};
ghost use Rattle.byte_lanes.specs.Classes.{is_in};
ghost use Rattle.byte_lanes.specs.Sought.{is_sought};

use crate::Class;
use crate::class::has;
use crate::masks::class_mask;
use std::simd::prelude::*;

/// What a search looks for: a byte that is in the class, or one that isn't.
#[derive(Clone, Copy)]
enum Sought {
    In,
    Out,
}

/// The least place with a byte of the class. Linear in that place; reads nothing past its block.
pub fn first_of(text: &[u8], class: Class) -> Option<usize>
    ensures { result ≡ position (is_in class) text.now }
{
    first(text, class, Sought::In)
}

/// The least place with a byte that isn't of the class. Linear in that place; reads nothing past its
/// block.
pub fn first_not(text: &[u8], class: Class) -> Option<usize>
    ensures { result ≡ position (λ b. not (is_in class b)) text.now }
{
    first(text, class, Sought::Out)
}

fn first(text: &[u8], class: Class, sought: Sought) -> Option<usize>
    ensures { result ≡ position (is_sought class sought) text.now }
{
    let before = run(text, class, sought);
    if before < text.len() {
        Some(before)
    } else {
        None
    }
}

fn is_sought(class: Class, sought: Sought, byte: u8) -> bool
    ensures { result ≡ is_sought class sought byte }
{
    match sought {
        Sought::In => has(class, byte),
        Sought::Out => !has(class, byte),
    }
}

/// The mask of the bytes that are sought.
#[inline(always)]
fn sought_mask(class: Class, sought: Sought, lanes: u8x64) -> u64
    ensures { result ≡ mask_l (map (is_sought class sought) lanes) }
{
    match sought {
        Sought::In => class_mask(class, lanes),
        Sought::Out => !class_mask(class, lanes),
    }
}

/// How many bytes come before the first that is sought.
fn run(text: &[u8], class: Class, sought: Sought) -> usize
    ensures { result ≡ position_or_len (is_sought class sought) text.now }
{
    let mut at = 0;
    while text.len() - at >= 64 {
        let found = sought_mask(class, sought, u8x64::from_slice(&text[at..]));
        if found != 0 {
            return at + found.trailing_zeros() as usize;
        }
        at += 64;
    }
    at + run_byte_by_byte(&text[at..], class, sought)
}

/// The same, byte by byte.
fn run_byte_by_byte(bytes: &[u8], class: Class, sought: Sought) -> usize
    ensures exact { result ≡ position_or_len (is_sought class sought) bytes.now }
    ensures within { result ≤ length bytes.now }
{
    let mut at = 0;
    while at < bytes.len() && !is_sought(class, sought, bytes[at]) {
        at += 1;
    }
    at
}
