// One block: a mask for each class, with a bit for each byte.
ghost use Rattle.std.specs.Prelude.{◌≡◌, map};
ghost use Rattle.std.specs.Simd.Lanes.{mask_l};
ghost use Rattle.module_semantics.specs.Bytes.{is_name_byte, is_blank};
ghost use Rattle.byte_lanes.specs.Classes.{IsMaskOf, is_in, is_newline, is_quoting, is_star, stops_string};

use crate::Class;
use std::simd::prelude::*;

/// A mask for each class of a block of 64 bytes; bit i, from the lowest, is of byte i.
#[derive(Clone, Copy, Debug, PartialEq, Eq)]
pub struct ClassMasks {
    pub word: u64,
    pub space: u64,
    pub newline: u64,
    pub quote: u64,
}

/// The masks of a block: bit i is set exactly where byte i is in the class. Costs a dozen
/// comparisons of the whole block.
pub fn classes(block: &[u8; 64]) -> ClassMasks
    ensures word { IsMaskOf is_name_byte block.now result.word }
    ensures space { IsMaskOf is_blank block.now result.space }
    ensures newline { IsMaskOf is_newline block.now result.newline }
    ensures quote { IsMaskOf is_quoting block.now result.quote }
{
    let lanes = u8x64::from_array(*block);
    ClassMasks {
        word: word_mask(lanes),
        space: space_mask(lanes),
        newline: newline_mask(lanes),
        quote: quote_mask(lanes),
    }
}

/// The mask of one class.
#[inline(always)]
pub(crate) fn class_mask(class: Class, lanes: u8x64) -> u64
    ensures { result ≡ mask_l (map (is_in class) lanes) }
{
    match class {
        Class::Word => word_mask(lanes),
        Class::Space => space_mask(lanes),
        Class::Newline => newline_mask(lanes),
        Class::Quote => quote_mask(lanes),
        Class::Star => star_mask(lanes),
        Class::StringStop => string_stop_mask(lanes),
    }
}

// A capital letter and its small one differ in one bit alone. What lies below the first byte of a range
// wraps to above its last.
#[inline(always)]
fn word_mask(lanes: u8x64) -> u64
    ensures { result ≡ mask_l (map is_name_byte lanes) }
{
    let small = lanes | u8x64::splat(0x20);
    let letter = (small - u8x64::splat(b'a')).simd_lt(u8x64::splat(26));
    let digit = (lanes - u8x64::splat(b'0')).simd_lt(u8x64::splat(10));
    let other = lanes.simd_eq(u8x64::splat(b'_')) | lanes.simd_eq(u8x64::splat(b'$'));
    (letter | digit | other).to_bitmask()
}

#[inline(always)]
fn space_mask(lanes: u8x64) -> u64
    ensures { result ≡ mask_l (map is_blank lanes) }
{
    (lanes.simd_eq(u8x64::splat(b' '))
        | lanes.simd_eq(u8x64::splat(b'\t'))
        | lanes.simd_eq(u8x64::splat(b'\r'))
        | lanes.simd_eq(u8x64::splat(b'\n'))).to_bitmask()
}

#[inline(always)]
pub(crate) fn newline_mask(lanes: u8x64) -> u64
    ensures { result ≡ mask_l (map is_newline lanes) }
{
    lanes.simd_eq(u8x64::splat(b'\n')).to_bitmask()
}

#[inline(always)]
fn quote_mask(lanes: u8x64) -> u64
    ensures { result ≡ mask_l (map is_quoting lanes) }
{
    (lanes.simd_eq(u8x64::splat(b'\''))
        | lanes.simd_eq(u8x64::splat(b'"'))
        | lanes.simd_eq(u8x64::splat(b'\\'))).to_bitmask()
}

#[inline(always)]
fn star_mask(lanes: u8x64) -> u64
    ensures { result ≡ mask_l (map is_star lanes) }
{
    lanes.simd_eq(u8x64::splat(b'*')).to_bitmask()
}

#[inline(always)]
fn string_stop_mask(lanes: u8x64) -> u64
    ensures { result ≡ mask_l (map stops_string lanes) }
{
    (lanes.simd_eq(u8x64::splat(b'\''))
        | lanes.simd_eq(u8x64::splat(b'"'))
        | lanes.simd_eq(u8x64::splat(b'\\'))
        | lanes.simd_eq(u8x64::splat(b'\r'))
        | lanes.simd_eq(u8x64::splat(b'\n'))).to_bitmask()
}
