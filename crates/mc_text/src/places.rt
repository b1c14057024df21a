//! The index of a byte's first occurrence, and the number of spaces in front.
ghost use Rattle.std.specs.Prelude.{◌≡◌, ◌≤◌, ◌-◌, ◌==◌, not, length, take};
ghost use Rattle.std.specs.List.{prefix_len};
ghost use Rattle.memchr.specs.Find.{IsFirstByte, Nowhere, Passes, is_byte};

use memchr::memchr;
use std::simd::prelude::*;

/// The number of bytes that are searched together. Among fewer, a byte is found sooner one by one.
pub const LANES: usize = 16;

/// The number of bytes after which a search with a slower start is faster.
const FAR: usize = 64;

/// Returns the index of a byte's first occurrence. Words and lines are short, so the first bytes are searched in steps of 16, and the
/// last 16 together, so that some may be searched twice.
#[inline(never)]
pub(crate) fn first_place(byte: u8, text: &[u8]) -> Option<usize>
    ensures { IsFirstByte (is_byte byte) text.now result }
{
    let mut passed = 0;
    let mut rest = text;
    while rest.len() > LANES && is_near(passed, rest.len()) {
        let place = place_in_lanes(byte, rest);
        if place < LANES {
            return Some(passed + place);
        }
        let (_, more) = rest.split_at(LANES);
        rest = more;
        passed += LANES;
    }
    if rest.len() <= LANES && text.len() >= LANES {
        return place_in_last(byte, text);
    }
    match memchr(byte, rest) {
        Some(place) => Some(passed + place),
        None => None,
    }
}

/// Returns whether the search goes on in steps, after `passed` bytes and with `left` to search. Its answer affects only the speed.
#[inline(always)]
fn is_near(passed: usize, left: usize) -> bool {
    passed < FAR || left / 2 < LANES
}

/// Returns the index of a byte's first occurrence, if it is among the last 16.
#[inline(always)]
fn place_in_last(byte: u8, text: &[u8]) -> Option<usize>
    requires long { LANES ≤ length text.now }
    requires before { Nowhere (Passes (is_byte byte) text.now) 0 (length text.now - LANES) }
    ensures { IsFirstByte (is_byte byte) text.now result }
{
    let from = text.len() - LANES;
    let (_, last) = text.split_at(from);
    let place = place_in_lanes(byte, last);
    if place < LANES {
        Some(from + place)
    } else {
        None
    }
}

/// Returns how many of the first 16 bytes are before a byte: all if it is not among them.
#[inline(always)]
pub(crate) fn place_in_lanes(byte: u8, text: &[u8]) -> usize
    requires { LANES ≤ length text.now }
    ensures { result ≡ prefix_len (λ b. not (b == byte)) (take LANES text.now) }
{
    let marks = u8x16::from_slice(text)
        .simd_eq(u8x16::splat(byte))
        .to_bitmask();
    if marks == 0 {
        LANES
    } else {
        marks.trailing_zeros() as usize
    }
}

/// Returns how many of the first 16 bytes are spaces in front of the others: all if no other is among them.
#[inline(always)]
pub(crate) fn spaces_in_lanes(text: &[u8]) -> usize
    requires { LANES ≤ length text.now }
    ensures { result ≡ prefix_len (λ b. b == 32) (take LANES text.now) }
{
    let others = u8x16::from_slice(text)
        .simd_ne(u8x16::splat(b' '))
        .to_bitmask();
    if others == 0 {
        LANES
    } else {
        others.trailing_zeros() as usize
    }
}
