//! Tests of whether the bytes of a text may be in a plain key, or on a line of plain keys.
ghost use Rattle.std.specs.Prelude.{◌≡◌, ◌<◌, ◌≤◌, length, take};
ghost use Rattle.std.specs.List.{list_all};
ghost use Rattle.mc_text.specs.Keys.{is_key_byte, is_line_byte};
ghost use Rattle.mc_text.specs.ByteTests.{is_from};

use crate::places::LANES;
use std::simd::prelude::*;

/// The number of bytes of a short text that are tested together.
const HALF: usize = 8;

/// The control byte above the others.
const DELETE: u8 = 127;

/// Returns whether each byte may be in a plain key.
#[tactic(auto, using(crate::proofs::TestLemmas::key_bytes))]
pub(crate) fn are_key_bytes(word: &[u8]) -> bool
    ensures { result ≡ list_all is_key_byte word.now }
{
    are_from(b' ' + 1, word)
}

/// Returns whether each byte may be in a plain key, or is a space.
pub(crate) fn are_line_bytes(text: &[u8]) -> bool
    ensures { result ≡ list_all is_line_byte text.now }
{
    are_from(b' ', text)
}

/// Returns whether each byte is at least `least`, and not 127. The bytes are tested in steps of 16, and the last 16 together, so that
/// some may be tested twice.
fn are_from(least: u8, text: &[u8]) -> bool
    ensures { result ≡ list_all (is_from least) text.now }
{
    if text.len() < LANES {
        return are_few_from(least, text);
    }
    let mut rest = text;
    while rest.len() > LANES {
        let (lanes, more) = rest.split_at(LANES);
        if !are_lanes_from(least, lanes) {
            return false;
        }
        rest = more;
    }
    let (_, last) = text.split_at(text.len() - LANES);
    are_lanes_from(least, last)
}

/// Returns whether each of fewer than 16 bytes is at least `least`, and not 127. The first 8 of them are tested together, and the
/// last 8.
fn are_few_from(least: u8, text: &[u8]) -> bool
    requires { length text.now < LANES }
    ensures { result ≡ list_all (is_from least) text.now }
{
    if text.len() < HALF {
        return are_single_from(least, text);
    }
    let (_, last) = text.split_at(text.len() - HALF);
    are_half_from(least, text) && are_half_from(least, last)
}

/// Returns whether each byte is at least `least`, and not 127. The bytes are tested one by one.
fn are_single_from(least: u8, text: &[u8]) -> bool
    ensures { result ≡ list_all (is_from least) text.now }
{
    let mut good = true;
    for byte in text {
        good &= *byte >= least && *byte != DELETE;
    }
    good
}

/// Returns whether each of the first 8 bytes is at least `least`, and not 127.
#[inline(always)]
fn are_half_from(least: u8, text: &[u8]) -> bool
    requires { HALF ≤ length text.now }
    ensures { result ≡ list_all (is_from least) (take HALF text.now) }
{
    let half = u8x8::from_slice(text);
    let lower = half.simd_lt(u8x8::splat(least)).to_bitmask();
    let deletes = half.simd_eq(u8x8::splat(DELETE)).to_bitmask();
    lower == 0 && deletes == 0
}

/// Returns whether each of the first 16 bytes is at least `least`, and not 127.
#[inline(always)]
fn are_lanes_from(least: u8, text: &[u8]) -> bool
    requires { LANES ≤ length text.now }
    ensures { result ≡ list_all (is_from least) (take LANES text.now) }
{
    let lanes = u8x16::from_slice(text);
    let lower = lanes.simd_lt(u8x16::splat(least)).to_bitmask();
    let deletes = lanes.simd_eq(u8x16::splat(DELETE)).to_bitmask();
    lower == 0 && deletes == 0
}
