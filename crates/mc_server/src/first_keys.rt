//! The keys of the first requests of a text.
ghost use Rattle.std.specs.Prelude.{◌≤◌, length};

use mc_text::{CODED_LIMIT, KEY_LIMIT, LANES, WordIter, are_plain_keys, read_i64, read_len, words};
use std::simd::prelude::*;

/// The most keys that are found.
pub const AHEAD: usize = 32;

/// The most bytes after the first request that are read: as many as that many gets of the longest keys take.
const LONG: usize = 8_192;

/// The most bytes of a command's name that are read.
const NAME: usize = LANES - 1;

/// The most bytes of a meta command's flags among which that for base64 is searched for.
const FLAGS: usize = 64;

/// The most bytes of an exptime or a length.
const NUMBER: usize = 20;

/// The control byte above the others, which is in no key.
const DELETE: u8 = 127;

/// The keys of the first requests of a text, in their order, as many as there is room for.
///
/// A line is taken only if it ends where the reader of requests ends it. A retrieval is taken only if the reader would not refuse it. Else
/// the line and all after it are left out. So the keys of each taken line are looked up, unless it has one key and is refused. A key in
/// base64 is left out if that flag is in the first 64 bytes of the flags, since its word is not what is looked up.
#[derive(Drop)]
pub struct FirstKeys<'a> {
    keys: [&'a [u8]; AHEAD],
    count: usize,
    /// The bytes of the taken lines and their data blocks.
    taken: usize,
}

impl<'a> FirstKeys<'a> {
    /// Makes an empty list.
    pub fn none() -> FirstKeys<'a> {
        FirstKeys {
            keys: [&[]; AHEAD],
            count: 0,
            taken: 0,
        }
    }

    /// Takes the keys of the first request, and those of the requests with which the text after it begins. It reads no more than 8,192
    /// bytes of that text, and each of them a constant number of times.
    pub fn take(&mut self, first: WordIter<'a>, after: &'a [u8]) {
        for key in first {
            if self.push(key).is_none() {
                return;
            }
        }
        self.take_lines(after.get(..LONG).unwrap_or(after));
    }

    /// Returns the keys.
    pub fn keys(&self) -> &[&'a [u8]]
        ensures { length result.now ≤ AHEAD }
    {
        self.keys.as_slice().get(..self.count).unwrap_or_default()
    }

    /// Returns how many bytes after the first request are taken by the requests whose keys these are.
    pub fn taken(&self) -> usize {
        self.taken
    }

    /// Takes the lines with which the text begins.
    fn take_lines(&mut self, text: &'a [u8]) {
        let mut rest = text;
        for _ in 0..AHEAD {
            let count = self.count;
            if count >= AHEAD {
                break;
            }
            let Some(more) = self.take_line(rest) else {
                self.count = count;
                break;
            };
            rest = more;
        }
        self.taken = text.len().saturating_sub(rest.len());
    }

    /// Takes the keys of the first line, and returns what is after it and its data block.
    fn take_line(&mut self, text: &'a [u8]) -> Option<&'a [u8]> {
        let (name, words) = split_word(text, NAME)?;
        match name {
            b"get" | b"gets" => self.take_keys(words),
            b"incr" | b"decr" | b"touch" | b"delete" => {
                let rest = self.take_key(words, CODED_LIMIT)?;
                Some(split_line(rest)?.1)
            }
            b"mg" | b"ma" | b"md" => Some(self.take_meta_key(words)?.1),
            b"ms" => {
                let (words, after) = self.take_meta_key(words)?;
                let (len, _) = next_word(words, NUMBER)?;
                after_block(len, after)
            }
            b"set" | b"add" | b"replace" | b"append" | b"prepend" | b"cas" => {
                let words = self.take_key(words, KEY_LIMIT)?;
                let (len, after) = third_word(words)?;
                after_block(len, after)
            }
            b"gat" | b"gats" => {
                let (exptime, words) = next_word(words, NUMBER)?;
                read_i64(exptime)?;
                self.take_keys(words)
            }
            b"mn" => after_line(words),
            _ => None,
        }
    }

    /// Takes a key, if there is room.
    fn push(&mut self, key: &'a [u8]) -> Option<()> {
        let count = self.count;
        *self.keys.get_mut(count)? = key;
        self.count = count + 1;
        Some(())
    }

    /// Takes the next word, and returns what is after it.
    fn take_key(&mut self, text: &'a [u8], most: usize) -> Option<&'a [u8]> {
        let (word, rest) = next_word(text, most)?;
        self.push(word)?;
        Some(rest)
    }

    /// Takes the key of a meta command, and returns its flags and what is after its line. It leaves a key in base64 out, if that flag is
    /// in the first 64 bytes of the flags.
    fn take_meta_key(&mut self, words: &'a [u8]) -> Option<(&'a [u8], &'a [u8])> {
        let (word, rest) = next_word(words, CODED_LIMIT)?;
        let (flags, after) = split_line(rest)?;
        if !is_coded(flags.get(..FLAGS).unwrap_or(flags)) {
            self.push(word)?;
        }
        Some((rest, after))
    }

    /// Takes the keys of a retrieval, of which there is at least one, as many as there is room for, and returns what is after its line.
    fn take_keys(&mut self, words: &'a [u8]) -> Option<&'a [u8]> {
        let mut rest = self.take_key(words, KEY_LIMIT)?;
        for _ in 0..AHEAD {
            if rest.first() != Some(&b' ') {
                return after_line(rest);
            }
            let (word, more) = next_word(rest, KEY_LIMIT)?;
            if self.push(word).is_none() {
                return after_keys(rest);
            }
            rest = more;
        }
        after_keys(rest)
    }
}

/// Returns whether one of these flags says that the key is in base64.
fn is_coded(flags: &[u8]) -> bool {
    flags.ends_with(b" b") || flags.windows(3).any(|three| three == b" b ".as_slice())
}

/// Returns what is after the first line, if none of its words has more bytes than a key.
fn after_keys(text: &[u8]) -> Option<&[u8]> {
    let (line, after) = split_line(text)?;
    are_plain_keys(&words(line)).then_some(after)
}

/// Returns the first line without its end, if it is whole and no control byte is in it, and what is after it.
#[inline]
fn split_line(text: &[u8]) -> Option<(&[u8], &[u8])> {
    let end = first_up_to(b' ' - 1, text)?;
    match text.get(end..)? {
        [b'\n', after @ ..] | [b'\r', b'\n', after @ ..] => Some((text.get(..end)?, after)),
        _ => None,
    }
}

/// Returns what is after the end of a line, if that end is first.
#[inline]
fn after_line(text: &[u8]) -> Option<&[u8]> {
    match text {
        [b'\n', after @ ..] | [b'\r', b'\n', after @ ..] => Some(after),
        _ => None,
    }
}

/// Returns the word in front, if it has at most this many bytes, and what is after it, from the byte on that ends it.
#[inline]
fn split_word(text: &[u8], most: usize) -> Option<(&[u8], &[u8])> {
    let end = first_up_to(b' ', text.get(..=most).unwrap_or(text))?;
    Some((text.get(..end)?, text.get(end..)?))
}

/// Returns the word after one space, and what is after that. Between two spaces there is none.
#[inline]
fn next_word(text: &[u8], most: usize) -> Option<(&[u8], &[u8])> {
    let [b' ', words @ ..] = text else {
        return None;
    };
    let (word, rest) = split_word(words, most)?;
    if word.is_empty() {
        return None;
    }
    Some((word, rest))
}

/// Returns the third word of the rest of a line, and what is after the line. In the rest after a storage command's key it is the length.
#[inline]
fn third_word(text: &[u8]) -> Option<(&[u8], &[u8])> {
    if let Some((word, rest)) = third_in_lanes(text) {
        return Some((word, after_line(rest)?));
    }
    let (_, words) = next_word(text, NUMBER)?;
    let (_, words) = next_word(words, NUMBER)?;
    let (word, rest) = next_word(words, NUMBER)?;
    Some((word, split_line(rest)?.1))
}

/// Returns the third word of the rest of a line, and the text from its first control byte on. It does so if that byte is among the first
/// 16, one space alone is in front of each word, and none is in front of that byte.
#[inline]
fn third_in_lanes(text: &[u8]) -> Option<(&[u8], &[u8])> {
    let (lanes, _) = text.split_first_chunk::<LANES>()?;
    let bytes = u8x16::from_array(*lanes);
    let ends = control_bytes(bytes);
    let marks = (ends | bytes.simd_eq(u8x16::splat(b' ')).to_bitmask()) & lowest_and_below(ends);
    let third = without_lowest(without_lowest(marks));
    let behind = without_lowest(third);
    if ends == 0 || marks & 1 == 0 || marks & (marks << 1) != 0 || behind == 0 {
        return None;
    }
    let word = text.get(third.trailing_zeros() as usize + 1..behind.trailing_zeros() as usize)?;
    Some((word, text.get(ends.trailing_zeros() as usize..)?))
}

/// Returns a mask of the bytes that are control bytes.
#[inline(always)]
fn control_bytes(bytes: u8x16) -> u64 {
    bytes.simd_lt(u8x16::splat(b' ')).to_bitmask()
        | bytes.simd_eq(u8x16::splat(DELETE)).to_bitmask()
}

/// Returns the lowest bit that is set, and all below it: all bits, if none is set.
#[inline(always)]
fn lowest_and_below(bits: u64) -> u64 {
    bits ^ bits.wrapping_sub(1)
}

/// Returns the bits without the lowest that is set.
#[inline(always)]
fn without_lowest(bits: u64) -> u64 {
    bits & bits.wrapping_sub(1)
}

/// Returns what is after the data block of this length.
fn after_block<'a>(len: &[u8], text: &'a [u8]) -> Option<&'a [u8]> {
    let block = (read_len(len)? as usize).checked_add(2)?;
    text.get(block..)
}

/// Returns the index of the first byte that is no more than another, or is 127. The processor tests many at once.
#[inline]
fn first_up_to(most: u8, text: &[u8]) -> Option<usize> {
    let (chunks, rest) = text.as_chunks::<LANES>();
    let mut passed: usize = 0;
    for chunk in chunks {
        let bytes = u8x16::from_array(*chunk);
        let marks = bytes.simd_le(u8x16::splat(most)).to_bitmask()
            | bytes.simd_eq(u8x16::splat(DELETE)).to_bitmask();
        if marks != 0 {
            return Some(passed.wrapping_add(marks.trailing_zeros() as usize));
        }
        passed = passed.wrapping_add(LANES);
    }
    let place = rest
        .iter()
        .position(|byte| *byte <= most || *byte == DELETE)?;
    Some(passed.wrapping_add(place))
}
