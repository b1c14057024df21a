//! Escapes: how arbitrary bytes are written in a line of printable ones.
ghost use Rattle.std.specs.Prelude.{◌≡◌, ◌<◌, ◌≤◌, ◌+◌, ◌==◌, ◌&&◌, ◌++◌, ◌∷◌, ℕ, nat_le, List, Some, None, length, is_some, true, IfOk, IfSome, OnOk, OnErr, MatchOption, All, [], false, take, vec_len};
ghost use Rattle.std.specs.List.{list_all, position_or_len, prefix_len};
ghost use Rattle.std.specs.Option.{option_map};
ghost use Rattle.mc_script.specs.Escapes.{client_line, escape_of, escaped, is_plain, named_line, hex_value, letter_value, text_of, GivesByte, GivesNoByte, ReadsFront, Between, Backslash, NoDigit};

use crate::escape_tables::{DIGITS, LETTERS, NO_DIGIT, NO_LETTER, WIDEST, escape_of};
use itoa::Buffer;
use memchr::memchr;
use std::alloc::{AllocError, Global};
use std::simd::prelude::*;

/// How many bytes are tested together, or escaped.
const BLOCK: usize = 16;

/// The most bytes that the escapes of a block have.
const ROOM: usize = WIDEST * BLOCK;

/// Fewer bytes than this are escaped one by one, since that starts sooner.
const FEW: usize = 4;

/// Appends bytes to a text, each escaped. A byte from 32 to 126 is appended as it is, except the backslash, which is doubled. 13 and 10
/// become `\r` and `\n`, and any other `\x` and two small hexadecimal digits. An error leaves the text as it was.
pub fn push_escaped(bytes: &[u8], out: &mut Vec<u8>) -> Result<(), AllocError>
    ensures escaped { OnOk result (out.new.items ≡ out.old.items ++ escaped bytes.now) }
    ensures unchanged { OnErr result (out.new.items ≡ out.old.items) }
{
    let held = out.len();
    let pushed = push_each_escaped(bytes, out);
    if pushed.is_err() {
        out.truncate(held);
    }
    pushed
}

/// Appends a line that says what a client was sent: `client <client>: ` and the bytes, escaped. An error leaves the text as it was.
pub fn push_client_line(client: u64, bytes: &[u8], out: &mut Vec<u8>) -> Result<(), AllocError>
    ensures line { OnOk result (out.new.items ≡ out.old.items ++ client_line client bytes.now) }
    ensures unchanged { OnErr result (out.new.items ≡ out.old.items) }
{
    push_named_line(b"client", client, bytes, out)
}

/// Appends a line to a text: `<name> <number>: ` and some bytes, escaped. An error leaves the text as it was.
pub fn push_named_line(
    name: &[u8],
    number: u64,
    bytes: &[u8],
    out: &mut Vec<u8>,
) -> Result<(), AllocError>
    ensures line { OnOk result (out.new.items ≡ out.old.items ++ named_line name.now number bytes.now) }
    ensures unchanged { OnErr result (out.new.items ≡ out.old.items) }
{
    let held = out.len();
    let pushed = push_parts(name, number, bytes, out);
    if pushed.is_err() {
        out.truncate(held);
    }
    pushed
}

/// The bytes that an escaped text stands for: `\r`, `\n`, `\\` and `\x` with two hexadecimal digits, small or capital, are escapes, and any
/// other byte stands for itself. It is `None` if a backslash begins no escape, also if memory for the bytes is refused: an error says that
/// the text stands for some.
pub fn read_escaped(alloc: Global, text: &[u8]) -> Result<Option<Vec<u8>>, AllocError>
    ensures read { IfOk result (λ found. option_map (λ bytes. bytes.items) found ≡ text_of text.now) }
    ensures memory { OnErr result (is_some (text_of text.now) ≡ true) }
{
    let read = read_bytes(alloc, text);
    if read.is_err() && !is_escaped(text) {
        return Ok(None);
    }
    read
}

/// Whether a text stands for bytes: each of its backslashes begins an escape, or is the second of one.
pub(crate) fn is_escaped(text: &[u8]) -> bool
    ensures { result ≡ is_some (text_of text.now) }
{
    let mut rest = text;
    while !rest.is_empty() {
        let Some(more) = past_byte(rest) else {
            return false;
        };
        rest = more;
    }
    true
}

/// Escaped bytes are read back as they were.
pub fn escaped_is_read_again()
    ensures { (bytes : List ℕ) → All (λ b. b < 256) bytes → text_of (escaped bytes) ≡ Some bytes }
{}

/// Reads as `read_escaped` does, but an error says nothing about the text.
fn read_bytes(alloc: Global, text: &[u8]) -> Result<Option<Vec<u8>>, AllocError>
    ensures { IfOk result (λ found. option_map (λ bytes. bytes.items) found ≡ text_of text.now) }
{
    let mut bytes = Vec::with_capacity(alloc, text.len())?;
    let mut rest = text;
    while !rest.is_empty() {
        let Some(more) = read_front(rest, &mut bytes)? else {
            return Ok(None);
        };
        rest = more;
    }
    Ok(Some(bytes))
}

fn push_each_escaped(bytes: &[u8], out: &mut Vec<u8>) -> Result<(), AllocError>
    ensures escaped { OnOk result (out.new.items ≡ out.old.items ++ escaped bytes.now) }
    ensures kept { take (vec_len out.old) out.new.items ≡ out.old.items }
{
    let mut done = 0;
    while done < bytes.len() {
        let (_, rest) = bytes.split_at(done);
        done += push_front(rest, out)?;
    }
    Ok(())
}

/// Appends the front of a text to another, escaped. The front is the blocks at the beginning whose bytes all stand for themselves. If there
/// are none, it is the first block, or one byte if few are left. The answer is the number of these bytes. An error leaves the other text as
/// it was.
fn push_front(bytes: &[u8], out: &mut Vec<u8>) -> Result<usize, AllocError>
    requires { 0 < length bytes.now }
    ensures escaped { IfOk result (λ count. out.new.items ≡ out.old.items ++ escaped (take count bytes.now)) }
    ensures some { IfOk result (λ count. 0 < count) }
    ensures inside { IfOk result (λ count. count ≤ length bytes.now) }
    ensures unchanged { OnErr result (out.new.items ≡ out.old.items) }
{
    if bytes.len() < FEW {
        push_escape(bytes[0], out)?;
        return Ok(1);
    }
    let count = plain_blocks(bytes);
    if count == 0 {
        return push_block(bytes, out);
    }
    let (run, _) = bytes.split_at(count);
    out.extend_from_slice(run)?;
    Ok(count)
}

/// Appends the first bytes of a text, a block of them or all if there are fewer, to another, escaped one by one. The answer is their
/// number. An error leaves the other text as it was.
fn push_block(bytes: &[u8], out: &mut Vec<u8>) -> Result<usize, AllocError>
    requires { 0 < length bytes.now }
    ensures escaped { IfOk result (λ count. out.new.items ≡ out.old.items ++ escaped (take count bytes.now)) }
    ensures some { IfOk result (λ count. 0 < count) }
    ensures inside { IfOk result (λ count. count ≤ length bytes.now) }
    ensures unchanged { OnErr result (out.new.items ≡ out.old.items) }
{
    let (block, _) = bytes.split_at(bytes.len().min(BLOCK));
    let mut room = [0; ROOM];
    let mut used = 0;
    for byte in block {
        used = put_escape(*byte, &mut room, used);
    }
    let (escapes, _) = room.split_at(used);
    out.extend_from_slice(escapes)?;
    Ok(block.len())
}

/// Writes the escape of a byte at a place, and returns where it ends. The bytes that it writes after that, up to four from the place, have
/// no meaning.
#[inline(always)]
fn put_escape(byte: u8, room: &mut [u8; ROOM], at: usize) -> usize
    requires { at + WIDEST ≤ ROOM }
    ensures escape { take result room.new ≡ take at room.old ++ escape_of byte }
    ensures size { result ≤ at + WIDEST }
{
    let (escape, size) = escape_of(byte);
    room[at..at + WIDEST].copy_from_slice(escape);
    at + size
}

/// Appends the escape of a byte to a text. An error leaves the text as it was.
fn push_escape(byte: u8, out: &mut Vec<u8>) -> Result<(), AllocError>
    ensures escape { OnOk result (out.new.items ≡ out.old.items ++ escape_of byte) }
    ensures unchanged { OnErr result (out.new.items ≡ out.old.items) }
{
    if is_plain(byte) {
        out.push(byte)?;
        return Ok(());
    }
    let (escape, size) = escape_of(byte);
    if size == WIDEST {
        return out.extend_from_slice(escape);
    }
    let (escape, _) = escape.split_at(size);
    out.extend_from_slice(escape)
}

/// The number of bytes in the blocks at the beginning whose bytes all stand for themselves.
fn plain_blocks(bytes: &[u8]) -> usize
    ensures { result ≤ prefix_len is_plain bytes.now }
{
    let mut rest = bytes;
    while begins_with_plain_block(rest) {
        let (_, more) = rest.split_at(BLOCK);
        rest = more;
    }
    bytes.len() - rest.len()
}

/// Whether a text begins with a block of bytes that stand for themselves.
fn begins_with_plain_block(bytes: &[u8]) -> bool
    ensures { result ≡ (nat_le BLOCK (length bytes.now) && list_all is_plain (take BLOCK bytes.now)) }
{
    if bytes.len() < BLOCK {
        return false;
    }
    let (block, _) = bytes.split_at(BLOCK);
    are_plain(block)
}

/// Whether each byte stands for itself. The loop reads all of them, so that the processor tests many at once.
fn are_plain(bytes: &[u8]) -> bool
    ensures { result ≡ list_all is_plain bytes.now }
{
    let mut good = true;
    for byte in bytes {
        good &= is_plain(*byte);
    }
    good
}

/// Whether a byte stands for itself in an escaped text.
fn is_plain(byte: u8) -> bool
    ensures { result ≡ is_plain byte }
{
    byte >= 32 && byte <= 126 && byte != b'\\'
}

fn push_parts(name: &[u8], number: u64, bytes: &[u8], out: &mut Vec<u8>) -> Result<(), AllocError>
    ensures line { OnOk result (out.new.items ≡ out.old.items ++ named_line name.now number bytes.now) }
    ensures kept { take (vec_len out.old) out.new.items ≡ out.old.items }
{
    let mut digits = Buffer::new();
    out.extend_from_slice(name)?;
    out.extend_from_slice(b" ")?;
    out.extend_from_slice(digits.format(number).as_bytes())?;
    out.extend_from_slice(b": ")?;
    push_escaped(bytes, out)?;
    out.extend_from_slice(b"\n")
}

/// Appends the front of a text to some bytes: its bytes up to the first backslash, and the byte of the escape there. The answer is the text
/// after that, or `None` if the backslash begins no escape.
fn read_front<'a>(text: &'a [u8], bytes: &mut Vec<u8>) -> Result<Option<&'a [u8]>, AllocError>
    requires { 0 < length text.now }
    ensures read { IfOk result (λ found. MatchOption found (GivesNoByte Between text.now)
        (λ rest. ReadsFront bytes.old.items Between text.now bytes.new.items rest.now)) }
    ensures shorter { IfOk result (λ found. IfSome found (λ rest. length rest.now < length text.now)) }
{
    let rest = read_run(text, bytes)?;
    let [_, escape @ ..] = rest else {
        return Ok(Some(rest));
    };
    let Some((byte, after)) = byte_of_escape(escape) else {
        return Ok(None);
    };
    bytes.push(byte)?;
    Ok(Some(after))
}

/// Appends the bytes of a text up to its first backslash to some bytes. The answer is the text from there on. If a run ends in the first
/// block, the whole block is appended, which is one move, and the bytes after the run are cut off. So it asks for room for at most 15 bytes
/// more than the run has. It never asks for more than the text has, which `read_escaped` asks for at its beginning. One or two bytes are
/// faster to append by themselves.
fn read_run<'a>(text: &'a [u8], bytes: &mut Vec<u8>) -> Result<&'a [u8], AllocError>
    ensures read { IfOk result (λ rest. ReadsFront bytes.old.items Between text.now bytes.new.items rest.now) }
    ensures over { IfOk result (λ rest. position_or_len (λ b. b == 92) rest.now ≡ 0) }
    ensures within { IfOk result (λ rest. length rest.now ≤ length text.now) }
{
    if is_run_over(text) {
        return Ok(text);
    }
    if text.len() < BLOCK {
        return read_short_run(text, bytes);
    }
    if text[1] == b'\\' {
        let lone = text[0];
        bytes.push(lone)?;
        return Ok(&text[1..]);
    }
    if text[2] == b'\\' {
        bytes.push(text[0])?;
        bytes.push(text[1])?;
        return Ok(&text[2..]);
    }
    let count = run_in_block(text);
    if count == BLOCK {
        return read_long_run(text, bytes);
    }
    let held = bytes.len();
    let (block, _) = text.split_at(BLOCK);
    bytes.extend_from_slice(block)?;
    bytes.truncate(held + count);
    let (_, rest) = text.split_at(count);
    Ok(rest)
}

/// Appends a run as `read_run` does, byte by byte, of a short text.
fn read_short_run<'a>(text: &'a [u8], bytes: &mut Vec<u8>) -> Result<&'a [u8], AllocError>
    ensures read { IfOk result (λ rest. ReadsFront bytes.old.items Between text.now bytes.new.items rest.now) }
    ensures over { IfOk result (λ rest. position_or_len (λ b. b == 92) rest.now ≡ 0) }
    ensures within { IfOk result (λ rest. length rest.now ≤ length text.now) }
{
    let mut rest = text;
    while !is_run_over(rest) {
        bytes.push(rest[0])?;
        rest = &rest[1..];
    }
    Ok(rest)
}

/// Appends a run as `read_run` does, of any length.
fn read_long_run<'a>(text: &'a [u8], bytes: &mut Vec<u8>) -> Result<&'a [u8], AllocError>
    ensures read { IfOk result (λ rest. ReadsFront bytes.old.items Between text.now bytes.new.items rest.now) }
    ensures over { IfOk result (λ rest. position_or_len (λ b. b == 92) rest.now ≡ 0) }
    ensures within { IfOk result (λ rest. length rest.now ≤ length text.now) }
{
    let (run, rest) = text.split_at(run_length(text));
    bytes.extend_from_slice(run)?;
    Ok(rest)
}

/// Whether a run has no more bytes: the text is empty, or begins with a backslash.
fn is_run_over(text: &[u8]) -> bool
    ensures { result ≡ (position_or_len (λ b. b == 92) text.now == 0) }
{
    match text {
        [byte, ..] => *byte == b'\\',
        [] => true,
    }
}

/// How many bytes of the first block are before its first backslash: all if it has none.
#[inline(always)]
fn run_in_block(text: &[u8]) -> usize
    requires { BLOCK ≤ length text.now }
    ensures { result ≡ position_or_len (λ b. b == 92) (take BLOCK text.now) }
{
    let marks = u8x16::from_slice(text)
        .simd_eq(u8x16::splat(b'\\'))
        .to_bitmask();
    if marks == 0 {
        BLOCK
    } else {
        marks.trailing_zeros() as usize
    }
}

/// How many bytes of a text are before its first backslash.
#[inline(never)]
fn run_length(text: &[u8]) -> usize
    ensures { result ≡ position_or_len (λ b. b == 92) text.now }
{
    memchr(b'\\', text).unwrap_or(text.len())
}

/// The text after the first byte that a text stands for.
#[tactic(auto, unfolding(crate::specs::Escapes::text_from))]
fn past_byte(text: &[u8]) -> Option<&[u8]>
    requires { 0 < length text.now }
    ensures rest { MatchOption result (text_of text.now ≡ None) (λ rest. is_some (text_of text.now) ≡ is_some (text_of rest.now)) }
    ensures shorter { IfSome result (λ rest. length rest.now < length text.now) }
{
    let (byte, rest) = cut_byte(text)?;
    if byte != b'\\' {
        return Some(rest);
    }
    let (_byte, after) = byte_of_escape(rest)?;
    Some(after)
}

/// The byte of the text after a backslash, and the text after that byte.
#[tactic(auto, using(crate::proofs::EscapeLemmas::after_backslash), unfolding(crate::specs::Escapes::text_from))]
fn byte_of_escape(text: &[u8]) -> Option<(u8, &[u8])>
    ensures byte { MatchOption result (GivesNoByte Backslash text.now) (λ p. GivesByte Backslash text.now p.0 p.1.now) }
    ensures shorter { IfSome result (λ p. length p.1.now < length text.now) }
{
    let (letter, rest) = cut_byte(text)?;
    if letter == b'x' {
        return byte_of_digits(rest);
    }
    Some((letter_value(letter)?, rest))
}

/// The byte of two hexadecimal digits, and the text after them.
#[tactic(auto, using(crate::proofs::EscapeLemmas::after_backslash), unfolding(crate::specs::Escapes::text_from))]
fn byte_of_digits(text: &[u8]) -> Option<(u8, &[u8])>
    ensures byte { MatchOption result (GivesNoByte NoDigit text.now) (λ p. GivesByte NoDigit text.now p.0 p.1.now) }
    ensures shorter { IfSome result (λ p. length p.1.now < length text.now) }
{
    let (high, rest) = cut_byte(text)?;
    let high = hex_value(high)?;
    let (low, rest) = cut_byte(rest)?;
    let low = hex_value(low)?;
    Some((16 * high + low, rest))
}

/// The first byte of a text, and the rest.
fn cut_byte(text: &[u8]) -> Option<(u8, &[u8])>
    ensures { MatchOption result (text.now ≡ []) (λ p. text.now ≡ p.0 ∷ p.1.now) }
{
    match text {
        [byte, rest @ ..] => Some((*byte, rest)),
        [] => None,
    }
}

/// The value of a hexadecimal digit.
pub fn hex_value(digit: u8) -> Option<u8>
    ensures value { result ≡ hex_value digit }
    ensures small { IfSome result (λ value. value < 16) }
{
    let value = DIGITS[digit as usize];
    if value < NO_DIGIT { Some(value) } else { None }
}

/// The byte that a letter after a backslash stands for.
fn letter_value(letter: u8) -> Option<u8>
    ensures { result ≡ letter_value letter }
{
    let byte = LETTERS[letter as usize];
    if byte == NO_LETTER { None } else { Some(byte) }
}
