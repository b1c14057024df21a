//! The words of a command's line: their length, and how they are appended to a vector that has room for them.
ghost use Rattle.std.specs.Prelude.{◌≡◌, ◌+◌, ◌≤◌, ◌<◌, ◌++◌, length, vec_len, vec_capacity, codes};
ghost use Rattle.std.specs.Fmt.{decimal, signed_decimal};
ghost use Rattle.mc_text.specs.CodedKeys.{coded_of};
ghost use Rattle.mc_codec.specs.SpelledPieces.{piece_if, number_piece, signed_piece, creation_piece};

use itoa::Buffer;
use mc_request::Creation;
use mc_text::{CODED_LIMIT, Key, append, write_coded};

/// Returns how many digits a number has.
#[tactic(auto, using(crate::proofs::PieceLemmas::digits_by_four, crate::proofs::PieceLemmas::digits_bound))]
pub fn digits_len(number: u64) -> usize
    ensures len { result ≡ length (decimal number) }
    ensures bound { result ≤ 20 }
{
    let mut left = number;
    let mut len = 0;
    while left >= 10_000 {
        left /= 10_000;
        len += 4;
    }
    len + short_digits_len(left)
}

/// Returns how many digits a number below 10,000 has.
#[tactic(auto, using(crate::proofs::PieceLemmas::one_digit, crate::proofs::PieceLemmas::two_digits, crate::proofs::PieceLemmas::three_digits, crate::proofs::PieceLemmas::four_digits))]
fn short_digits_len(number: u64) -> usize
    requires { number < 10000 }
    ensures len { result ≡ length (decimal number) }
    ensures bound { result ≤ 4 }
{
    if number < 10 {
        1
    } else if number < 100 {
        2
    } else if number < 1_000 {
        3
    } else {
        4
    }
}

/// Returns how many bytes a number with a sign has.
pub fn signed_len(number: i64) -> usize
    ensures len { result ≡ length (signed_decimal number) }
    ensures bound { result ≤ 21 }
{
    let digits = digits_len(number.unsigned_abs());
    if number < 0 { digits + 1 } else { digits }
}

/// Returns how many bytes a word has if it is asked for, and 0 if not.
pub fn len_if(asked: bool, word: &[u8]) -> usize
    ensures { result ≡ length (piece_if asked word.now) }
{
    if asked { word.len() } else { 0 }
}

/// Returns how many bytes a number after its label has, and 0 if there is no number.
pub fn number_len_if(label: &[u8], number: Option<u64>) -> usize
    requires { length label.now ≤ 2 }
    ensures len { result ≡ length (number_piece label.now number) }
    ensures bound { result ≤ 22 }
{
    match number {
        None => 0,
        Some(number) => label.len() + digits_len(number),
    }
}

/// Returns how many bytes a number with a sign after its label has, and 0 if there is no number.
pub fn signed_len_if(label: &[u8], number: Option<i64>) -> usize
    requires { length label.now ≤ 2 }
    ensures len { result ≡ length (signed_piece label.now number) }
    ensures bound { result ≤ 23 }
{
    match number {
        None => 0,
        Some(number) => label.len() + signed_len(number),
    }
}

/// Returns how many bytes the item that `ma` creates has, or the statement that it creates none.
pub fn creation_len(create: Option<Creation>) -> usize
    ensures len { result ≡ length (creation_piece create) }
    ensures bound { result ≤ 45 }
{
    match create {
        None => b" J0".len(),
        Some(creation) => 4 + signed_len(creation.exptime) + digits_len(creation.initial),
    }
}

/// Returns how many bytes a key has in base64.
pub fn coded_len(key: &Key) -> usize
    ensures len { result ≡ length (coded_of key.now) }
    ensures bound { result ≤ CODED_LIMIT }
{
    (key.as_bytes().len() + 2) / 3 * 4
}

/// Appends a word after a space.
pub fn append_word(out: &mut Vec<u8>, word: &[u8])
    requires { vec_len out.old + length word.now + 1 ≤ vec_capacity out.old }
    ensures items { out.new.items ≡ out.old.items ++ (codes " " ++ word.now) }
    ensures len { vec_len out.new ≡ vec_len out.old + length word.now + 1 }
    ensures room { vec_capacity out.old ≤ vec_capacity out.new }
{
    append(out, b" ");
    append(out, word);
}

/// Appends a word if it is asked for.
pub fn append_if(out: &mut Vec<u8>, asked: bool, word: &[u8])
    requires { vec_len out.old + length (piece_if asked word.now) ≤ vec_capacity out.old }
    ensures items { out.new.items ≡ out.old.items ++ piece_if asked word.now }
    ensures len { vec_len out.new ≡ vec_len out.old + length (piece_if asked word.now) }
    ensures room { vec_capacity out.old ≤ vec_capacity out.new }
{
    if asked {
        append(out, word);
    }
}

/// Appends a number after its label.
pub fn append_number(out: &mut Vec<u8>, label: &[u8], number: u64)
    requires { vec_len out.old + length label.now + length (decimal number) ≤ vec_capacity out.old }
    ensures items { out.new.items ≡ out.old.items ++ (label.now ++ decimal number) }
    ensures len { vec_len out.new ≡ vec_len out.old + length label.now + length (decimal number) }
    ensures room { vec_capacity out.old ≤ vec_capacity out.new }
{
    let mut digits = Buffer::new();
    append(out, label);
    append(out, digits.format(number).as_bytes());
}

/// Appends a number with a sign after its label.
pub fn append_signed(out: &mut Vec<u8>, label: &[u8], number: i64)
    requires { vec_len out.old + length label.now + length (signed_decimal number) ≤ vec_capacity out.old }
    ensures items { out.new.items ≡ out.old.items ++ (label.now ++ signed_decimal number) }
    ensures len { vec_len out.new ≡ vec_len out.old + length label.now + length (signed_decimal number) }
    ensures room { vec_capacity out.old ≤ vec_capacity out.new }
{
    let mut digits = Buffer::new();
    append(out, label);
    append(out, digits.format(number).as_bytes());
}

/// Appends a number after its label, if there is a number.
pub fn append_number_if(out: &mut Vec<u8>, label: &[u8], number: Option<u64>)
    requires { vec_len out.old + length (number_piece label.now number) ≤ vec_capacity out.old }
    ensures items { out.new.items ≡ out.old.items ++ number_piece label.now number }
    ensures len { vec_len out.new ≡ vec_len out.old + length (number_piece label.now number) }
    ensures room { vec_capacity out.old ≤ vec_capacity out.new }
{
    if let Some(number) = number {
        append_number(out, label, number);
    }
}

/// Appends a number with a sign after its label, if there is a number.
pub fn append_signed_if(out: &mut Vec<u8>, label: &[u8], number: Option<i64>)
    requires { vec_len out.old + length (signed_piece label.now number) ≤ vec_capacity out.old }
    ensures items { out.new.items ≡ out.old.items ++ signed_piece label.now number }
    ensures len { vec_len out.new ≡ vec_len out.old + length (signed_piece label.now number) }
    ensures room { vec_capacity out.old ≤ vec_capacity out.new }
{
    if let Some(number) = number {
        append_signed(out, label, number);
    }
}

/// Appends the item that `ma` creates, or the statement that it creates none.
pub fn append_creation(out: &mut Vec<u8>, create: Option<Creation>)
    requires { vec_len out.old + length (creation_piece create) ≤ vec_capacity out.old }
    ensures items { out.new.items ≡ out.old.items ++ creation_piece create }
    ensures len { vec_len out.new ≡ vec_len out.old + length (creation_piece create) }
    ensures room { vec_capacity out.old ≤ vec_capacity out.new }
{
    match create {
        None => append(out, b" J0"),
        Some(creation) => {
            append_signed(out, b" N", creation.exptime);
            append_number(out, b" J", creation.initial);
        }
    }
}

/// Appends a name and a key in base64.
#[inline(never)]
pub fn append_coded(out: &mut Vec<u8>, name: &[u8], key: &Key)
    requires { vec_len out.old + length name.now + length (coded_of key.now) ≤ vec_capacity out.old }
    ensures items { out.new.items ≡ out.old.items ++ (name.now ++ coded_of key.now) }
    ensures len { vec_len out.new ≡ vec_len out.old + length name.now + length (coded_of key.now) }
    ensures room { vec_capacity out.old ≤ vec_capacity out.new }
{
    let mut room = [0; CODED_LIMIT];
    append(out, name);
    append(out, write_coded(key.as_bytes(), &mut room));
}
