//! The line of a command: its length, and how it is appended to a vector that has room for it.
ghost use Rattle.std.specs.Prelude.{◌≡◌, ◌+◌, ◌≤◌, ◌<◌, ◌++◌, ◌∷◌, [], length, vec_len, vec_capacity, codes};
ghost use Rattle.std.specs.Fmt.{decimal, signed_decimal};
ghost use Rattle.mc_codec.specs.Spellings.{store_name, count_name, number_if, get_words, update_words, spaced};
ghost use Rattle.mc_codec.specs.SpelledPieces.{after_spaces};

use crate::spelled_words::{
    append_number, append_number_if, append_signed, append_word, digits_len, number_len_if,
    signed_len,
};
use mc_request::{Direction, StoreMode, Update};
use mc_text::{Block, Key, append};

/// Returns the name of a storage command.
pub fn store_name(mode: StoreMode, compare: Option<u64>) -> &'static [u8]
    ensures name { result.now ≡ store_name mode compare }
    ensures short { length result.now ≤ 7 }
{
    match (mode, compare) {
        (StoreMode::Set, None) => b"set",
        (StoreMode::Set, Some(_)) => b"cas",
        (StoreMode::Add, _) => b"add",
        (StoreMode::Replace, _) => b"replace",
        (StoreMode::Append, _) => b"append",
        (StoreMode::Prepend, _) => b"prepend",
    }
}

/// Returns the name of a count.
fn count_name(direction: Direction) -> &'static [u8]
    ensures name { result.now ≡ count_name direction }
    ensures short { length result.now ≡ 4 }
{
    match direction {
        Direction::Up => b"incr",
        Direction::Down => b"decr",
    }
}

/// Returns how many bytes the line of a retrieval command on one key has.
pub fn get_len(key: &Key, exptime: Option<i64>, with_cas: bool) -> usize
    ensures len { result ≡ length (spaced (get_words key.now exptime with_cas)) }
    ensures bound { result ≤ 1000 }
{
    let key_len = key.as_bytes().len();
    match (exptime, with_cas) {
        (None, false) => 4 + key_len,
        (None, true) => 5 + key_len,
        (Some(exptime), false) => 5 + signed_len(exptime) + key_len,
        (Some(exptime), true) => 6 + signed_len(exptime) + key_len,
    }
}

/// Appends the line of a retrieval command on one key.
pub fn append_get(out: &mut Vec<u8>, key: &Key, exptime: Option<i64>, with_cas: bool)
    requires { vec_len out.old + length (spaced (get_words key.now exptime with_cas)) ≤ vec_capacity out.old }
    ensures items { out.new.items ≡ out.old.items ++ spaced (get_words key.now exptime with_cas) }
    ensures len { vec_len out.new ≡ vec_len out.old + length (spaced (get_words key.now exptime with_cas)) }
    ensures room { vec_capacity out.old ≤ vec_capacity out.new }
{
    let key = key.as_bytes();
    match (exptime, with_cas) {
        (None, false) => append_named(out, b"get ", key),
        (None, true) => append_named(out, b"gets ", key),
        (Some(exptime), false) => append_dated(out, b"gat", exptime, key),
        (Some(exptime), true) => append_dated(out, b"gats", exptime, key),
    }
}

/// Appends a name, which ends in a space, and a key.
fn append_named(out: &mut Vec<u8>, name: &[u8], key: &[u8])
    requires { vec_len out.old + length name.now + length key.now ≤ vec_capacity out.old }
    ensures items { out.new.items ≡ out.old.items ++ (name.now ++ key.now) }
    ensures len { vec_len out.new ≡ vec_len out.old + length name.now + length key.now }
    ensures room { vec_capacity out.old ≤ vec_capacity out.new }
{
    append(out, name);
    append(out, key);
}

/// Appends a name, an exptime and a key.
fn append_dated(out: &mut Vec<u8>, name: &[u8], exptime: i64, key: &[u8])
    requires { vec_len out.old + length name.now + 2 + length (signed_decimal exptime) + length key.now ≤ vec_capacity out.old }
    ensures items { out.new.items
        ≡ out.old.items ++ (name.now ++ (codes " " ++ (signed_decimal exptime ++ (codes " " ++ key.now)))) }
    ensures len { vec_len out.new ≡ vec_len out.old + length name.now + 2 + length (signed_decimal exptime) + length key.now }
    ensures room { vec_capacity out.old ≤ vec_capacity out.new }
{
    append(out, name);
    append_signed(out, b" ", exptime);
    append_word(out, key);
}

/// Returns how many bytes the line of an update has.
pub fn update_len(update: &Update<Key, Block>) -> usize
    ensures len { result ≡ length (spaced (update_words update.now)) }
    ensures bound { result ≤ 1000 }
{
    match update {
        Update::Store {
            mode,
            compare,
            key,
            flags,
            exptime,
            block,
        } => {
            let block = block.as_slice();
            store_name(*mode, *compare).len() + stored_len(key, *flags, *exptime, block, *compare)
        }
        Update::Touch { key, exptime } => 7 + key.as_bytes().len() + signed_len(*exptime),
        Update::Delete { key, .. } => 7 + key.as_bytes().len(),
        Update::Count { key, counting } => 6 + key.as_bytes().len() + digits_len(counting.delta),
        Update::FlushAll { delay } => 10 + signed_len(*delay),
    }
}

/// Returns how many bytes the words after the name of a storage command have.
pub fn stored_len(key: &Key, flags: u32, exptime: i64, block: &[u8], compare: Option<u64>) -> usize
    ensures len { result ≡ length (after_spaces (key.now ∷ decimal flags ∷ signed_decimal exptime ∷ decimal (length block.now) ∷ number_if [] compare [])) }
    ensures bound { result ≤ 400 }
{
    4 + key.as_bytes().len()
        + digits_len(u64::from(flags))
        + signed_len(exptime)
        + digits_len(block.len() as u64)
        + number_len_if(b" ", compare)
}

/// Appends the line of an update.
pub fn append_update(out: &mut Vec<u8>, update: &Update<Key, Block>)
    requires { vec_len out.old + length (spaced (update_words update.now)) ≤ vec_capacity out.old }
    ensures items { out.new.items ≡ out.old.items ++ spaced (update_words update.now) }
    ensures len { vec_len out.new ≡ vec_len out.old + length (spaced (update_words update.now)) }
    ensures room { vec_capacity out.old ≤ vec_capacity out.new }
{
    match update {
        Update::Store {
            mode,
            compare,
            key,
            flags,
            exptime,
            block,
        } => {
            append(out, store_name(*mode, *compare));
            append_stored(out, key, *flags, *exptime, block.as_slice(), *compare);
        }
        Update::Touch { key, exptime } => {
            append_named(out, b"touch ", key.as_bytes());
            append_signed(out, b" ", *exptime);
        }
        Update::Delete { key, .. } => append_named(out, b"delete ", key.as_bytes()),
        Update::Count { key, counting } => {
            append(out, count_name(counting.direction));
            append_word(out, key.as_bytes());
            append_number(out, b" ", counting.delta);
        }
        Update::FlushAll { delay } => append_signed(out, b"flush_all ", *delay),
    }
}

/// Appends the words after the name of a storage command.
pub fn append_stored(
    out: &mut Vec<u8>,
    key: &Key,
    flags: u32,
    exptime: i64,
    block: &[u8],
    compare: Option<u64>,
)
    requires { vec_len out.old + length (after_spaces (key.now ∷ decimal flags ∷ signed_decimal exptime ∷ decimal (length block.now) ∷ number_if [] compare [])) ≤ vec_capacity out.old }
    ensures items { out.new.items ≡ out.old.items
        ++ after_spaces (key.now ∷ decimal flags ∷ signed_decimal exptime ∷ decimal (length block.now) ∷ number_if [] compare []) }
    ensures len { vec_len out.new ≡ vec_len out.old
        + length (after_spaces (key.now ∷ decimal flags ∷ signed_decimal exptime ∷ decimal (length block.now) ∷ number_if [] compare [])) }
    ensures room { vec_capacity out.old ≤ vec_capacity out.new }
{
    append_word(out, key.as_bytes());
    append_number(out, b" ", u64::from(flags));
    append_signed(out, b" ", exptime);
    append_number(out, b" ", block.len() as u64);
    append_number_if(out, b" ", compare);
}
