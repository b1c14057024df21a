//! What the flag words of a meta command return in its answer, appended to a vector that has room.
ghost use Rattle.std.specs.Prelude.{◌≡◌, ◌+◌, ◌-◌, ◌^◌, ◌≤◌, ◌++◌, [], ◌∷◌, ℕ, List, min, length, drop, vec_len, vec_capacity};
ghost use Rattle.std.specs.Fmt.{decimal};
ghost use Rattle.mc_reply.specs.MetaSpelling.{key_flag_onto, number_flag_onto, left_onto, flag_onto, flags_onto};
ghost use Rattle.mc_reply.specs.MetaRooms.{word_room, flags_room};

use crate::replies::Shown;
use itoa::write_digits;
use mc_request::{Flag, flag_of};
use mc_text::{CODED_LIMIT, WordIter, append};

/// The most bytes that a number takes, with a space and its letter.
pub const NUMBER_FLAG_ROOM: usize = 22;

/// The most bytes that a key takes, with its spaces, its letter and a `b`.
pub const KEY_FLAG_ROOM: usize = 340;

/// Returns how many bytes flag words return in an answer at most; [`usize::MAX`] if that is more.
pub fn flags_room(flags: WordIter<'_>) -> usize
    ensures { result ≡ min (flags_room flags.entry) (2 ^ 64 - 1) }
{
    let mut room: usize = 0;
    for word in flags {
        room = room.saturating_add(word_room(word));
    }
    room
}

/// Returns how many bytes a flag word returns in an answer at most.
fn word_room(flag: &[u8]) -> usize
    ensures { result ≡ word_room flag.now }
{
    let Some((letter, token)) = flag.split_first() else {
        return 0;
    };
    match flag_of(*letter) {
        Some(Flag::Cas | Flag::ClientFlags | Flag::Size | Flag::Left) => NUMBER_FLAG_ROOM,
        Some(Flag::Key) => KEY_FLAG_ROOM,
        Some(Flag::Opaque) => token.len() + 2,
        _ => 0,
    }
}

/// Appends what the flag words return, in their order.
pub fn append_flags(out: &mut Vec<u8>, coded: bool, word: &[u8], flags: WordIter<'_>, shown: &Shown)
    requires room { vec_len out.old + flags_room flags ≤ vec_capacity out.old }
    requires word { length word.now ≤ CODED_LIMIT }
    ensures items { (rest : List ℕ)
        → out.new.items ++ rest ≡ out.old.items ++ flags_onto coded word.now shown.now flags.entry rest }
    ensures len { vec_len out.new ≤ vec_len out.old + flags_room flags.entry }
    ensures room { vec_capacity out.old ≤ vec_capacity out.new }
{
    for flag in flags {
        append_flag(out, coded, word, flag, shown);
    }
}

/// Appends what a flag word returns.
fn append_flag(out: &mut Vec<u8>, coded: bool, word: &[u8], flag: &[u8], shown: &Shown)
    requires room { vec_len out.old + word_room flag.now ≤ vec_capacity out.old }
    requires word { length word.now ≤ CODED_LIMIT }
    ensures items { (rest : List ℕ)
        → out.new.items ++ rest ≡ out.old.items ++ flag_onto coded word.now shown.now flag.now rest }
    ensures len { vec_len out.new ≤ vec_len out.old + word_room flag.now }
    ensures room { vec_capacity out.old ≤ vec_capacity out.new }
{
    let Some((letter, _)) = flag.split_first() else {
        return;
    };
    match flag_of(*letter) {
        Some(Flag::Cas) => append_if(out, b'c', shown.cas),
        Some(Flag::ClientFlags) => append_if(out, b'f', shown.flags.map(u64::from)),
        Some(Flag::Size) => append_if(out, b's', shown.size.map(|size| size as u64)),
        Some(Flag::Left) => append_left(out, shown.left),
        Some(Flag::Key) => append_key(out, coded, word),
        Some(Flag::Opaque) => {
            append(out, b" ");
            append(out, flag);
        }
        _ => {}
    }
}

/// Appends a key that a flag returns.
fn append_key(out: &mut Vec<u8>, coded: bool, word: &[u8])
    requires { vec_len out.old + length word.now + 4 ≤ vec_capacity out.old }
    ensures items { (rest : List ℕ) → out.new.items ++ rest ≡ out.old.items ++ key_flag_onto coded word.now rest }
    ensures len { vec_len out.new ≤ vec_len out.old + length word.now + 4 }
    ensures room { vec_capacity out.old ≤ vec_capacity out.new }
{
    append(out, b" k");
    append(out, word);
    if coded {
        append(out, b" b");
    }
}

/// Appends the seconds until expiry, if they are shown.
fn append_left(out: &mut Vec<u8>, left: Option<Option<u64>>)
    requires { vec_len out.old + NUMBER_FLAG_ROOM ≤ vec_capacity out.old }
    ensures items { (rest : List ℕ) → out.new.items ++ rest ≡ out.old.items ++ left_onto left rest }
    ensures len { vec_len out.new ≤ vec_len out.old + NUMBER_FLAG_ROOM }
    ensures room { vec_capacity out.old ≤ vec_capacity out.new }
{
    match left {
        None => {}
        Some(None) => append(out, b" t-1"),
        Some(Some(seconds)) => append_number(out, b't', seconds),
    }
}

/// Appends a number after a space and its letter, if it is shown.
fn append_if(out: &mut Vec<u8>, letter: u8, number: Option<u64>)
    requires { vec_len out.old + NUMBER_FLAG_ROOM ≤ vec_capacity out.old }
    ensures items { (rest : List ℕ) → out.new.items ++ rest ≡ out.old.items ++ number_flag_onto (32 ∷ letter ∷ []) number rest }
    ensures len { vec_len out.new ≤ vec_len out.old + NUMBER_FLAG_ROOM }
    ensures room { vec_capacity out.old ≤ vec_capacity out.new }
{
    if let Some(number) = number {
        append_number(out, letter, number);
    }
}

/// Appends a number after a space and its letter.
fn append_number(out: &mut Vec<u8>, letter: u8, number: u64)
    requires { vec_len out.old + NUMBER_FLAG_ROOM ≤ vec_capacity out.old }
    ensures items { out.new.items ≡ out.old.items ++ 32 ∷ letter ∷ decimal number }
    ensures len { vec_len out.new ≤ vec_len out.old + NUMBER_FLAG_ROOM }
    ensures room { vec_capacity out.old ≤ vec_capacity out.new }
{
    let mut text = [0; NUMBER_FLAG_ROOM];
    let start = put_number(&mut text, letter, number);
    append(out, &text[start..]);
}

/// Writes a space, a letter and a number in digits at the end of the bytes, and returns where they start.
fn put_number(text: &mut [u8; NUMBER_FLAG_ROOM], letter: u8, number: u64) -> usize
    ensures put { drop result text.new ≡ 32 ∷ letter ∷ decimal number }
    ensures inside { result ≤ NUMBER_FLAG_ROOM }
{
    let start = write_digits(number, text, NUMBER_FLAG_ROOM) - 2;
    text[start + 1] = letter;
    text[start] = b' ';
    start
}
