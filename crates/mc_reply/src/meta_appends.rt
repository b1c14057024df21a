//! The answer to a meta command, appended to a vector that has room for it.
ghost use Rattle.std.specs.Prelude.{◌≡◌, ◌+◌, ◌≤◌, ◌++◌, false, length, drop, vec_len, vec_capacity, codes};
ghost use Rattle.std.specs.Fmt.{decimal};
ghost use Rattle.mc_reply.specs.Spelling.{is_fault};
ghost use Rattle.mc_reply.specs.MetaSpelling.{flags_onto, marks_onto, meta_by};
ghost use Rattle.mc_reply.specs.MetaRooms.{flags_room};
ghost use Rattle.mc_reply.specs.Seen.{bytes_seen, value_len};

use crate::flag_appends::append_flags;
use crate::replies::{Marks, Reply, Shown};
use itoa::write_digits;
use mc_text::{CODED_LIMIT, WordIter, append};

/// The most bytes that an answer has beside what its flag words return and its value. It has 31.
pub const BESIDE_FLAGS_ROOM: usize = 32;

/// The most bytes of `VA`, a space and a number.
const SIZE_LEN: usize = 23;

/// Appends the answer to a meta command by the word of its key and its flag words. An error line contains none of them.
pub fn append_meta(
    out: &mut Vec<u8>,
    coded: bool,
    word: &[u8],
    flags: WordIter<'_>,
    reply: &Reply<&[u8]>,
)
    requires room { vec_len out.old + flags_room flags + value_len (bytes_seen reply.now) + BESIDE_FLAGS_ROOM ≤ vec_capacity out.old }
    requires word { length word.now ≤ CODED_LIMIT }
    requires done { is_fault (bytes_seen reply.now) ≡ false }
    ensures items { out.new.items ≡ out.old.items ++ meta_by coded word.now flags.entry (bytes_seen reply.now) }
    ensures len { vec_len out.new
        ≤ vec_len out.old + flags_room flags.entry + value_len (bytes_seen reply.now) + BESIDE_FLAGS_ROOM }
    ensures room { vec_capacity out.old ≤ vec_capacity out.new }
{
    match reply {
        Reply::Meta { shown, value: None } => append_line(out, b"HD", coded, word, flags, shown),
        Reply::Meta {
            shown,
            value: Some(value),
        } => append_value(out, coded, word, flags, shown, value),
        Reply::Miss => append(out, b"EN\r\n"),
        Reply::NotStored => append_line(out, b"NS", coded, word, flags, &Shown::nothing()),
        Reply::Exists => append_line(out, b"EX", coded, word, flags, &Shown::nothing()),
        Reply::NotFound => append_line(out, b"NF", coded, word, flags, &Shown::nothing()),
        _ => {}
    }
}

/// Appends a line: a code, what the flag words return, the marks.
fn append_line(
    out: &mut Vec<u8>,
    code: &[u8],
    coded: bool,
    word: &[u8],
    flags: WordIter<'_>,
    shown: &Shown,
)
    requires room { vec_len out.old + length code.now + flags_room flags + 6 ≤ vec_capacity out.old }
    requires word { length word.now ≤ CODED_LIMIT }
    ensures items { out.new.items ≡ out.old.items
        ++ (code.now ++ flags_onto coded word.now shown.now flags.entry (marks_onto shown.now.marks (codes "\r\n"))) }
    ensures len { vec_len out.new ≤ vec_len out.old + length code.now + flags_room flags.entry + 6 }
    ensures room { vec_capacity out.old ≤ vec_capacity out.new }
{
    append(out, code);
    append_flags(out, coded, word, flags, shown);
    append(out, marks_end(shown.marks));
}

/// Appends a line with the size of a value, and the value.
fn append_value(
    out: &mut Vec<u8>,
    coded: bool,
    word: &[u8],
    flags: WordIter<'_>,
    shown: &Shown,
    value: &[u8],
)
    requires room { vec_len out.old + flags_room flags + length value.now + BESIDE_FLAGS_ROOM ≤ vec_capacity out.old }
    requires word { length word.now ≤ CODED_LIMIT }
    ensures items { out.new.items ≡ out.old.items ++ (codes "VA " ++ (decimal (length value.now)
        ++ flags_onto coded word.now shown.now flags.entry (marks_onto shown.now.marks (codes "\r\n" ++ (value.now ++ codes "\r\n"))))) }
    ensures len { vec_len out.new ≤ vec_len out.old + flags_room flags.entry + length value.now + BESIDE_FLAGS_ROOM }
    ensures room { vec_capacity out.old ≤ vec_capacity out.new }
{
    append_size(out, value.len());
    append_flags(out, coded, word, flags, shown);
    append(out, marks_end(shown.marks));
    append(out, value);
    append(out, b"\r\n");
}

/// Appends `VA` and the size of a value.
fn append_size(out: &mut Vec<u8>, size: usize)
    requires { vec_len out.old + SIZE_LEN ≤ vec_capacity out.old }
    ensures items { out.new.items ≡ out.old.items ++ (codes "VA " ++ decimal size) }
    ensures len { vec_len out.new ≤ vec_len out.old + SIZE_LEN }
    ensures room { vec_capacity out.old ≤ vec_capacity out.new }
{
    let mut text = [0; SIZE_LEN];
    let start = put_size(&mut text, size);
    append(out, &text[start..]);
}

/// Writes `VA` and a number in digits at the end of the bytes, and returns where they start.
fn put_size(text: &mut [u8; SIZE_LEN], size: usize) -> usize
    ensures put { drop result text.new ≡ codes "VA " ++ decimal size }
    ensures inside { result ≤ SIZE_LEN }
{
    let start = write_digits(size as u64, text, SIZE_LEN) - 3;
    text[start + 2] = b' ';
    text[start + 1] = b'A';
    text[start] = b'V';
    start
}

/// Returns the marks, and the end of the line after them.
fn marks_end(marks: Marks) -> &'static [u8]
    ensures end { result.now ≡ marks_onto marks (codes "\r\n") }
    ensures short { length result.now ≤ 6 }
{
    match marks {
        Marks::Plain => b"\r\n",
        Marks::Won => b" W\r\n",
        Marks::WonStale => b" W X\r\n",
        Marks::StaleSent => b" X Z\r\n",
        Marks::Sent => b" Z\r\n",
    }
}
