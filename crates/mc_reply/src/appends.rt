//! Appending the parts of an answer to a vector that has room for them.
ghost use Rattle.std.specs.Prelude.{◌≡◌, ◌+◌, ◌≤◌, ◌++◌, length, drop, vec_len, vec_capacity, codes};
ghost use Rattle.std.specs.Fmt.{decimal};
ghost use Rattle.mc_request.specs.Faults.{fault_line};
ghost use Rattle.mc_reply.specs.Spelling.{number_onto, cas_onto, head_line, key_part, reply_line};
ghost use Rattle.mc_reply.specs.Seen.{bytes_seen, value_len};

use crate::replies::Reply;
use itoa::{Buffer, write_digits};
use mc_request::Fault;
use mc_text::append;

/// The most bytes that the line of a reply has. The longest has 62.
pub const LINE_ROOM: usize = 64;

/// The most bytes that a found item adds beside its key and its value. It adds 73 at most.
pub const BLOCK_ROOM: usize = 80;

/// The most bytes that the line of a found item has beside its key. It has 71 at most.
const HEAD_ROOM: usize = 72;

/// The most bytes of a space and a number.
const NUMBER_LEN: usize = 21;

/// The most bytes of three numbers, each after a space, and a line end.
const NUMBERS_LEN: usize = 65;

/// Appends the line of a reply.
pub fn append_reply_line(out: &mut Vec<u8>, reply: &Reply<&[u8]>)
    requires { vec_len out.old + LINE_ROOM ≤ vec_capacity out.old }
    ensures items { out.new.items ≡ out.old.items ++ reply_line (bytes_seen reply.now) }
    ensures len { vec_len out.new ≤ vec_len out.old + LINE_ROOM }
    ensures room { vec_capacity out.old ≤ vec_capacity out.new }
{
    match reply {
        Reply::Number(number) => append_number_line(out, *number),
        Reply::Stored => append(out, b"STORED\r\n"),
        Reply::NotStored => append(out, b"NOT_STORED\r\n"),
        Reply::Exists => append(out, b"EXISTS\r\n"),
        Reply::NotFound => append(out, b"NOT_FOUND\r\n"),
        Reply::Deleted => append(out, b"DELETED\r\n"),
        Reply::Touched => append(out, b"TOUCHED\r\n"),
        Reply::Flushed => append(out, b"OK\r\n"),
        Reply::Miss | Reply::Hit { .. } | Reply::Meta { .. } => {}
        Reply::Fault(fault) => append(out, short_line(*fault)),
    }
}

/// Appends a number in digits, and a line end.
fn append_number_line(out: &mut Vec<u8>, number: u64)
    requires { vec_len out.old + 22 ≤ vec_capacity out.old }
    ensures items { out.new.items ≡ out.old.items ++ (decimal number ++ codes "\r\n") }
    ensures len { vec_len out.new ≤ vec_len out.old + 22 }
    ensures room { vec_capacity out.old ≤ vec_capacity out.new }
{
    let mut digits = Buffer::new();
    append(out, digits.format(number).as_bytes());
    append(out, b"\r\n");
}

/// Returns a fault's line, which is short.
pub fn short_line(fault: Fault) -> &'static [u8]
    ensures line { result.now ≡ fault_line fault }
    ensures short { length result.now ≤ LINE_ROOM }
{
    fault.line()
}

/// Appends what a key of a retrieval command adds: the item if it is found, and nothing if it is not.
pub fn append_key_part(out: &mut Vec<u8>, key: &[u8], reply: &Reply<&[u8]>)
    requires { vec_len out.old + length key.now + value_len (bytes_seen reply.now) + BLOCK_ROOM ≤ vec_capacity out.old }
    ensures items { out.new.items ≡ out.old.items ++ key_part key.now (bytes_seen reply.now) }
    ensures len { vec_len out.new
        ≤ vec_len out.old + length key.now + value_len (bytes_seen reply.now) + BLOCK_ROOM }
    ensures room { vec_capacity out.old ≤ vec_capacity out.new }
{
    let Reply::Hit { flags, cas, value } = reply else {
        return;
    };
    append_head(out, key, *flags, value.len(), *cas);
    append(out, value);
    append(out, b"\r\n");
}

/// Appends the line of a found item, which is in front of its value, by the value's length.
#[inline(always)]
pub fn append_head(out: &mut Vec<u8>, key: &[u8], flags: u32, bytes: usize, cas: Option<u64>)
    requires { vec_len out.old + length key.now + HEAD_ROOM ≤ vec_capacity out.old }
    ensures items { out.new.items ≡ out.old.items ++ head_line key.now flags bytes cas }
    ensures len { vec_len out.new ≤ vec_len out.old + length key.now + HEAD_ROOM }
    ensures room { vec_capacity out.old ≤ vec_capacity out.new }
{
    let mut numbers = [0; NUMBERS_LEN];
    let start = put_numbers(&mut numbers, flags, bytes, cas);
    append(out, b"VALUE ");
    append(out, key);
    append(out, &numbers[start..]);
}

/// Writes the numbers of a value line, and its end, at the end of the bytes, and returns where they start.
#[inline(always)]
fn put_numbers(numbers: &mut [u8; NUMBERS_LEN], flags: u32, bytes: usize, cas: Option<u64>) -> usize
    ensures put { drop result numbers.new
        ≡ number_onto flags (number_onto bytes (cas_onto cas (codes "\r\n"))) }
    ensures inside { result ≤ NUMBERS_LEN }
{
    let end = put_line_end(numbers);
    let cas_start = put_cas(numbers, cas, end);
    let bytes_start = put_number(numbers, bytes as u64, cas_start);
    put_number(numbers, u64::from(flags), bytes_start)
}

/// Writes a line end at the end of the bytes, and returns where it starts.
#[inline(always)]
fn put_line_end(numbers: &mut [u8; NUMBERS_LEN]) -> usize
    ensures put { drop result numbers.new ≡ codes "\r\n" }
    ensures start { result + 2 ≡ NUMBERS_LEN }
{
    numbers[NUMBERS_LEN - 1] = b'\n';
    numbers[NUMBERS_LEN - 2] = b'\r';
    NUMBERS_LEN - 2
}

/// Writes an item's number, if it was asked for, so that it ends at `end`, and returns where it starts.
#[inline(always)]
fn put_cas(numbers: &mut [u8; NUMBERS_LEN], cas: Option<u64>, end: usize) -> usize
    requires { (NUMBER_LEN ≤ end) × (end ≤ NUMBERS_LEN) }
    ensures put { drop result numbers.new ≡ cas_onto cas (drop end numbers.old) }
    ensures start { end ≤ result + NUMBER_LEN }
    ensures inside { result ≤ end }
{
    match cas {
        Some(number) => put_number(numbers, number, end),
        None => end,
    }
}

/// Writes a space and a number in digits, so that they end at `end`, and returns where they start.
fn put_number(numbers: &mut [u8; NUMBERS_LEN], number: u64, end: usize) -> usize
    requires { (NUMBER_LEN ≤ end) × (end ≤ NUMBERS_LEN) }
    ensures put { drop result numbers.new ≡ number_onto number (drop end numbers.old) }
    ensures start { end ≤ result + NUMBER_LEN }
    ensures inside { result ≤ end }
{
    let start = write_digits(number, numbers, end) - 1;
    numbers[start] = b' ';
    start
}
