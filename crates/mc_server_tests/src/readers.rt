//! What a reader keeps of a refused block, and what it returns of a large one.

use crate::fixture_texts::with_value;
use mc_request::ReadError;
use mc_request_reader::{ApartReader, Look, Next, Peek, REQUEST_LIMIT, Reader, TakenSet};
use std::test::Fail;

/// 3,000,000 bytes.
const SIXTEENS: usize = 187_500;

/// The line of the largest block that a line can announce, and 3,000,000 bytes of the block in one piece. The block is refused,
/// and is not kept until its end arrives.
#[test]
fn a_refused_block_is_not_kept(rt: HostRuntime) -> Result<(), Fail> {
    let piece = with_value(rt.alloc(), b"set a 0 0 2147483647\r\n", SIXTEENS, b"")?;
    let mut reader = Reader::new(rt.alloc());
    reader.feed(&piece)?;
    let waits = matches!(reader.next()?, Next::More);
    assert!(rt; waits && reader.held() < REQUEST_LIMIT);
    Ok(())
}

/// 6,400 bytes.
const LARGE: usize = 400;

/// The two pieces in which a text arrives, the first of 2,000 bytes.
fn pieces(text: &[u8]) -> (&[u8], &[u8]) {
    text.split_at(text.len().min(2_000))
}

/// Feeds a text in two pieces, and returns whether the reader waits between them.
fn waits_between(reader: &mut ApartReader, text: &[u8]) -> Result<bool, ReadError> {
    let (front, rest) = pieces(text);
    reader.feed(front)?;
    let waits = waits(reader);
    reader.feed(rest)?;
    Ok(waits)
}

/// Whether a reader hands no set out, and waits for more.
fn waits(reader: &mut ApartReader) -> bool {
    !reader.has_set() && reader.take_set().is_none() && matches!(reader.peek(), Peek::More)
}

/// Whether a set is the one that was sent, with this value.
fn is_sent(set: &TakenSet, value: &[u8]) -> bool {
    set.key.as_bytes() == b"a".as_slice()
        && set.flags == 7
        && set.exptime == -1
        && set.noreply
        && set.block.as_slice() == value
}

/// Whether a reader hands a set out with this value, and then waits for more.
fn hands_out(reader: &mut ApartReader, value: &[u8]) -> bool {
    let has_set = reader.has_set();
    let is_sent = match reader.take_set() {
        Some(set) => is_sent(&set, value),
        None => false,
    };
    has_set && is_sent && waits(reader)
}

/// A large `set` that arrives in two pieces: it is returned once, when it is whole.
#[test]
fn a_large_set_is_handed_out(rt: HostRuntime) -> Result<(), Fail> {
    let text = with_value(rt.alloc(), b"set a 7 -1 6400 noreply\r\n", LARGE, b"\r\n")?;
    let value = text.as_slice().get(25..6_425).unwrap_or_default();
    let mut reader = ApartReader::new(rt.alloc());
    let waits = waits_between(&mut reader, &text)?;
    assert!(rt; waits && hands_out(&mut reader, value));
    Ok(())
}

/// Whether a reader hands no set out, but lends its first request, with these bytes after it.
fn lends(reader: &mut ApartReader, after: &[u8]) -> bool {
    let is_handed_out = reader.has_set() || reader.take_set().is_some();
    let Peek::First(_, front) = reader.peek() else {
        return false;
    };
    reader.consume(front);
    !is_handed_out && matches!(reader.look(), Look::Get(_)) && reader.unread() == after
}

/// A large `set` whose last piece has another request after it: it is borrowed.
#[test]
fn a_large_set_with_a_get_after_it_is_lent(rt: HostRuntime) -> Result<(), Fail> {
    let text = with_value(rt.alloc(), b"set a 7 0 6400\r\n", LARGE, b"\r\nget a\r\n")?;
    let (front, rest) = pieces(&text);
    let mut reader = ApartReader::new(rt.alloc());
    reader.feed(front)?;
    reader.feed(rest)?;
    assert!(rt; lends(&mut reader, b"get a\r\n"));
    Ok(())
}
