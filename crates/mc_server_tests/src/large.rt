//! The answers to a client that stores large values and is shown them, by a server some of whose calls are refused memory.
//!
//! Without memory in reserve a call that is refused is made again. With a reserve no call of the server has to be made again.
//! `tests/gate/refused.py` refuses each allocation in turn.

use crate::fixture_texts::with_value;
use crate::meagre::MeagreStore;
use crate::servers::{MOMENT, WIDE, new_server};
use mc_server::{AnswerLimit, Limited, Server, ServerError, Turn};
use mc_stream::NoWriter;
use std::alloc::{AllocError, Global};
use std::test::Fail;

/// How many bytes a piece of a client's text has at most: less than a data block.
const PIECE: usize = 20_000;

/// How many times 16 bytes a value has: it has 65,536, so it is kept apart as it arrives, and is sent from where it is stored.
const SIXTEENS: usize = 4_096;

/// More requests than a client here sends at a time.
const MANY: usize = 20;

/// The bytes before the value and after it, if it is shown: with ample memory; then with one store refused.
const SHOWN: [(&[u8], &[u8]); 3] = [
    (
        b"STORED\r\nSTORED\r\nVALUE a 0 65536\r\n",
        b"\r\nEND\r\nSTORED\r\n",
    ),
    (
        b"SERVER_ERROR out of memory storing object\r\nSTORED\r\nVALUE a 0 65536\r\n",
        b"\r\nEND\r\nSTORED\r\n",
    ),
    (
        b"STORED\r\nSTORED\r\nVALUE a 0 65536\r\n",
        b"\r\nEND\r\nSERVER_ERROR out of memory storing object\r\n",
    ),
];

/// The answers if memory is short from the first data block on, and until the reserve is whole again.
const SHORT: &[u8] =
    b"SERVER_ERROR out of memory storing object\r\nSERVER_ERROR out of memory storing object\r\nEND\r\nSTORED\r\n";

fn text(alloc: Global, before: &[u8], after: &[u8]) -> Result<Vec<u8>, AllocError> {
    again!(with_value(alloc, before, SIXTEENS, after))
}

fn admit(server: &mut Server<MeagreStore>) -> Result<u64, ServerError> {
    again!(server.admit())
}

fn keep_reserve(server: &mut Server<MeagreStore>, bytes: usize) -> Result<(), ServerError> {
    again!(server.keep_reserve(bytes))
}

fn feed(
    server: &mut Server<MeagreStore>,
    number: u64,
    piece: &[u8],
    tries: usize,
) -> Result<(), ServerError> {
    for _ in 1..tries {
        if let Ok(()) = server.feed(number, piece) {
            return Ok(());
        }
    }
    server.feed(number, piece)
}

fn turn_once(server: &mut Server<MeagreStore>, number: u64) -> Result<Limited, ServerError> {
    let mut went = 0;
    let mut work = 0;
    server.turn_gathering(
        number,
        MOMENT,
        AnswerLimit::none(),
        &mut NoWriter,
        &mut went,
        &mut work,
    )
}

fn turn(
    server: &mut Server<MeagreStore>,
    number: u64,
    tries: usize,
) -> Result<Limited, ServerError> {
    for _ in 1..tries {
        if let Ok(limited) = turn_once(server, number) {
            return Ok(limited);
        }
    }
    turn_once(server, number)
}

/// Feeds a text in pieces, and takes each request once it is whole. Each call is tried at most this many times.
fn say(
    server: &mut Server<MeagreStore>,
    number: u64,
    text: &[u8],
    tries: usize,
) -> Result<(), ServerError> {
    for piece in text.chunks(PIECE) {
        feed(server, number, piece, tries)?;
        for _ in 0..MANY {
            if turn(server, number, tries)? != Limited::Turned(Turn::Took) {
                break;
            }
        }
    }
    Ok(())
}

/// The dialogue of a client with a server that keeps this number of bytes in reserve: two `set`s of one key, a `get` of it, and a `set` of another
/// key once the reserve is whole.
fn talk(
    server: &mut Server<MeagreStore>,
    set: &[u8],
    reserve: usize,
    tries: usize,
) -> Result<u64, ServerError> {
    keep_reserve(server, reserve)?;
    let number = admit(server)?;
    say(server, number, set, tries)?;
    say(server, number, set, tries)?;
    say(server, number, b"get a\r\n", tries)?;
    keep_reserve(server, reserve)?;
    say(server, number, b"set b 0 0 1\r\nx\r\n", tries)?;
    Ok(number)
}

/// Whether the output shows the value, with at most one store refused.
fn is_shown(alloc: Global, output: &[u8]) -> Result<bool, AllocError> {
    for (before, after) in SHOWN {
        if output == text(alloc, before, after)?.as_slice() {
            return Ok(true);
        }
    }
    Ok(false)
}

/// A server without a reserve answers as with ample memory, or as with one store refused.
#[test]
fn large_values_are_stored_all_the_same(rt: HostRuntime) -> Result<(), Fail> {
    let alloc = rt.alloc();
    let set = text(alloc, b"set a 0 0 65536\r\n", b"\r\n")?;
    let mut server = new_server(alloc, WIDE)?;
    let number = talk(&mut server, &set, 0, 4)?;
    assert!(rt; is_shown(alloc, server.output(number))?);
    Ok(())
}

/// With a reserve each call is made once. If a call needs the reserve, missing keys are refused until it is whole again.
#[test]
fn a_reserve_serves_what_is_refused(rt: HostRuntime) -> Result<(), Fail> {
    let alloc = rt.alloc();
    let set = text(alloc, b"set a 0 0 65536\r\n", b"\r\n")?;
    let mut server = new_server(alloc, WIDE)?;
    let number = talk(&mut server, &set, 65_536, 1)?;
    let output = server.output(number);
    assert!(rt; output == SHORT || is_shown(alloc, output)?);
    Ok(())
}
