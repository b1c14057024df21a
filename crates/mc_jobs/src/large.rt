//! Sessions and rendered pages: sets and gets of values of 2,000 to 500,000 bytes.

use crate::Played;
use crate::errors::JobError;
use crate::keys::{Stock, append_key, append_number, by_rank, large_len};
use crate::randoms::Random;
use crate::served::Served;
use std::alloc::{AllocError, Global};

/// How many requests there are.
const REQUESTS: u64 = 400_000;

const ITEMS: usize = 100_000;

/// The budget of the server in bytes, at which it is full.
const BUDGET: u64 = 67_108_864;

/// There are 2^`KEY_BITS` keys.
const KEY_BITS: u32 = 12;

const CLIENTS: u64 = 20;

/// The most bytes of a piece, as a read from a socket gives them.
const PIECE: usize = 65_536;

/// The most bytes of a piece of some clients: what one packet carries.
const PACKET: usize = 1_448;

/// Plays gets and sets, three gets to a set. One client in four sends its bytes by packets.
pub fn play(alloc: Global, mut random: Random, parts: u64) -> Result<Played, JobError> {
    let mut line = Vec::new(alloc);
    let mut stock = Stock::new(alloc, &mut random)?;
    let mut served = Served::new(alloc, BUDGET, ITEMS, CLIENTS)?;
    let asked = REQUESTS / parts.max(1);
    for _ in 0..asked {
        play_request(&mut served, &mut random, &mut stock, &mut line)?;
    }
    Ok(Played {
        asked,
        digest: served.digest.value(),
    })
}

/// Plays a get or a set of a client.
fn play_request(
    served: &mut Served,
    random: &mut Random,
    stock: &mut Stock,
    line: &mut Vec<u8>,
) -> Result<(), JobError> {
    let client = random.below(CLIENTS);
    let piece = if client % 4 == 0 { PACKET } else { PIECE };
    let key = by_rank(random.ranked(KEY_BITS), KEY_BITS);
    line.clear();
    if !random.one_in(4) {
        append_get(line, key)?;
        return served.hear(client, line.as_slice());
    }
    let len = large_len(random);
    append_set_line(line, key, len)?;
    let text = stock.framed(random, line.as_slice(), len);
    served.hear_in_pieces(client, text, piece)
}

fn append_get(line: &mut Vec<u8>, key: u64) -> Result<(), AllocError> {
    line.extend_from_slice(b"get ")?;
    append_key(line, key)?;
    line.extend_from_slice(b"\r\n")
}

fn append_set_line(line: &mut Vec<u8>, key: u64, len: usize) -> Result<(), AllocError> {
    line.extend_from_slice(b"set ")?;
    append_key(line, key)?;
    line.extend_from_slice(b" 0 0 ")?;
    append_number(line, len as u64)?;
    line.extend_from_slice(b"\r\n")
}
