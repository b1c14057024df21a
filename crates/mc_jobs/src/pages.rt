//! A full server answers pages' look-ups.

use crate::Played;
use crate::errors::JobError;
use crate::keys::{Stock, append_key, append_number, by_rank, small_len};
use crate::randoms::Random;
use crate::served::Served;
use std::alloc::{AllocError, Global};

/// How many batches of requests there are, of 1 to 32 requests each.
const BATCHES: u64 = 190_000;

/// The most items of the server, at which it is full.
const ITEMS: usize = 300_000;

const BUDGET: u64 = 1_000_000_000;

/// There are 2^`KEY_BITS` keys.
const KEY_BITS: u32 = 20;

const CLIENTS: u64 = 50;

/// How many batches are played in a second.
const BATCHES_A_SECOND: u64 = 500;

/// Fills a server, and then plays gets and sets of its clients, nine gets to a set, whose keys follow Zipf's law.
pub fn play(alloc: Global, mut random: Random, parts: u64) -> Result<Played, JobError> {
    let mut text = Vec::new(alloc);
    let stock = Stock::new(alloc, &mut random)?;
    let mut served = Served::new(alloc, BUDGET, ITEMS, CLIENTS)?;
    let filled = fill(&mut served, &mut random, &stock, &mut text, parts)?;
    let asked = play_batches(&mut served, &mut random, &stock, &mut text, parts)?;
    Ok(Played {
        asked: filled.saturating_add(asked),
        digest: served.digest.value(),
    })
}

/// Plays all batches, and returns the number of their requests.
fn play_batches(
    served: &mut Served,
    random: &mut Random,
    stock: &Stock,
    text: &mut Vec<u8>,
    parts: u64,
) -> Result<u64, JobError> {
    let mut asked = 0u64;
    for batch in 0..BATCHES / parts.max(1) {
        text.clear();
        asked = asked.saturating_add(append_batch(random, stock, text)?);
        let client = random.below(CLIENTS);
        send(served, random, client, text.as_slice())?;
        if batch % BATCHES_A_SECOND == 0 {
            served.moment = served.moment.saturating_add(1);
        }
    }
    Ok(asked)
}

/// Sets as many keys as the server stores, in pieces of some 50 sets, and returns their number.
fn fill(
    served: &mut Served,
    random: &mut Random,
    stock: &Stock,
    text: &mut Vec<u8>,
    parts: u64,
) -> Result<u64, JobError> {
    let count = ITEMS as u64 / parts.max(1);
    for rank in 0..count {
        append_set(random, stock, text, by_rank(rank, KEY_BITS))?;
        if rank % 50 == 49 {
            served.hear(0, text.as_slice())?;
            text.clear();
        }
    }
    served.hear(0, text.as_slice())?;
    Ok(count)
}

/// Feeds a client's batch: in half of all cases as one piece, otherwise cut anywhere into two.
fn send(
    served: &mut Served,
    random: &mut Random,
    client: u64,
    text: &[u8],
) -> Result<(), JobError> {
    if random.one_in(2) {
        return served.hear(client, text);
    }
    let at = random.below(text.len() as u64) as usize;
    let (first, second) = text.split_at(at.min(text.len()));
    served.hear(client, first)?;
    served.hear(client, second)
}

/// Appends a batch of 1 to 32 requests, and returns their number. After one get in nine its key is set.
fn append_batch(random: &mut Random, stock: &Stock, text: &mut Vec<u8>) -> Result<u64, AllocError> {
    let count = random.below(32).saturating_add(1);
    let mut sets = 0u64;
    for _ in 0..count {
        if random.one_in(50) {
            append_get_of_many(random, text)?;
            continue;
        }
        let key = by_rank(random.ranked(KEY_BITS), KEY_BITS);
        text.extend_from_slice(b"get ")?;
        append_key(text, key)?;
        text.extend_from_slice(b"\r\n")?;
        if random.one_in(9) {
            append_set(random, stock, text, key)?;
            sets = sets.saturating_add(1);
        }
    }
    Ok(count.saturating_add(sets))
}

/// Appends a get of 24 keys.
fn append_get_of_many(random: &mut Random, text: &mut Vec<u8>) -> Result<(), AllocError> {
    text.extend_from_slice(b"get")?;
    for _ in 0..24 {
        text.extend_from_slice(b" ")?;
        append_key(text, by_rank(random.ranked(KEY_BITS), KEY_BITS))?;
    }
    text.extend_from_slice(b"\r\n")
}

/// Appends a set of a key. One item in four lives for up to 256 seconds, the others for ever.
fn append_set(
    random: &mut Random,
    stock: &Stock,
    text: &mut Vec<u8>,
    key: u64,
) -> Result<(), AllocError> {
    let len = small_len(random);
    let exptime = if random.one_in(4) {
        random.below(256).saturating_add(1)
    } else {
        0
    };
    text.extend_from_slice(b"set ")?;
    append_key(text, key)?;
    text.extend_from_slice(b" 0 ")?;
    append_number(text, exptime)?;
    text.extend_from_slice(b" ")?;
    append_number(text, len as u64)?;
    text.extend_from_slice(b"\r\n")?;
    text.extend_from_slice(stock.value(random, len))?;
    text.extend_from_slice(b"\r\n")
}
