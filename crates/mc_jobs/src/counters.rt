//! Counters, locks and recaching: numbers, `add`, `cas`, `touch`, `gat`, and meta commands.

use crate::Played;
use crate::errors::JobError;
use crate::keys::{Stock, append_key, append_number, by_rank, small_len};
use crate::randoms::Random;
use crate::served::Served;
use mc_text::{CODED_LIMIT, write_coded};
use std::alloc::{AllocError, Global};

/// How many batches there are, of 1 to 32 requests each.
const BATCHES: u64 = 240_000;

const ITEMS: usize = 200_000;

const BUDGET: u64 = 1_000_000_000;

/// There are 2^`KEY_BITS` keys of each kind.
const KEY_BITS: u32 = 15;

const CLIENTS: u64 = 20;

/// How many batches are played in a second.
const BATCHES_A_SECOND: u64 = 1_000;

/// Makes all counters, and then plays batches of small commands.
pub fn play(alloc: Global, random: Random, parts: u64) -> Result<Played, JobError> {
    let mut random = random;
    let mut text = Vec::new(alloc);
    let stock = Stock::new(alloc, &mut random)?;
    let mut served = Served::new(alloc, BUDGET, ITEMS, CLIENTS)?;
    let filled = fill(&mut served, &mut text, parts)?;
    let asked = play_batches(&mut served, &mut random, &stock, &mut text, parts)?;
    Ok(Played {
        asked: filled.saturating_add(asked),
        digest: served.digest.value(),
    })
}

/// Plays all batches, and returns the number of their requests.
fn play_batches(
    served: &mut Served,
    random: &mut Random,
    stock: &Stock,
    text: &mut Vec<u8>,
    parts: u64,
) -> Result<u64, JobError> {
    let mut asked = 0u64;
    for batch in 0..BATCHES / parts.max(1) {
        let client = random.below(CLIENTS);
        asked = asked.saturating_add(play_batch(served, random, stock, client, text)?);
        if batch % BATCHES_A_SECOND == 0 {
            served.moment = served.moment.saturating_add(1);
        }
    }
    Ok(asked)
}

/// Makes the counters, and returns their number.
fn fill(served: &mut Served, text: &mut Vec<u8>, parts: u64) -> Result<u64, JobError> {
    let count = (1 << KEY_BITS) / parts.max(1);
    for key in 0..count {
        text.clear();
        text.extend_from_slice(b"add count:")?;
        append_number(text, key)?;
        text.extend_from_slice(b" 0 0 1\r\n0\r\n")?;
        served.hear(0, text.as_slice())?;
    }
    Ok(count)
}

/// Plays a batch of a client: one in 16 writes back what it has read, one in 8 is quiet. It returns the number of requests.
fn play_batch(
    served: &mut Served,
    random: &mut Random,
    stock: &Stock,
    client: u64,
    text: &mut Vec<u8>,
) -> Result<u64, JobError> {
    text.clear();
    if random.one_in(16) {
        return write_back(served, random, stock, client, text);
    }
    let count = random.below(32).saturating_add(1);
    if random.one_in(8) {
        append_quiet(random, text, count)?;
    } else {
        for _ in 0..count {
            append_command(random, stock, text)?;
        }
    }
    served.hear(client, text.as_slice())?;
    Ok(count)
}

/// Reads a key by `gets`, and writes it by `cas` under the number that it has.
fn write_back(
    served: &mut Served,
    random: &mut Random,
    stock: &Stock,
    client: u64,
    text: &mut Vec<u8>,
) -> Result<u64, JobError> {
    let key = key_of(random);
    text.extend_from_slice(b"gets ")?;
    append_key(text, key)?;
    text.extend_from_slice(b"\r\n")?;
    let number = served.hear_number(client, text.as_slice())?;
    let len = small_len(random);
    text.clear();
    text.extend_from_slice(b"cas ")?;
    append_key(text, key)?;
    text.extend_from_slice(b" 0 0 ")?;
    append_number(text, len as u64)?;
    text.extend_from_slice(b" ")?;
    append_number(text, number)?;
    append_block(random, stock, text, len)?;
    served.hear(client, text.as_slice())?;
    Ok(2)
}

fn key_of(random: &mut Random) -> u64 {
    by_rank(random.ranked(KEY_BITS), KEY_BITS)
}

/// Appends the end of a line, and a block of this number of bytes.
fn append_block(
    random: &mut Random,
    stock: &Stock,
    text: &mut Vec<u8>,
    len: usize,
) -> Result<(), AllocError> {
    text.extend_from_slice(b"\r\n")?;
    text.extend_from_slice(stock.value(random, len))?;
    text.extend_from_slice(b"\r\n")
}

/// Appends this number of quiet commands, and one that is answered.
fn append_quiet(random: &mut Random, text: &mut Vec<u8>, count: u64) -> Result<(), AllocError> {
    for _ in 1..count {
        let key = key_of(random);
        text.extend_from_slice(b"mg ")?;
        append_key(text, key)?;
        text.extend_from_slice(b" v k t q\r\n")?;
    }
    text.extend_from_slice(b"mn\r\n")
}

/// Appends a command.
fn append_command(
    random: &mut Random,
    stock: &Stock,
    text: &mut Vec<u8>,
) -> Result<(), AllocError> {
    match random.below(20) {
        0..=4 => append_count(random, text),
        5 | 6 => append_lock(random, text),
        7 | 8 => append_touch(random, text),
        9..=12 => append_meta_get(random, text),
        13..=15 => append_meta_set(random, stock, text),
        16 => append_meta_delete(random, text),
        _ => append_meta_count(random, text),
    }
}

fn append_count(random: &mut Random, text: &mut Vec<u8>) -> Result<(), AllocError> {
    let name: &[u8] = if random.one_in(4) {
        b"decr count:"
    } else {
        b"incr count:"
    };
    text.extend_from_slice(name)?;
    append_number(text, key_of(random))?;
    text.extend_from_slice(b" ")?;
    append_number(text, random.below(1_000))?;
    text.extend_from_slice(b"\r\n")
}

fn append_lock(random: &mut Random, text: &mut Vec<u8>) -> Result<(), AllocError> {
    let number = key_of(random);
    let name: &[u8] = if random.one_in(3) {
        b"delete lock:"
    } else {
        b"add lock:"
    };
    let rest: &[u8] = if name.len() == 9 {
        b" 0 30 1\r\n1\r\n"
    } else {
        b"\r\n"
    };
    text.extend_from_slice(name)?;
    append_number(text, number)?;
    text.extend_from_slice(rest)
}

fn append_touch(random: &mut Random, text: &mut Vec<u8>) -> Result<(), AllocError> {
    let key = key_of(random);
    if random.one_in(2) {
        text.extend_from_slice(b"touch ")?;
        append_key(text, key)?;
        return text.extend_from_slice(b" 300\r\n");
    }
    text.extend_from_slice(b"gat 300 ")?;
    append_key(text, key)?;
    text.extend_from_slice(b"\r\n")
}

fn append_meta_get(random: &mut Random, text: &mut Vec<u8>) -> Result<(), AllocError> {
    let key = key_of(random);
    text.extend_from_slice(b"mg ")?;
    append_key(text, key)?;
    let flags: &[u8] = if random.one_in(2) {
        b" v t c f k N30 R30\r\n"
    } else {
        b" v t f\r\n"
    };
    text.extend_from_slice(flags)
}

/// Appends an `ms`, half of them with the key in base64.
fn append_meta_set(
    random: &mut Random,
    stock: &Stock,
    text: &mut Vec<u8>,
) -> Result<(), AllocError> {
    let key = key_of(random);
    let len = small_len(random);
    let is_coded = random.one_in(2);
    text.extend_from_slice(b"ms ")?;
    if is_coded {
        append_coded(text, key)?;
    } else {
        append_key(text, key)?;
    }
    text.extend_from_slice(b" ")?;
    append_number(text, len as u64)?;
    let flags: &[u8] = if is_coded { b" b T120 F7" } else { b" T120 I" };
    text.extend_from_slice(flags)?;
    append_block(random, stock, text, len)
}

/// Appends a key in base64.
fn append_coded(text: &mut Vec<u8>, number: u64) -> Result<(), AllocError> {
    let mut key = Vec::new(*text.allocator());
    append_key(&mut key, number)?;
    let mut room = [0; CODED_LIMIT];
    let (short, _) = key.split_at(key.len().min(64));
    text.extend_from_slice(write_coded(short, &mut room))
}

fn append_meta_delete(random: &mut Random, text: &mut Vec<u8>) -> Result<(), AllocError> {
    let key = key_of(random);
    text.extend_from_slice(b"md ")?;
    append_key(text, key)?;
    let flags: &[u8] = if random.one_in(2) {
        b" I T30\r\n"
    } else {
        b" q\r\n"
    };
    text.extend_from_slice(flags)
}

fn append_meta_count(random: &mut Random, text: &mut Vec<u8>) -> Result<(), AllocError> {
    text.extend_from_slice(b"ma hits:")?;
    append_number(text, key_of(random))?;
    text.extend_from_slice(b" D2 N60 J1 t v\r\n")
}
