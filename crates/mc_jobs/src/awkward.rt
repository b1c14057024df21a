//! Requests that servers and rings seldom get, and must handle.

use crate::Played;
use crate::digests::Digest;
use crate::errors::JobError;
use crate::keys::{Stock, append_key, append_number, by_rank, small_len};
use crate::pool::{address, ring_of};
use crate::randoms::Random;
use crate::served::Served;
use mc_ring::Ring;
use mc_text::{CODED_LIMIT, KEY_LIMIT, write_coded};
use std::alloc::{AllocError, Global};

const BUDGET: u64 = 1_000_000_000;

/// There are 2^`KEY_BITS` keys.
const KEY_BITS: u32 = 14;

/// How many small requests arrive in pieces of 1 and of 7 bytes.
const IN_PIECES: u64 = 100_000;

/// How many gets of 1,300 keys there are.
const LONG_GETS: u64 = 240;

/// How many requests name a key of 250 bytes in base64.
const CODED: u64 = 200_000;

/// How many gets find nothing.
const MISSES: u64 = 1_200_000;

/// How often large values evict all small ones.
const EVICTIONS: u64 = 50;

/// How often a full cache is flushed.
const FLUSHES: u64 = 20;

/// How many requests arrive over 1,000 connections.
const OVER_MANY: u64 = 700_000;

/// How many rings of 64 servers are made.
const RINGS: u64 = 250;

/// A load that a server seldom gets.
#[derive(Clone, Copy)]
enum Load {
    InPieces,
    LongGets,
    Coded,
    Misses,
    Evictions,
    Flushes,
    OverMany,
}

/// All loads of a server, in the order in which they are played.
const LOADS: [Load; 7] = [
    Load::InPieces,
    Load::LongGets,
    Load::Coded,
    Load::Misses,
    Load::Evictions,
    Load::Flushes,
    Load::OverMany,
];

/// Plays each load in turn, and then rings: the least and the most that a server or a ring gets.
pub fn play(alloc: Global, random: Random, parts: u64) -> Result<Played, JobError> {
    let parts = parts.max(1);
    let mut random = random;
    let mut all = Digest::new();
    let stock = Stock::new(alloc, &mut random)?;
    for load in LOADS {
        let digest = play_load(alloc, &mut random, &stock, load, parts)?;
        all.add(&digest.value().to_le_bytes());
    }
    let digest = rings(alloc, &mut random, RINGS / parts)?;
    all.add(&digest.value().to_le_bytes());
    Ok(Played {
        asked: (IN_PIECES + CODED + MISSES + OVER_MANY) / parts,
        digest: all.value(),
    })
}

/// Plays a load on a server of its own.
fn play_load(
    alloc: Global,
    random: &mut Random,
    stock: &Stock,
    load: Load,
    parts: u64,
) -> Result<Digest, JobError> {
    let (budget, items, connections) = match load {
        Load::Misses => (BUDGET, 300_000, 1),
        Load::Evictions => (1_100_000, 20_000, 1),
        Load::OverMany => (BUDGET, 20_000, 1_000),
        _ => (BUDGET, 20_000, 1),
    };
    let mut text = Vec::new(alloc);
    let mut served = Served::new(alloc, budget, items, connections)?;
    play_on(&mut served, random, stock, &mut text, load, parts)?;
    Ok(served.digest)
}

/// Plays a load on this server.
fn play_on(
    served: &mut Served,
    random: &mut Random,
    stock: &Stock,
    text: &mut Vec<u8>,
    load: Load,
    parts: u64,
) -> Result<(), JobError> {
    let parts = parts.max(1);
    match load {
        Load::InPieces => in_pieces(served, random, stock, text, IN_PIECES / parts),
        Load::LongGets => long_gets(served, random, stock, text, LONG_GETS / parts),
        Load::Coded => coded(served, random, text, CODED / parts),
        Load::Misses => misses(served, random, text, MISSES / parts),
        Load::Evictions => evictions(served, random, stock, text, EVICTIONS / parts),
        Load::Flushes => flushes(served, random, stock, text, FLUSHES / parts),
        Load::OverMany => over_many(served, random, stock, text, OVER_MANY / parts),
    }
}

fn append_get(random: &mut Random, text: &mut Vec<u8>, keys: u64) -> Result<(), AllocError> {
    text.extend_from_slice(b"get")?;
    for _ in 0..keys {
        text.extend_from_slice(b" ")?;
        append_key(text, by_rank(random.ranked(KEY_BITS), KEY_BITS))?;
    }
    text.extend_from_slice(b"\r\n")
}

fn append_set(
    random: &mut Random,
    stock: &Stock,
    text: &mut Vec<u8>,
    key: u64,
    len: usize,
) -> Result<(), AllocError> {
    text.extend_from_slice(b"set ")?;
    append_key(text, key)?;
    text.extend_from_slice(b" 0 0 ")?;
    append_number(text, len as u64)?;
    text.extend_from_slice(b"\r\n")?;
    text.extend_from_slice(stock.value(random, len))?;
    text.extend_from_slice(b"\r\n")
}

/// Appends a get or, one time in ten, a set.
fn append_request(
    random: &mut Random,
    stock: &Stock,
    text: &mut Vec<u8>,
) -> Result<(), AllocError> {
    if random.one_in(10) {
        let key = by_rank(random.ranked(KEY_BITS), KEY_BITS);
        let len = small_len(random) / 8;
        append_set(random, stock, text, key, len)
    } else {
        append_get(random, text, 1)
    }
}

/// Small requests, one byte at a time, and seven at a time.
fn in_pieces(
    served: &mut Served,
    random: &mut Random,
    stock: &Stock,
    text: &mut Vec<u8>,
    count: u64,
) -> Result<(), JobError> {
    for number in 0..count {
        text.clear();
        append_request(random, stock, text)?;
        let piece = if number % 2 == 0 { 1 } else { 7 };
        served.hear_in_pieces(0, text.as_slice(), piece)?;
    }
    Ok(())
}

/// Gets of 1,300 keys, after as many sets as there are keys.
fn long_gets(
    served: &mut Served,
    random: &mut Random,
    stock: &Stock,
    text: &mut Vec<u8>,
    count: u64,
) -> Result<(), JobError> {
    fill(served, random, stock, text, 1 << KEY_BITS)?;
    for _ in 0..count {
        text.clear();
        append_get(random, text, 1_300)?;
        served.hear(0, text.as_slice())?;
    }
    Ok(())
}

/// Sets this number of keys.
fn fill(
    served: &mut Served,
    random: &mut Random,
    stock: &Stock,
    text: &mut Vec<u8>,
    count: u64,
) -> Result<(), JobError> {
    for rank in 0..count {
        text.clear();
        let len = small_len(random);
        append_set(random, stock, text, by_rank(rank, KEY_BITS), len)?;
        served.hear(0, text.as_slice())?;
    }
    Ok(())
}

/// `mg` and `ms` of keys of 250 bytes in base64, eight requests a piece.
fn coded(
    served: &mut Served,
    random: &mut Random,
    text: &mut Vec<u8>,
    count: u64,
) -> Result<(), JobError> {
    for number in 0..count {
        append_coded(random, text)?;
        if number % 8 == 7 {
            served.hear(0, text.as_slice())?;
            text.clear();
        }
    }
    served.hear(0, text.as_slice())
}

/// Appends a meta command whose key's bytes are a number, and spaces after it.
fn append_coded(random: &mut Random, text: &mut Vec<u8>) -> Result<(), AllocError> {
    let mut key = [b' '; KEY_LIMIT];
    let number = random.ranked(KEY_BITS).to_le_bytes();
    for (to, byte) in key.iter_mut().zip(&number) {
        *to = *byte;
    }
    let mut room = [0; CODED_LIMIT];
    let is_set = random.one_in(4);
    let name: &[u8] = if is_set { b"ms " } else { b"mg " };
    let rest: &[u8] = if is_set {
        b" 5 b\r\nhello\r\n"
    } else {
        b" b v k\r\n"
    };
    text.extend_from_slice(name)?;
    text.extend_from_slice(write_coded(&key, &mut room))?;
    text.extend_from_slice(rest)
}

/// Gets of keys that are missing, 16 a piece.
fn misses(
    served: &mut Served,
    random: &mut Random,
    text: &mut Vec<u8>,
    count: u64,
) -> Result<(), JobError> {
    for number in 0..count {
        append_get(random, text, 1)?;
        if number % 16 == 15 {
            served.hear(0, text.as_slice())?;
            text.clear();
        }
    }
    served.hear(0, text.as_slice())
}

/// Thousands of small values, and then a large one that evicts them.
fn evictions(
    served: &mut Served,
    random: &mut Random,
    stock: &Stock,
    text: &mut Vec<u8>,
    count: u64,
) -> Result<(), JobError> {
    for _ in 0..count {
        fill(served, random, stock, text, 4_000)?;
        text.clear();
        append_set(random, stock, text, 0, 500_000)?;
        append_set(random, stock, text, 1, 500_000)?;
        served.hear(0, text.as_slice())?;
    }
    Ok(())
}

/// A full cache is flushed, and filled again.
fn flushes(
    served: &mut Served,
    random: &mut Random,
    stock: &Stock,
    text: &mut Vec<u8>,
    count: u64,
) -> Result<(), JobError> {
    for _ in 0..count {
        fill(served, random, stock, text, 1 << KEY_BITS)?;
        served.moment = served.moment.saturating_add(1);
        served.hear(0, b"flush_all\r\n")?;
    }
    Ok(())
}

/// Requests one at a time, over 1,000 connections of which a few speak often.
fn over_many(
    served: &mut Served,
    random: &mut Random,
    stock: &Stock,
    text: &mut Vec<u8>,
    count: u64,
) -> Result<(), JobError> {
    for _ in 0..count {
        text.clear();
        append_request(random, stock, text)?;
        let client = random.ranked(10) % 1_000;
        served.hear(client, text.as_slice())?;
    }
    Ok(())
}

/// Rings of 63 servers, each of which one more joins, and the owners of some keys.
fn rings(alloc: Global, random: &mut Random, count: u64) -> Result<Digest, JobError> {
    let mut digest = Digest::new();
    let mut key = Vec::new(alloc);
    for number in 0..count {
        let joined = joined_ring(alloc, random.below(60_000))?;
        for place in 0..16 {
            key.clear();
            append_key(&mut key, number.wrapping_mul(16).wrapping_add(place))?;
            let owner = joined.owner_of_bytes(key.as_slice());
            digest.add(&(owner as u64).to_le_bytes());
        }
    }
    Ok(digest)
}

/// A ring of 63 servers from a first one on, which the next one has joined.
fn joined_ring(alloc: Global, first: u64) -> Result<Ring, JobError> {
    let ring = ring_of(alloc, 63, first)?;
    Ok(ring.with_server(alloc, address(alloc, first.wrapping_add(63))?)?)
}
