//! The load of a threaded run: the clients' texts, and their pool.

use mc_ring::{Address, Ring};
use std::alloc::{AllocError, Global};

/// How many clients there are.
pub const CLIENTS: u64 = 8;

/// The bounds of each server's cache: no item is evicted.
pub const BUDGET: u64 = 67_108_864;

pub const ITEMS: usize = 65_536;

/// The moment of every request, in seconds.
pub const MOMENT: u64 = 100;

/// How many keys each client has of its own.
const KEYS: u64 = 1_000;

const VALUE: [u8; 100] = [b'x'; 100];

/// A ring of this number of servers.
pub fn ring_of(alloc: Global, servers: u64) -> anyhow::Result<Ring> {
    let mut addresses = Vec::new(alloc);
    for number in 0..servers {
        let text = format!(in alloc; "10.0.0.{number}:11211")?;
        addresses.push(Address::new(alloc, text.as_bytes())?)?;
    }
    Ok(Ring::new(alloc, &addresses)?)
}

/// The pieces of each client's text, one each. All clients together send this number of requests, or up to seven fewer.
pub fn inputs(alloc: Global, requests: u64) -> Result<Vec<Vec<Vec<u8>>>, AllocError> {
    let mut all = Vec::new(alloc);
    for client in 0..CLIENTS {
        let mut pieces = Vec::new(alloc);
        pieces.push(text(alloc, client, requests / CLIENTS)?)?;
        all.push(pieces)?;
    }
    Ok(all)
}

/// The text of a client with this number of requests: the first of each four is a set.
fn text(alloc: Global, client: u64, requests: u64) -> Result<Vec<u8>, AllocError> {
    let mut text = Vec::new(alloc);
    for number in 0..requests {
        append_request(alloc, &mut text, client, number)?;
    }
    Ok(text)
}

/// Appends the request of a number: a set of 100 bytes or a get, with a key of 20 bytes that no other client has.
fn append_request(
    alloc: Global,
    text: &mut Vec<u8>,
    client: u64,
    number: u64,
) -> Result<(), AllocError> {
    let key = key_number(number);
    if number % 4 == 0 {
        let line = format!(in alloc; "set key:{client}:{key:014} 0 0 100\r\n")?;
        text.extend_from_slice(line.as_bytes())?;
        text.extend_from_slice(&VALUE)?;
        text.extend_from_slice(b"\r\n")?;
    } else {
        let line = format!(in alloc; "get key:{client}:{key:014}\r\n")?;
        text.extend_from_slice(line.as_bytes())?;
    }
    Ok(())
}

/// The number of the key of a request. Three gets follow each set: of its key, of a key that was set before it, and of a key that is
/// not set in the first half of the keys' first round.
fn key_number(number: u64) -> u64 {
    let sets = number / 4;
    match number % 4 {
        0 | 1 => sets % KEYS,
        2 => sets / 2 % KEYS,
        _ => (sets % KEYS + KEYS / 2) % KEYS,
    }
}
