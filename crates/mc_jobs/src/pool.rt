//! A proxy forwards pages' requests to several servers; its links are bytes in memory.

use crate::Played;
use crate::digests::Digest;
use crate::errors::JobError;
use crate::keys::{Stock, append_key, append_number, by_rank, large_len, small_len};
use crate::randoms::Random;
use crate::served::{TableServer, opened, turn_all};
use mc_proxy::{Emit, LinkStep, Proxy, SessionTurn};
use mc_ring::{Address, Ring};
use std::alloc::{AllocError, Global};

/// How many rounds there are: in each some clients send requests, all servers answer, and the clients are
/// answered.
const ROUNDS: u64 = 42_000;

/// After this number of rounds a link is lost, and it comes up in the next.
const ROUNDS_A_LOSS: u64 = 1_000;

const SERVERS: u64 = 5;

const CLIENTS: u64 = 50;

/// The most clients that send requests in a round.
const AT_ONCE: u64 = 8;

/// The bounds of each server's cache.
const BUDGET: u64 = 67_108_864;

const ITEMS: usize = 20_000;

/// There are 2^`KEY_BITS` keys.
const KEY_BITS: u32 = 17;

/// A proxy and its servers, and the answers to the clients.
#[derive(Drop)]
struct Pool {
    proxy: Proxy,
    servers: Vec<TableServer>,
    /// The connection that each server's link has now.
    connections: Vec<u64>,
    moment: u32,
    digest: Digest,
}

/// Plays rounds of requests. At times a link is lost, with the bytes in flight.
pub fn play(alloc: Global, random: Random, parts: u64) -> Result<Played, JobError> {
    let mut random = random;
    let mut text = Vec::new(alloc);
    let stock = Stock::new(alloc, &mut random)?;
    let mut pool = Pool::new(alloc)?;
    let mut asked = 0u64;
    for round in 1..=ROUNDS / parts.max(1) {
        let more = pool.play_round(&mut random, &stock, &mut text, round)?;
        asked = asked.saturating_add(more);
    }
    Ok(Played {
        asked,
        digest: pool.digest.value(),
    })
}

/// A ring of this number of servers.
pub fn ring_of(alloc: Global, servers: u64, first: u64) -> Result<Ring, JobError> {
    let mut addresses = Vec::new(alloc);
    for number in 0..servers {
        addresses.push(address(alloc, first.wrapping_add(number))?)?;
    }
    Ok(Ring::new(alloc, addresses.as_slice())?)
}

/// The address of a number.
pub fn address(alloc: Global, number: u64) -> Result<Address, JobError> {
    let text = format!(in alloc; "10.{}.0.{}:11211", number / 256 % 256, number % 256)?;
    Ok(Address::new(alloc, text.as_bytes())?)
}

impl Pool {
    fn new(alloc: Global) -> Result<Pool, JobError> {
        let ring = ring_of(alloc, SERVERS, 0)?;
        let Ok(proxy) = Proxy::new(alloc, ring) else {
            return Err(JobError::Memory);
        };
        let mut pool = Pool {
            proxy,
            servers: Vec::new(alloc),
            connections: Vec::new(alloc),
            moment: 1_000,
            digest: Digest::new(),
        };
        pool.open_all(alloc)?;
        Ok(pool)
    }

    /// Opens all servers and their links, and admits all clients.
    fn open_all(&mut self, alloc: Global) -> Result<(), JobError> {
        for place in 0..SERVERS {
            self.open(alloc)?;
            self.proxy.back(place as usize)?;
        }
        for _ in 0..CLIENTS {
            self.proxy.admit()?;
        }
        Ok(())
    }

    /// Opens the next server, with the connection of its link.
    fn open(&mut self, alloc: Global) -> Result<(), JobError> {
        let mut server = opened(alloc, BUDGET, ITEMS)?;
        self.connections.push(server.admit()?)?;
        self.servers.push(server)?;
        Ok(())
    }

    /// Plays a round, and returns the number of its requests.
    fn play_round(
        &mut self,
        random: &mut Random,
        stock: &Stock,
        text: &mut Vec<u8>,
        round: u64,
    ) -> Result<u64, JobError> {
        let first = random.below(CLIENTS);
        let count = random.below(AT_ONCE).saturating_add(1);
        let mut asked = 0u64;
        for next in 0..count {
            text.clear();
            asked = asked.saturating_add(append_batch(random, stock, text)?);
            self.ask(first.wrapping_add(next) % CLIENTS, text.as_slice())?;
        }
        if round % ROUNDS_A_LOSS == 0 {
            self.lose(random.below(SERVERS) as usize)?;
        }
        self.carry_all()?;
        for next in 0..count {
            self.answer(first.wrapping_add(next) % CLIENTS)?;
        }
        Ok(asked)
    }

    /// Feeds a client's text, and takes all its requests.
    fn ask(&mut self, client: u64, text: &[u8]) -> Result<(), JobError> {
        self.proxy.feed(client, text)?;
        for _ in 0..u64::MAX {
            if self.proxy.turn(client)? != SessionTurn::Took {
                break;
            }
        }
        Ok(())
    }

    /// Moves the bytes of each link to its server, lets the server answer, and moves the answers back.
    fn carry_all(&mut self) -> Result<(), JobError> {
        self.moment = self.moment.saturating_add(1);
        for place in 0..SERVERS as usize {
            self.carry(place)?;
            self.take_replies(place)?;
        }
        Ok(())
    }

    fn carry(&mut self, place: usize) -> Result<(), JobError> {
        let (Some(server), Some(connection)) = (
            self.servers.get_mut(place),
            self.connections.get(place),
        ) else {
            return Ok(());
        };
        let sent = self.proxy.link_output(place);
        let count = sent.len();
        server.feed(*connection, sent)?;
        self.proxy.link_taken_out(place, count);
        turn_all(server, *connection, self.moment)?;
        let replied = server.output(*connection);
        let count = replied.len();
        self.proxy.link_feed(place, replied)?;
        server.taken_out(*connection, count);
        Ok(())
    }

    /// Takes all replies of the server of a place.
    fn take_replies(&mut self, place: usize) -> Result<(), JobError> {
        for _ in 0..u64::MAX {
            match self.proxy.link_turn(place)? {
                LinkStep::Took => {}
                LinkStep::Idle => break,
                LinkStep::Strange => return Err(JobError::Refused),
            }
        }
        Ok(())
    }

    /// Answers a client as far as its answers are known.
    fn answer(&mut self, client: u64) -> Result<(), JobError> {
        for _ in 0..u64::MAX {
            if self.proxy.emit(client)? != Emit::Done {
                break;
            }
        }
        let answers = self.proxy.output(client);
        let count = answers.len();
        self.digest.add(answers);
        self.proxy.taken_out(client, count);
        Ok(())
    }

    /// Loses a link with all bytes in flight on it, and opens it again.
    fn lose(&mut self, place: usize) -> Result<(), JobError> {
        self.digest.add(self.proxy.lost(place)?.as_slice());
        let (Some(server), Some(connection)) = (
            self.servers.get_mut(place),
            self.connections.get_mut(place),
        ) else {
            return Ok(());
        };
        server.close(*connection)?;
        *connection = server.admit()?;
        self.proxy.back(place)?;
        Ok(())
    }
}

/// Appends a batch of 1 to 8 requests, and returns their number.
fn append_batch(random: &mut Random, stock: &Stock, text: &mut Vec<u8>) -> Result<u64, AllocError> {
    let count = random.below(8).saturating_add(1);
    for _ in 0..count {
        match random.below(20) {
            0 => append_get(random, text, 24)?,
            1 | 2 => append_set(random, stock, text)?,
            _ => append_get(random, text, 1)?,
        }
    }
    Ok(count)
}

/// Appends a get of this number of keys.
fn append_get(random: &mut Random, text: &mut Vec<u8>, keys: u64) -> Result<(), AllocError> {
    text.extend_from_slice(b"get")?;
    for _ in 0..keys {
        text.extend_from_slice(b" ")?;
        append_key(text, by_rank(random.ranked(KEY_BITS), KEY_BITS))?;
    }
    text.extend_from_slice(b"\r\n")
}

/// Appends a set, one in fifty of a large value.
fn append_set(random: &mut Random, stock: &Stock, text: &mut Vec<u8>) -> Result<(), AllocError> {
    let key = by_rank(random.ranked(KEY_BITS), KEY_BITS);
    let len = if random.one_in(50) {
        large_len(random)
    } else {
        small_len(random)
    };
    text.extend_from_slice(b"set ")?;
    append_key(text, key)?;
    text.extend_from_slice(b" 0 0 ")?;
    append_number(text, len as u64)?;
    text.extend_from_slice(b"\r\n")?;
    text.extend_from_slice(stock.value(random, len))?;
    text.extend_from_slice(b"\r\n")
}
