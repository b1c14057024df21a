//! Scripts of a pool are read, checked, played and printed, with the account and without.

use crate::Played;
use crate::digests::Digest;
use crate::errors::JobError;
use crate::keys::{Stock, append_key, append_number, by_rank, small_len};
use crate::randoms::Random;
use mc_pool_script::{account_of_pool_script, text_of_pool_script};
use mc_store::{FixedHasher, LruStore};
use std::alloc::{AllocError, Global};

/// How many rounds each script has. A round is some 40 events.
const ROUNDS: u64 = 12_000;

/// The pools that are played, each by its number of servers and of clients.
const POOLS: [(u64, u64); 3] = [(3, 8), (5, 30), (8, 100)];

/// There are 2^`KEY_BITS` keys.
const KEY_BITS: u32 = 12;

/// A script that is being written.
#[derive(Drop)]
struct Script {
    text: Vec<u8>,
    servers: u64,
    clients: u64,
    /// The generation of each server's link.
    generations: Vec<u64>,
    events: u64,
    moment: u64,
}

/// Plays a script of each pool, half of its rounds without the account and half with it.
pub fn play(alloc: Global, random: Random, parts: u64) -> Result<Played, JobError> {
    let mut random = random;
    let stock = Stock::new(alloc, &mut random)?;
    let mut digest = Digest::new();
    let mut asked = 0u64;
    for (servers, clients) in POOLS {
        for is_checked in [false, true] {
            let script = script_of(alloc, &mut random, &stock, servers, clients, parts)?;
            asked = asked.saturating_add(script.events);
            let text = played(alloc, is_checked, script.text.as_slice())?;
            digest.add(text.as_slice());
        }
    }
    Ok(Played {
        asked,
        digest: digest.value(),
    })
}

/// The printed text of a script.
fn played(alloc: Global, is_checked: bool, script: &[u8]) -> Result<Vec<u8>, JobError> {
    let text = if is_checked {
        account_of_pool_script::<LruStore<FixedHasher>>(alloc, script)
    } else {
        text_of_pool_script::<LruStore<FixedHasher>>(alloc, script)
    };
    match text {
        Ok(text) => Ok(text),
        Err(_) => Err(JobError::Refused),
    }
}

/// A script of a pool.
fn script_of(
    alloc: Global,
    random: &mut Random,
    stock: &Stock,
    servers: u64,
    clients: u64,
    parts: u64,
) -> Result<Script, JobError> {
    let mut script = Script::new(alloc, servers, clients)?;
    script.append_rounds(random, stock, ROUNDS / parts.max(1))?;
    Ok(script)
}

impl Script {
    fn new(alloc: Global, servers: u64, clients: u64) -> Result<Script, JobError> {
        let mut script = Script {
            text: Vec::new(alloc),
            servers,
            clients,
            generations: Vec::new(alloc),
            events: 0,
            moment: 1_000,
        };
        for _ in 0..servers {
            script.generations.push(1)?;
        }
        script.append_words(b"pool", &[servers, clients, 16_777_216, 4_096], b"\n")?;
        Ok(script)
    }

    /// Appends a name, numbers after spaces, and the text after them.
    fn append_words(
        &mut self,
        name: &[u8],
        numbers: &[u64],
        after: &[u8],
    ) -> Result<(), AllocError> {
        self.text.extend_from_slice(name)?;
        for number in numbers {
            self.text.extend_from_slice(b" ")?;
            append_number(&mut self.text, *number)?;
        }
        self.text.extend_from_slice(after)?;
        self.events = self.events.saturating_add(1);
        Ok(())
    }

    /// Appends this number of rounds, with losses and drains between them, then a server that joins, and a last drain.
    fn append_rounds(
        &mut self,
        random: &mut Random,
        stock: &Stock,
        count: u64,
    ) -> Result<(), AllocError> {
        for round in 1..=count {
            self.append_round(random, stock)?;
            if round % 100 == 0 {
                self.append_loss(random)?;
            }
            if round % 400 == 0 {
                self.append_drain()?;
            }
        }
        self.append_join()?;
        self.append_drain()
    }

    /// Appends a round: four clients send requests, all servers answer, and the four are answered.
    fn append_round(&mut self, random: &mut Random, stock: &Stock) -> Result<(), AllocError> {
        let first = random.below(self.clients);
        for next in 0..4 {
            let client = first.wrapping_add(next) % self.clients.max(1);
            self.append_words(b"bytes", &[client], b" ")?;
            append_request(random, stock, &mut self.text)?;
            self.append_words(b"turn", &[client], b"\n")?;
        }
        for server in 0..self.servers {
            self.append_serving(server)?;
        }
        for next in 0..4 {
            let client = first.wrapping_add(next) % self.clients.max(1);
            self.append_words(b"emit", &[client], b"\n")?;
            self.append_words(b"takes", &[client], b" all\n")?;
        }
        Ok(())
    }

    /// Appends the lines by which a server gets its bytes, answers up to two commands, and its replies are
    /// taken.
    fn append_serving(&mut self, server: u64) -> Result<(), AllocError> {
        let generation = self.generation(server);
        let moment = self.moment;
        self.append_words(b"toserver", &[server, generation], b" all\n")?;
        self.append_words(b"serve", &[server, generation, moment], b"\n")?;
        self.append_words(b"serve", &[server, generation, moment], b"\n")?;
        self.append_words(b"toproxy", &[server], b" all\n")?;
        self.append_words(b"reply", &[server], b"\n")?;
        self.append_words(b"reply", &[server], b"\n")
    }

    fn generation(&self, server: u64) -> u64 {
        self.generations.get(server as usize).copied().unwrap_or(1)
    }

    /// Appends the lines by which a link is lost, its server sees it, and it comes up again.
    fn append_loss(&mut self, random: &mut Random) -> Result<(), AllocError> {
        let server = random.below(self.servers);
        let generation = self.generation(server);
        self.append_words(b"lost", &[server], b"\n")?;
        self.append_words(b"end", &[server, generation], b"\n")?;
        self.append_words(b"back", &[server], b"\n")?;
        if let Some(now) = self.generations.get_mut(server as usize) {
            *now = now.saturating_add(1);
        }
        Ok(())
    }

    fn append_drain(&mut self) -> Result<(), AllocError> {
        self.moment = self.moment.saturating_add(1);
        let moment = self.moment;
        self.append_words(b"drain", &[moment], b"\n")
    }

    fn append_join(&mut self) -> Result<(), AllocError> {
        self.append_words(b"join 10.1.2.3:11211", &[], b"\n")
    }
}

/// Appends a get or a set, escaped: one in ten is a set, one in ten a get of eight keys.
fn append_request(
    random: &mut Random,
    stock: &Stock,
    text: &mut Vec<u8>,
) -> Result<(), AllocError> {
    match random.below(10) {
        0 => append_set(random, stock, text),
        1 => append_get(random, text, 8),
        _ => append_get(random, text, 1),
    }
}

fn append_get(random: &mut Random, text: &mut Vec<u8>, keys: u64) -> Result<(), AllocError> {
    text.extend_from_slice(b"get")?;
    for _ in 0..keys {
        text.extend_from_slice(b" ")?;
        append_key(text, by_rank(random.ranked(KEY_BITS), KEY_BITS))?;
    }
    text.extend_from_slice(b"\\r\\n\n")
}

/// Appends a set whose value needs no escape except for one byte in each eight.
fn append_set(random: &mut Random, stock: &Stock, text: &mut Vec<u8>) -> Result<(), AllocError> {
    let len = small_len(random) / 8 * 8;
    text.extend_from_slice(b"set ")?;
    append_key(text, by_rank(random.ranked(KEY_BITS), KEY_BITS))?;
    text.extend_from_slice(b" 0 0 ")?;
    append_number(text, len as u64)?;
    text.extend_from_slice(b"\\r\\n")?;
    for bytes in stock.value(random, len).chunks(8) {
        for byte in bytes.iter().skip(1) {
            text.push(b'a'.wrapping_add(*byte & 15))?;
        }
        text.extend_from_slice(b"\\x07")?;
    }
    text.extend_from_slice(b"\\r\\n\n")
}
