//! A server, made and called as its program does.

use crate::digests::Digest;
use crate::errors::JobError;
use mc_cache::Cache;
use mc_item::CasCounter;
use mc_server::{AnswerLimit, Limited, Server, Turn};
use mc_store::TableStore;
use mc_table::SecretState;
use std::alloc::Global;
use std::io;
use std::random::RandomSource;

/// The most bytes of an answer.
const ANSWER: AnswerLimit = AnswerLimit { bytes: 67_108_864 };

/// A server over a table, with our own hasher.
pub type TableServer = Server<TableStore<SecretState>>;

/// A source that always returns the same bytes, so that each run takes the same steps.
struct Fixed;

impl RandomSource for Fixed {
    fn fill_bytes(&self, buf: &mut [u8]) -> io::Result<()> {
        let mut next = 0x5Du8;
        for byte in buf.iter_mut() {
            next = next.wrapping_mul(0xA5).wrapping_add(0x3B);
            *byte = next;
        }
        Ok(())
    }
}

/// A server without a connection, whose cache has these limits.
pub fn opened(alloc: Global, budget: u64, items: usize) -> Result<TableServer, JobError> {
    let Ok(hasher) = SecretState::new(&Fixed) else {
        return Err(JobError::Refused);
    };
    if !mc_cache::is_within_bounds(budget, items) {
        return Err(JobError::Refused);
    }
    let Ok(store) = TableStore::with_hasher(alloc, items, hasher) else {
        return Err(JobError::Memory);
    };
    let cache = Cache::new(alloc, store, budget, items, CasCounter::starting_at(0));
    Ok(Server::new(alloc, cache))
}

/// Admits this number of connections.
fn admit(server: &mut TableServer, connections: u64) -> Result<(), JobError> {
    for _ in 0..connections {
        server.admit()?;
    }
    Ok(())
}

/// A server and the answers to its clients.
#[derive(Drop)]
pub struct Served {
    server: TableServer,
    /// The moment in seconds.
    pub moment: u32,
    pub digest: Digest,
}

impl Served {
    /// A server with this number of connections, from number 0 on.
    pub fn new(
        alloc: Global,
        budget: u64,
        items: usize,
        connections: u64,
    ) -> Result<Served, JobError> {
        let mut server = opened(alloc, budget, items)?;
        admit(&mut server, connections)?;
        Ok(Served {
            server,
            moment: 1_000,
            digest: Digest::new(),
        })
    }

    /// Feeds a connection a piece, takes turns until none is pending, and takes the answers.
    pub fn hear(&mut self, number: u64, piece: &[u8]) -> Result<(), JobError> {
        self.server.feed(number, piece)?;
        turn_all(&mut self.server, number, self.moment)?;
        let answers = self.server.output(number);
        let count = answers.len();
        if count != 0 {
            self.digest.add(answers);
            self.server.taken_out(number, count);
        }
        Ok(())
    }

    /// Feeds one request likewise, and returns the number that ends its answer's first line; 0 if it ends with none.
    pub fn hear_number(&mut self, number: u64, piece: &[u8]) -> Result<u64, JobError> {
        self.server.feed(number, piece)?;
        turn_all(&mut self.server, number, self.moment)?;
        let answer = self.server.output(number);
        let count = answer.len();
        let value = last_number(answer);
        self.digest.add(answer);
        self.server.taken_out(number, count);
        Ok(value)
    }

    /// Feeds a connection a text in pieces of this number of bytes.
    pub fn hear_in_pieces(
        &mut self,
        number: u64,
        text: &[u8],
        piece: usize,
    ) -> Result<(), JobError> {
        for part in text.chunks(piece.max(1)) {
            self.hear(number, part)?;
        }
        Ok(())
    }
}

/// Takes turns of a connection until none is pending.
pub fn turn_all(server: &mut TableServer, number: u64, moment: u32) -> Result<(), JobError> {
    for _ in 0..u64::MAX {
        if server.turn_within(number, u64::from(moment), ANSWER)? != Limited::Turned(Turn::Took) {
            break;
        }
    }
    Ok(())
}

/// The number that ends the first line of an answer; 0 if there is none.
fn last_number(answer: &[u8]) -> u64 {
    let (line, _) = answer.split_at(answer.iter().position(|byte| *byte == b'\r').unwrap_or(0));
    let number = line.rsplit(|byte| *byte == b' ').next().unwrap_or_default();
    number.iter().fold(0u64, |value, digit| {
        value.wrapping_mul(10).wrapping_add(u64::from(*digit & 15))
    })
}
