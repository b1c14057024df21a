//! The server that is measured.

use mc_cache::Cache;
use mc_item::CasCounter;
use mc_server::{Server, ServerError, Turn};
use mc_store::ListStore;
use std::alloc::Global;

/// The budget of the cache in bytes, and the most items.
const BUDGET: u64 = 67_108_864;

const ITEMS: usize = 1_000;

/// The moment of every turn.
const MOMENT: u64 = 100;

/// A server with one connection over a new cache.
#[derive(Drop)]
pub struct Served {
    server: Server<ListStore>,
    connection: u64,
}

impl Served {
    pub fn new(alloc: Global) -> Result<Served, ServerError> {
        let counter = CasCounter::starting_at(0);
        let cache = Cache::new(alloc, ListStore::new(alloc), BUDGET, ITEMS, counter);
        let mut server = Server::new(alloc, cache);
        let connection = server.admit()?;
        Ok(Served { server, connection })
    }

    /// Feeds a piece, and takes turns until nothing is left to take. Then it takes the output, and returns how
    /// many bytes that had.
    pub fn serve(&mut self, piece: &[u8], asks_first: bool) -> Result<usize, ServerError> {
        self.server.feed(self.connection, piece)?;
        for _ in 0..u64::MAX {
            if !self.takes(asks_first)? {
                break;
            }
        }
        let answered = self.server.output(self.connection).len();
        self.server.taken_out(self.connection, answered);
        Ok(answered)
    }

    /// Whether something was taken. A caller that asks first takes no turn if nothing is pending.
    fn takes(&mut self, asks_first: bool) -> Result<bool, ServerError> {
        if asks_first && !self.server.ready(self.connection)? {
            return Ok(false);
        }
        Ok(self.server.turn(self.connection, MOMENT)? == Turn::Took)
    }
}
