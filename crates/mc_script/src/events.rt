//! The events of a script.
ghost use Rattle.std.specs.Prelude.{All, ◌≤◌};
ghost use Rattle.mc_cache.specs.CacheState.{IsWithinBounds};
ghost use Rattle.mc_script.specs.Events.{IsEventOf};

use mc_text::Block;

/// A script: a server, and its events.
#[derive(Debug, Drop)]
pub struct Script {
    /// How many connections the server has: 1 to 1024, of the numbers from 0 on.
    pub connections: u64,
    /// The server's budget in bytes: 1 to 1,099,511,627,776.
    pub budget: u64,
    /// How many items the server has room for: 1 to 16,777,216.
    pub items: usize,
    /// The events of the server, in order.
    pub events: Vec<ServerEvent>,
    ghost few: { connections ≤ 1024 },
    ghost bounds: { IsWithinBounds budget items },
    ghost all: { All (IsEventOf connections) events.items },
}

/// An event of a server.
#[derive(Debug, Drop)]
pub enum ServerEvent {
    /// The next bytes of a client arrive.
    Bytes {
        /// The number of the client's connection.
        connection: u64,
        /// The bytes.
        bytes: Block,
    },
    /// The server takes a turn of a connection.
    Turn {
        /// The connection's number.
        connection: u64,
        /// The moment of the turn: seconds, below 2^63.
        moment: u64,
    },
}
