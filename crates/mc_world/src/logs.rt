//! How a log keeps what was done.

use crate::events::Event;
use mc_ring::Address;

/// What was done, as a log keeps it.
#[derive(Debug, Drop)]
pub enum Logged {
    /// An event that applied.
    Happened(Event<()>),
    /// A server that joined at the next place of a proxy.
    Joined {
        /// The proxy's number.
        proxy: usize,
        /// The server's place.
        server: usize,
        /// Its address.
        address: Address,
        /// Whether the proxy's link to it is up: it is to a new server, and not to one that another proxy knows.
        up: bool,
    },
    /// A server that restarted, with nothing left of what it had.
    Restarted {
        /// The server's place.
        server: usize,
    },
}
