//! The meaning of a line of a pool script.
use mc_ring::Address;
use mc_text::Block;
use mc_world::Event;

/// The meaning of a line after the ring's points.
#[derive(Debug, Drop)]
pub enum PoolLine {
    /// An event happens.
    Event(Event<Block>),
    /// A server of this address joins, as a new one, at the proxy of this number.
    Join(usize, Address),
    /// The proxy of this number learns the next server, which has this address.
    Learn(usize, Address),
    /// The server of this place restarts.
    Restart(usize),
    /// The proxy of this number restarts.
    ProxyRestart(usize),
    /// A drain: all that is left to do is done, and servers take their requests at this moment: seconds since
    /// 1970, below 2^63.
    Drain(u64),
}
