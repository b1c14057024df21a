//! `EpochEntry`: what a cache of several epochs stores under a key.

use mc_item::Body;

/// A body, and the epoch in which it was stored.
#[derive(Drop)]
pub struct EpochEntry {
    /// The body.
    pub body: Body,
    /// The epoch of the cache when the body was stored under its key.
    pub epoch: u64,
}
