//! The item that is stored under a key.
ghost use Rattle.std.specs.Prelude.{◌≡◌, ◌<◌, ◌^◌};
ghost use Rattle.mc_item.specs.Costs.{cost_at, cost_of};

use crate::deadlines::Deadline;
use mc_text::{Block, Key};

/// The bytes that an item costs beyond those of its key and its value.
pub const OVERHEAD: u64 = 64;

/// The item that is stored under a key. The fields are in the order that leaves the least room between
/// them: 48 bytes.
#[derive(Clone, Debug, Drop)]
pub struct Body {
    /// When it expires.
    pub expiry: Deadline,
    /// The item's number, which no other item of the cache has had.
    pub cas: u64,
    /// The value.
    pub value: Block,
    /// The client flags.
    pub flags: u32,
    /// Whether the value was marked as stale.
    pub stale: bool,
    /// Whether a client was told to fetch the value anew.
    pub won: bool,
}

/// Returns what an item costs in bytes: its key, its value and [`OVERHEAD`].
pub fn cost(key: &Key, body: &Body) -> u64
    ensures { result ≡ cost_of key.now body.now.value }
{
    let value = body.value.as_slice();
    cost_at(key.as_bytes().len(), value.len())
}

/// Returns the cost of an item by the lengths of its key and its value.
pub fn cost_at(key: usize, value: usize) -> u64
    requires { cost_at key value < 2 ^ 64 }
    ensures { result ≡ cost_at key value }
{
    key as u64 + value as u64 + OVERHEAD
}
