//! New servers.
ghost use Rattle.std.specs.Prelude.{◌≡◌, []};
ghost use Rattle.mc_cache.specs.CacheState.{HasRoom};

use crate::meagre::MeagreStore;
use mc_cache::{Cache, is_within_bounds};
use mc_item::CasCounter;
use mc_server::Server;
use mc_store::Store;
use std::alloc::Global;
use std::test::Fail;

/// How a server is set up.
#[derive(Clone, Copy)]
pub struct Setup {
    /// The budget, in bytes.
    pub budget: u64,
    /// How many items there is room for.
    pub items: usize,
    /// The last number that was given to an item.
    pub last: u64,
    /// The number of new keys that there is memory for.
    pub keys: u64,
}

/// A server with room, numbers and memory for all that an example stores.
pub const WIDE: Setup = Setup {
    budget: 67_108_864,
    items: 1_000,
    last: 0,
    keys: u64::MAX,
};

/// The moment of every turn, in seconds.
pub const MOMENT: u64 = 100;

/// A server with this setup.
pub fn new_server(alloc: Global, setup: Setup) -> Result<Server<MeagreStore>, Fail> {
    server_over(alloc, MeagreStore::new(alloc, setup.keys), setup)
}

/// A server over a store, with this setup except the memory for new keys.
pub fn server_over<S: Store + Drop>(
    alloc: Global,
    store: S,
    setup: Setup,
) -> Result<Server<S>, Fail>
    requires empty { S.items store ≡ [] }
    requires room { HasRoom setup.items (S.most store) }
{
    if !is_within_bounds(setup.budget, setup.items) {
        return Err("no cache has these bounds".into());
    }
    let counter = CasCounter::starting_at(setup.last);
    let cache = Cache::new(alloc, store, setup.budget, setup.items, counter);
    Ok(Server::new(alloc, cache))
}
