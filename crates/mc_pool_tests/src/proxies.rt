//! Worlds whose proxies have different numbers of clients, which no script can name.

use crate::pools::{ONE, ring};
use mc_store::ListStore;
use mc_world::{Losses, World, WorldError};
use std::alloc::Global;
use std::test::Fail;

/// The clients of each proxy of worlds that can be opened.
const GOOD: [&[usize]; 5] = [&[1], &[0], &[2, 0, 3], &[1_000, 24], &[0; 64]];

/// A world of one server.
fn opened(alloc: Global, clients: &[usize]) -> Result<World<ListStore>, WorldError> {
    let Ok(ring) = ring(alloc, &ONE) else {
        return Err(WorldError::Memory);
    };
    let mut stores = Vec::new(alloc);
    stores.push(ListStore::new(alloc))?;
    World::with_proxies(alloc, ring, Losses::Told, clients, 1, 1, stores)
}

/// Whether such a world can be opened.
fn is_opened(alloc: Global, clients: &[usize]) -> Result<bool, WorldError> {
    match opened(alloc, clients) {
        Ok(_) => Ok(true),
        Err(WorldError::BadWorld) => Ok(false),
        Err(cause) => Err(cause),
    }
}

#[test]
fn worlds_have_1_to_64_proxies_and_at_most_1024_clients(rt: HostRuntime) -> Result<(), Fail> {
    for clients in GOOD {
        assert!(rt; is_opened(rt.alloc(), clients)?);
    }
    Ok(())
}
