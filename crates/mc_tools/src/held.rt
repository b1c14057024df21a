//! A cache that only stores items.
ghost use Rattle.std.specs.Prelude.{◌<◌, ◌^◌};

use anyhow::ensure;
use mc_cache::{Cache, is_within_bounds};
use mc_item::CasCounter;
use mc_reply::Reply;
use mc_request::{StoreMode, Update};
use mc_store::{FixedHasher, Hint, TableStore};
use mc_text::Key;
use std::alloc::Global;

/// The budget of the cache in bytes, so large that nothing is evicted by it.
const BUDGET: u64 = 1_099_511_627_776;

/// A value of 100 bytes.
const VALUE: [u8; 100] = [b'x'; 100];

/// A cache over a table.
type Held = Cache<TableStore<FixedHasher>>;

/// Sets this number of items with a key of 20 bytes and a value of 100 bytes, and prints how many were stored. A tool that measures
/// the memory of a process finds the memory of an item by two such runs.
pub fn hold(rt: &HostRuntime, items: u64) -> anyhow::Result<()> {
    let mut cache = table(rt.alloc(), items.max(1) as usize)?;
    let stored = fill(rt.alloc(), &mut cache, items)?;
    println!(rt; "{stored} items are held")?;
    Ok(())
}

/// Sets this number of items, and returns how many were stored.
fn fill(alloc: Global, cache: &mut Held, items: u64) -> anyhow::Result<u64> {
    let mut stored = 0u64;
    for number in 0..items {
        stored = stored.saturating_add(u64::from(is_set(cache, &key(alloc, number)?)?));
    }
    Ok(stored)
}

/// An empty cache of this limit over a table.
fn table(alloc: Global, items: usize) -> anyhow::Result<Held> {
    ensure!(is_within_bounds(BUDGET, items), "no limit of items");
    let store = TableStore::new(alloc, items)?;
    Ok(Cache::new(alloc, store, BUDGET, items, CasCounter::starting_at(0)))
}

/// The key of this number, of 20 bytes.
fn key(alloc: Global, number: u64) -> anyhow::Result<Key> {
    let text = format!(in alloc; "key:{number:016}")?;
    Ok(Key::plain(alloc, text.as_bytes())?)
}

/// Sets a key, and returns whether it was stored.
fn is_set(cache: &mut Held, key: &Key) -> anyhow::Result<bool> {
    let update = Update::Store {
        mode: StoreMode::Set,
        compare: None,
        key: key.as_bytes(),
        flags: 0,
        exptime: 0,
        block: VALUE.as_slice(),
    };
    Ok(matches!(cache.update(&update, Hint::none(), 0)?, Reply::Stored))
}
