//! `HashStore`: items in a container that finds them by a hash.
ghost use Rattle.std.specs.Prelude.{◌≡◌, ◌≤◌, ◌<◌, ◌^◌, ◌↔◌, [], ◌+◌, Some, IfOk, IsErrOf};
ghost use Rattle.mc_store.specs.Epochs.{HasRoom};
ghost use Rattle.mc_store.specs.Items.{cost_sum};

use crate::epoch_cache::EpochCache;
use crate::epoch_entries::EpochEntry;
use crate::recent::Recent;
use crate::stores::Store;
use crate::sums::Sums;
use lru::LruCache;
use mc_item::{Body, Deadline, cost};
use mc_table::{Hint, Table};
use mc_text::Key;
use std::alloc::{AllocError, Global};
use std::hash::{BuildHasher, BuildHasherDefault, FoldHasher};
use std::marker::Model;
use std::num::NonZeroUsize;
use thiserror::Error;

/// Why there is no store.
#[derive(Debug, Drop, Error)]
pub enum StoreError {
    /// 1: no memory for the store.
    #[error("out of memory")]
    Memory,
    /// 2: one more item than the limit is no number of 64 bits.
    #[error("too many items")]
    TooMany,
}

impl From<AllocError> for StoreError {
    ghost use Rattle.mc_store.specs.declared.hash_store.StoreError.TheVariants.{Memory};

    ghost from_gives = { λ _ e. e ≡ Memory };

    fn from(_e: AllocError) -> StoreError {
        StoreError::Memory
    }
}

/// The hasher of [`LruStore::new`] and [`TableStore::new`], whose seed is fixed: a script gives the same steps each time.
pub type FixedHasher = BuildHasherDefault<FoldHasher>;

/// The items in lru's cache: a node of its own for each, in a list by last use.
pub type LruStore<H> = HashStore<LruCache<Key, EpochEntry, H>>;

/// The items in our own table, in one vector: it takes less memory per item than an [`LruStore`], and causes fewer cache misses.
pub type TableStore<H> = HashStore<Table<Key, EpochEntry, H>>;

/// Items in a container that finds them by a hash, in the order of their last use: an [`LruStore`] or a [`TableStore`]. It keeps sums over them.
///
/// Contracts see the items and the greatest number of them. What they cost together stays below 2^63.
///
/// # Work
///
/// A call with a key hashes it once and searches once. Given a hint that is right, it does neither. `put_front` hashes its key twice, and
/// `prefetch` each key once. `len`, `used`, `longest`, `front` and `clear` hash nothing. Removing the last entry, or a dead one, hashes
/// nothing in a [`TableStore`], and that entry's key in an [`LruStore`]. So none of these takes longer if more items are stored, as long as
/// the hash spreads the keys, except as said of `put_front` below.
///
/// `clear` begins a new epoch, which makes all entries dead. They are not counted and not found, and they are freed later. A call with a
/// key frees the dead entry of that key, except that `peek`, `find` and `prefetch` free none. Each `put_front` frees at least two more,
/// until they cost as much as the item or none is left. Each `replace` that finds its key frees as many for the new value. `drop_last`
/// frees all of them first. Freeing one costs as much as removing the last entry. While dead entries are left no store makes the entries
/// cost more, or be more, live and dead together. So a store that is kept within a budget and a limit has no dead ones left when it evicts
/// an item. Dropping the store frees the entries in sequence.
///
/// # Memory
///
/// The constructor of a [`TableStore`] reserves room for all entries and its search table, which is never rehashed: no call takes time for
/// each entry, except dropping the store. That of an [`LruStore`] reserves its search table alone, for 9 * 2^k items, the least such number
/// that is enough; each new item then takes a node. The memory of dead entries stays reserved until they are freed.
///
/// In the search table of an [`LruStore`] a key that is removed from a crowded part leaves a tombstone. No free place may be left after long
/// eviction or a clear. Then `put_front` first rebuilds that table, which takes time for each entry but hashes none. That is done in place
/// if the entries, including the new one, are at most half of its capacity. Else the table is doubled, and only that takes memory; then they
/// are at most half of it, so this happens once in a store's life. If memory is refused, so is the item, and the items are unchanged.
#[derive(Drop)]
pub struct HashStore<M: Recent> {
    cache: EpochCache<M>,
    sums: Sums,
}

impl<M: Recent> Model for HashStore<M> {
    ghost use Rattle.mc_store.specs.Items.{LimitedItems};
    ghost use Rattle.mc_store.specs.Sums.{IsSumOf};

    ghost Value = { LimitedItems };

    ghost view = { λ s. record { items = s.cache.items; most = s.cache.most } };

    ghost invariant = { λ s. IsSumOf s.sums s.cache.items };
}

impl LruStore<FixedHasher> {
    /// Makes a store over lru's cache with no item, and room for `items` and one more: the one that a caller inserts before it evicts
    /// another. Its hasher's seed is fixed, so a client that chooses the keys can make them collide. For untrusted keys use
    /// [`LruStore::with_hasher`].
    pub fn new(alloc: Global, items: usize) -> Result<Self, StoreError>
        ensures empty { IfOk result (λ store. store.items ≡ []) }
        ensures most { IfOk result (λ store. store.most ≡ items + 1) }
        ensures too_many { IsErrOf result StoreError.TooMany ↔ (2 ^ 64 ≤ items + 1) }
    {
        LruStore::with_hasher(alloc, items, BuildHasherDefault::new())
    }
}

impl<H: BuildHasher + Drop> LruStore<H> {
    /// Makes a store over lru's cache with no item, and room for `items` and one more, whose keys this hasher hashes.
    pub fn with_hasher(alloc: Global, items: usize, hasher: H) -> Result<Self, StoreError>
        ensures empty { IfOk result (λ store. store.items ≡ []) }
        ensures most { IfOk result (λ store. store.most ≡ items + 1) }
        ensures too_many { IsErrOf result StoreError.TooMany ↔ (2 ^ 64 ≤ items + 1) }
    {
        let most = items.checked_add(1).ok_or(StoreError::TooMany)?;
        let room = NonZeroUsize::new(most).ok_or(StoreError::TooMany)?;
        let cache = LruCache::with_hasher(alloc, room, hasher)?;
        Ok(HashStore::over(cache, most))
    }
}

impl TableStore<FixedHasher> {
    /// Makes a store over a table with no item, and room for `items` and one more, as [`LruStore::new`].
    pub fn new(alloc: Global, items: usize) -> Result<Self, StoreError>
        ensures empty { IfOk result (λ store. store.items ≡ []) }
        ensures most { IfOk result (λ store. store.most ≡ items + 1) }
        ensures too_many { IsErrOf result StoreError.TooMany ↔ (2 ^ 64 ≤ items + 1) }
    {
        TableStore::with_hasher(alloc, items, BuildHasherDefault::new())
    }
}

impl<H: BuildHasher + Drop> TableStore<H> {
    /// Makes a store over a table with no item, and room for `items` and one more, whose keys this hasher hashes.
    pub fn with_hasher(alloc: Global, items: usize, hasher: H) -> Result<Self, StoreError>
        ensures empty { IfOk result (λ store. store.items ≡ []) }
        ensures most { IfOk result (λ store. store.most ≡ items + 1) }
        ensures too_many { IsErrOf result StoreError.TooMany ↔ (2 ^ 64 ≤ items + 1) }
    {
        let most = items.checked_add(1).ok_or(StoreError::TooMany)?;
        let cache = Table::with_hasher(alloc, most, hasher)?;
        Ok(HashStore::over(cache, most))
    }
}

impl<M: Recent> HashStore<M> {
    /// Makes a store with no item, over a container that has no entry. It may have `most` items.
    fn over(cache: M, most: usize) -> Self
        requires empty { M.entries cache ≡ [] }
        requires room { HasRoom most (M.room cache) }
        ensures items { result.items ≡ [] }
        ensures most { result.most ≡ most }
    {
        HashStore {
            cache: EpochCache::over(cache, most),
            sums: Sums::none(),
        }
    }
}

impl<M: Recent> Store for HashStore<M> {
    ghost items = { λ s. s.items };

    ghost most = { λ s. Some s.most };

    fn len(&self) -> usize {
        self.cache.len()
    }

    fn used(&self) -> u64 {
        self.sums.used
    }

    fn longest(&self) -> usize {
        self.sums.longest()
    }

    fn find(&self, key: &[u8], hint: Hint) -> Option<(Hint, &Body)> {
        self.cache.find(key, hint)
    }

    fn front(&self) -> Option<&Body> {
        self.cache.front()
    }

    fn bring(&mut self, key: &[u8], hint: Hint) -> bool {
        self.cache.bring(key, hint)
    }

    fn prefetches(&self) -> bool {
        self.cache.prefetches()
    }

    fn prefetch(&self, keys: &[&[u8]], hints: &mut [Hint]) -> u8 {
        self.cache.prefetch(keys, hints)
    }

    fn expire(&mut self, key: &[u8], hint: Hint, expiry: Deadline) -> bool {
        self.cache.expire(key, hint, expiry)
    }

    fn mark(&mut self, key: &[u8], hint: Hint, stale: bool, won: bool, cas: u64) -> bool {
        self.cache.mark(key, hint, stale, won, cas)
    }

    fn first_hint(&self) -> Hint {
        self.cache.first_hint()
    }

    fn take(&mut self, key: &[u8], hint: Hint) -> Option<Body> {
        let item = self.cache.take(key, hint)?;
        self.sums
            .take_away(cost(&item.0, &item.1), item.1.value.len());
        Some(body_of(item))
    }

    fn replace(&mut self, key: &[u8], hint: Hint, body: Body) -> Result<Body, Body> {
        let length = body.value.len();
        match self.cache.replace(key, hint, body) {
            Ok(before) => {
                let shorter = before.value.len();
                self.sums.take_away(shorter as u64, shorter);
                self.sums.add(length as u64, length);
                Ok(before)
            }
            Err(body) => Err(body),
        }
    }

    fn put_front(&mut self, key: Key, body: Body) -> Result<(), (Key, Body)> {
        let price = cost(&key, &body);
        let length = body.value.len();
        self.cache.put_front(key, body)?;
        self.sums.add(price, length);
        Ok(())
    }

    fn drop_last(&mut self) -> Option<(Key, Body)> {
        let last = self.cache.drop_last()?;
        self.sums
            .take_away(cost(&last.0, &last.1), last.1.value.len());
        Some(last)
    }

    fn clear(&mut self) {
        self.cache.clear();
        self.sums = Sums::none();
    }
}

/// Returns the body of an item, whose key is dropped.
fn body_of(item: (Key, Body)) -> Body
    ensures { result ≡ item.1 }
{
    item.1
}
