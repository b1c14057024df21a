//! The store of the kind that the operator chose.
ghost use Rattle.std.specs.Prelude.{Some};
ghost use Rattle.mc_serverd.specs.Chosen.{held_by};

use mc_item::{Body, Deadline};
use mc_store::{Hint, LruStore, Store, TableStore};
use mc_table::SecretState;
use mc_text::Key;
use std::hash::RandomState;

/// A store of the chosen kind. A server over it is one body of code for both kinds. With a body for each, what both call is no
/// longer inlined, which costs a get in a pipeline 170 instructions.
#[derive(Drop)]
pub enum ChosenStore {
    /// Our own table, with our own hasher.
    Table(TableStore<SecretState>),
    /// lru's cache, with std's hasher.
    Lru(LruStore<RandomState>),
}

impl Store for ChosenStore {
    ghost items = { λ s. (held_by s).items };

    ghost most = { λ s. Some (held_by s).most };

    fn len(&self) -> usize {
        match self {
            ChosenStore::Table(store) => store.len(),
            ChosenStore::Lru(store) => store.len(),
        }
    }

    fn used(&self) -> u64 {
        match self {
            ChosenStore::Table(store) => store.used(),
            ChosenStore::Lru(store) => store.used(),
        }
    }

    fn longest(&self) -> usize {
        match self {
            ChosenStore::Table(store) => store.longest(),
            ChosenStore::Lru(store) => store.longest(),
        }
    }

    fn find(&self, key: &[u8], hint: Hint) -> Option<(Hint, &Body)> {
        match self {
            ChosenStore::Table(store) => store.find(key, hint),
            ChosenStore::Lru(store) => store.find(key, hint),
        }
    }

    fn front(&self) -> Option<&Body> {
        match self {
            ChosenStore::Table(store) => store.front(),
            ChosenStore::Lru(store) => store.front(),
        }
    }

    fn bring(&mut self, key: &[u8], hint: Hint) -> bool {
        match self {
            ChosenStore::Table(store) => store.bring(key, hint),
            ChosenStore::Lru(store) => store.bring(key, hint),
        }
    }

    fn prefetches(&self) -> bool {
        match self {
            ChosenStore::Table(store) => store.prefetches(),
            ChosenStore::Lru(store) => store.prefetches(),
        }
    }

    fn prefetch(&self, keys: &[&[u8]], hints: &mut [Hint]) -> u8 {
        match self {
            ChosenStore::Table(store) => store.prefetch(keys, hints),
            ChosenStore::Lru(store) => store.prefetch(keys, hints),
        }
    }

    fn expire(&mut self, key: &[u8], hint: Hint, expiry: Deadline) -> bool {
        match self {
            ChosenStore::Table(store) => store.expire(key, hint, expiry),
            ChosenStore::Lru(store) => store.expire(key, hint, expiry),
        }
    }

    fn mark(&mut self, key: &[u8], hint: Hint, stale: bool, won: bool, cas: u64) -> bool {
        match self {
            ChosenStore::Table(store) => store.mark(key, hint, stale, won, cas),
            ChosenStore::Lru(store) => store.mark(key, hint, stale, won, cas),
        }
    }

    fn first_hint(&self) -> Hint {
        match self {
            ChosenStore::Table(store) => store.first_hint(),
            ChosenStore::Lru(store) => store.first_hint(),
        }
    }

    fn take(&mut self, key: &[u8], hint: Hint) -> Option<Body> {
        match self {
            ChosenStore::Table(store) => store.take(key, hint),
            ChosenStore::Lru(store) => store.take(key, hint),
        }
    }

    fn replace(&mut self, key: &[u8], hint: Hint, body: Body) -> Result<Body, Body> {
        match self {
            ChosenStore::Table(store) => store.replace(key, hint, body),
            ChosenStore::Lru(store) => store.replace(key, hint, body),
        }
    }

    fn put_front(&mut self, key: Key, body: Body) -> Result<(), (Key, Body)> {
        match self {
            ChosenStore::Table(store) => store.put_front(key, body),
            ChosenStore::Lru(store) => store.put_front(key, body),
        }
    }

    fn drop_last(&mut self) -> Option<(Key, Body)> {
        match self {
            ChosenStore::Table(store) => store.drop_last(),
            ChosenStore::Lru(store) => store.drop_last(),
        }
    }

    fn clear(&mut self) {
        match self {
            ChosenStore::Table(store) => store.clear(),
            ChosenStore::Lru(store) => store.clear(),
        }
    }
}
