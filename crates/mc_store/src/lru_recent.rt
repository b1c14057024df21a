//! lru's cache, as entries by key with the most recently used first. It has no slots, and ignores hints.
ghost use Rattle.std.specs.Prelude.{Some, refl};
ghost use Rattle.lru.specs.LruCache.{lru_cache};
ghost use Rattle.mc_store.specs.Recents.{written};

use crate::epoch_entries::EpochEntry;
use crate::recent::Recent;
use lru::LruCache;
use mc_table::Hint;
use mc_text::{Key, KeyBytes};
use std::hash::BuildHasher;

impl<H: BuildHasher> Recent for LruCache<Key, EpochEntry, H> {
    ghost entries = { λ c. c.entries };

    ghost room = { λ c. Some c.cap };

    ghost lent = { λ c key held. lru_cache (written key c.entries held) c.cap };

    ghost lent_entries = { λ _ _ _. refl };

    ghost lent_room = { λ _ _ _. refl };

    #[inline]
    fn len(&self) -> usize {
        LruCache::len(self)
    }

    #[inline]
    fn find(&self, key: &[u8], _hint: Hint) -> Option<(Hint, &EpochEntry)> {
        let held = LruCache::peek(self, KeyBytes { bytes: key })?;
        Some((Hint::none(), held))
    }

    #[inline]
    fn front(&self) -> Option<&EpochEntry> {
        let (_, held) = self.peek_mru()?;
        Some(held)
    }

    #[inline]
    fn get_mut(&mut self, key: &[u8], _hint: Hint) -> Option<&mut EpochEntry> {
        LruCache::get_mut(self, KeyBytes { bytes: key })
    }

    #[inline]
    fn pop_entry(&mut self, key: &[u8], _hint: Hint) -> Option<(Key, EpochEntry)> {
        LruCache::pop_entry(self, KeyBytes { bytes: key })
    }

    #[inline]
    fn pop_mru(&mut self) -> Option<(Key, EpochEntry)> {
        LruCache::pop_mru(self)
    }

    #[inline]
    fn pop_lru(&mut self) -> Option<(Key, EpochEntry)> {
        LruCache::pop_lru(self)
    }

    #[inline]
    fn put(&mut self, key: Key, held: EpochEntry) -> Result<(), (Key, EpochEntry)> {
        match LruCache::put(self, key, held) {
            Ok(_) => Ok(()),
            Err(failed) => Err(failed.value),
        }
    }

    #[inline]
    fn clear(&mut self) {
        LruCache::clear(self)
    }
}
