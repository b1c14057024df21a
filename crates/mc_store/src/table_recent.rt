//! Our own table, as entries by key with the most recently used first.
ghost use Rattle.std.specs.Prelude.{None, refl};
ghost use Rattle.mc_store.specs.Recents.{written};

use crate::epoch_entries::EpochEntry;
use crate::recent::Recent;
use mc_table::{Hint, Table};
use mc_text::{Key, KeyBytes};
use std::hash::BuildHasher;

/// With fewer entries it prefetches none: their memory is near the processor.
const MANY: usize = 32_768;

/// The offsets in a value whose cache lines are prefetched. A cache line has 64 bytes.
const LINES: [usize; 4] = [0, 64, 128, 192];

/// The most keys whose entries are prefetched at once.
const AT_ONCE: usize = 32;

/// Prefetches the key and the value of an entry: returns the first byte of the key, those at `LINES` of the value and its last, joined by
/// exclusive or; 0 if there is no entry. The returned byte only keeps the loads alive.
#[inline]
fn touch_value_lines(entry: Option<(&Key, &EpochEntry)>) -> u8 {
    let Some((key, held)) = entry else {
        return 0;
    };
    let value = held.body.value.as_slice();
    let mut joined = key.as_bytes().first().copied().unwrap_or(0);
    for begin in LINES {
        joined ^= value.get(begin).copied().unwrap_or(0);
    }
    joined ^ value.last().copied().unwrap_or(0)
}

impl<H: BuildHasher> Recent for Table<Key, EpochEntry, H> {
    ghost entries = { λ t. t };

    ghost room = { λ _. None };

    ghost lent = { λ t key held. written key t held };

    ghost lent_entries = { λ _ _ _. refl };

    ghost lent_room = { λ _ _ _. refl };

    #[inline]
    fn len(&self) -> usize {
        Table::len(self)
    }

    #[inline]
    fn find(&self, key: &[u8], hint: Hint) -> Option<(Hint, &EpochEntry)> {
        Table::find(self, KeyBytes { bytes: key }, hint)
    }

    #[inline]
    fn front(&self) -> Option<&EpochEntry> {
        let (_, held) = self.peek_mru()?;
        Some(held)
    }

    #[inline]
    fn get_mut(&mut self, key: &[u8], hint: Hint) -> Option<&mut EpochEntry> {
        Table::get_mut(self, KeyBytes { bytes: key }, hint)
    }

    #[inline]
    fn prefetches(&self) -> bool {
        Table::len(self) >= MANY
    }

    fn prefetch(&self, keys: &[&[u8]], hints: &mut [Hint]) -> u8 {
        let mut read = 0;
        for (keys, hints) in keys.chunks(AT_ONCE).zip(hints.chunks_mut(AT_ONCE)) {
            let mut tags = [0; AT_ONCE];
            for (tag, key) in tags.iter_mut().zip(keys) {
                *tag = self.tag(KeyBytes { bytes: key });
            }
            Table::prefetch(self, &tags, hints);
            for hint in hints.iter().filter(|hint| **hint != Hint::none()) {
                read ^= touch_value_lines(self.hinted(*hint)) ^ self.prefetch_neighbours(*hint);
            }
        }
        read
    }

    #[inline]
    fn pop_entry(&mut self, key: &[u8], hint: Hint) -> Option<(Key, EpochEntry)> {
        Table::pop_entry(self, KeyBytes { bytes: key }, hint)
    }

    #[inline]
    fn first_hint(&self) -> Hint {
        Table::first_hint(self)
    }

    #[inline]
    fn pop_mru(&mut self) -> Option<(Key, EpochEntry)> {
        Table::pop_mru(self)
    }

    #[inline]
    fn pop_lru(&mut self) -> Option<(Key, EpochEntry)> {
        Table::pop_lru(self)
    }

    #[inline]
    fn put(&mut self, key: Key, held: EpochEntry) -> Result<(), (Key, EpochEntry)> {
        match Table::put(self, key, held) {
            Ok(_) => Ok(()),
            Err(failed) => Err(failed.value),
        }
    }

    #[inline]
    fn clear(&mut self) {
        Table::clear(self)
    }
}
