//! Tables: entries that are found by a hash, in the order of their last use.
ghost use Rattle.std.specs.Prelude.{◌≡◌, ◌^◌, ◌<◌, [], ◌∷◌, ◌++◌, suc, length, drop, slice_get, IfOk, IfErr, IfSome, IfNone, OnOk, OnErr, None, Some};
ghost use Rattle.std.specs.Option.{option_copied_mut, option_map};
ghost use Rattle.std.specs.Borrow.{sem};
ghost use Rattle.std.specs.Map.{lookup, lookup_entry, remove_entry};
ghost use Rattle.std.specs.Map.Iter.{deref_pair};
ghost use Rattle.mc_table.specs.Places.{left_out};
ghost use Rattle.mc_table.specs.Tables.{in_order, promoted, put_entry, IsTable};

use crate::hash_indexes::HashIndex;
use crate::hints::Hint;
use crate::lru_lists::LruList;
use std::alloc::{AllocError, AllocFailed, Global};
use std::collections::hash_map::Equivalent;
use std::hash::{BuildHasher, Hash};
use std::marker::Model;
use std::mem;

/// Entries that are found by a hash, in the order of their last use.
///
/// Contracts see the entries, the most recently used first.
///
/// # Work
///
/// A call with a key hashes it once and searches once. Given a hint that is right, it does neither. `put` hashes a key that is not there
/// twice. `put_front` and `tag` hash once and search nothing, and the other calls hash nothing. A search passes the entries of one bucket.
/// Removing an entry passes those of two: its own, and that of the last entry, which takes its place. The constructor fixes the number of
/// buckets: at least one for each entry that it takes room for (up to 2^31). So only `clear` does work that grows with the entries, as
/// long as the table has no more than it was made for and hashes spread. It never rehashes.
///
/// # Memory
///
/// The constructor reserves room for `entries` entries. A table holds fewer than 2^32: one more is refused as if there were no memory. An
/// entry takes its key, its value, 8 bytes beside them, 8 in the order, and 4 to 8 for the heads of the buckets. A head has 4 bytes, and
/// there are at least 16 heads and at most 2^31.
#[derive(Drop)]
pub struct Table<K: Eq + Hash, V, S: BuildHasher> {
    entries: HashIndex<K, V, S>,
    /// The place of each entry: its index plus one.
    order: LruList,
}

impl<K: Eq + Hash, V, S: BuildHasher> Model for Table<K, V, S> {
    ghost use Rattle.std.specs.Prelude.{List};
    ghost use Rattle.std.specs.Coded.{coded_list, coded×};
    ghost use Rattle.mc_table.specs.Tables.{in_order, IsTable};

    ghost Value = { List (K × V) };

    ghost coded = { coded_list (coded× K.code V.code) };

    ghost view = { λ t. in_order t.entries t.order };

    ghost invariant = { λ t. IsTable t.entries t.order };
}

impl<K: Eq + Hash, V, S: BuildHasher + Drop> Table<K, V, S> {
    /// Makes a table of no entry, with room for `entries`, whose keys this hasher hashes.
    pub fn with_hasher(alloc: Global, entries: usize, hasher: S) -> Result<Self, AllocError>
        ensures { IfOk result (λ t. t ≡ []) }
    {
        let order = LruList::with_capacity(alloc, entries)?;
        let entries = HashIndex::with_hasher(alloc, entries, hasher)?;
        Ok(Table { entries, order })
    }
}

impl<K: Eq + Hash, V, S: BuildHasher> Table<K, V, S> {
    ghost use Rattle.mc_table.specs.Lends.{lends_value};

    /// Returns the number of entries.
    pub fn len(&self) -> usize
        ensures len { result ≡ length self.now }
        ensures fits { result < 2 ^ 63 }
    {
        self.entries.len()
    }

    /// Returns the value of the key, and a hint of its slot, which is right until an entry is removed. The order stays.
    pub fn find<Q: Equivalent<K>>(&self, k: Q, hint: Hint) -> Option<(Hint, &V)>
        ensures { option_map (λ found. found.1.now) result ≡ lookup (Q.equivalent k) self.now }
    {
        let index = self.entries.get_index_of(k, hint)?;
        let slot = index as u32 + 1;
        Some((Hint { slot }, self.entries.at(index).1))
    }

    /// Removes and returns the key and its value.
    pub fn pop_entry<Q: Equivalent<K>>(&mut self, k: Q, hint: Hint) -> Option<(K, V)>
        ensures value { result ≡ lookup_entry (Q.equivalent k) self.old }
        ensures entries { self.new ≡ remove_entry (Q.equivalent k) self.old }
    {
        let Some(index) = self.entries.get_index_of(k, hint) else {
            return None;
        };
        Some(remove_at(&mut self.entries, &mut self.order, index))
    }

    /// Removes and returns the entry that was used least recently.
    pub fn pop_lru(&mut self) -> Option<(K, V)>
        ensures last { IfSome result (λ last. self.old ≡ self.new ++ last ∷ []) }
        ensures empty { IfNone result ((self.old ≡ []) × (self.new ≡ [])) }
    {
        let place = self.order.last();
        if place == 0 {
            return None;
        }
        Some(remove_at(&mut self.entries, &mut self.order, place as usize - 1))
    }

    /// Removes and returns the entry that was used most recently.
    pub fn pop_mru(&mut self) -> Option<(K, V)>
        ensures value { result ≡ slice_get self.old 0 }
        ensures entries { self.new ≡ drop 1 self.old }
    {
        let place = self.order.first();
        if place == 0 {
            return None;
        }
        Some(remove_at(&mut self.entries, &mut self.order, place as usize - 1))
    }

    /// Returns the entry that was used most recently.
    pub fn peek_mru(&self) -> Option<(&K, &V)>
        ensures { option_map deref_pair result ≡ slice_get self.now 0 }
    {
        let place = self.order.first();
        if place == 0 {
            return None;
        }
        Some(self.entries.at(place as usize - 1))
    }

    /// Returns the value of the key, to write to, and makes it the most recently used.
    pub fn get_mut<Q: Equivalent<K>>(&mut self, k: Q, hint: Hint) -> Option<&mut V>
        ensures* writes_back { sem 𝓛 (lends_value K.row V.row S.row S.Hasher.row K.Hash S.BuildHasher S.Hasher.Hasher self.entry (Q.equivalent k) (promoted (Q.equivalent k) self.old) result) }
        ensures value { option_copied_mut result ≡ lookup (Q.equivalent k) self.old }
    {
        let index = self.entries.get_index_of(k, hint)?;
        self.order.to_front(index as u32 + 1);
        Some(self.entries.value_mut(index))
    }

    /// Returns the tag of a key, which [`Table::prefetch`] takes.
    #[inline]
    pub fn tag<Q: Hash + Copy>(&self, k: Q) -> u32 {
        self.entries.tag(k)
    }

    /// Prefetches: for each tag it writes a hint of the slot whose key has that tag ([`Hint::none`] if there is no such slot), and changes
    /// nothing else. A hint may be wrong. One that is right stays right until an entry is removed. The heads and the slots of all tags are
    /// read in groups, so the processor loads their memory at once: group prefetching, known from hash joins.
    #[inline]
    pub fn prefetch(&self, tags: &[u32], hints: &mut [Hint]) {
        self.entries.prefetch(tags, hints);
    }

    /// Returns the hint that is right for the entry that was used most recently; [`Hint::none`] if there is no entry.
    #[inline]
    pub fn first_hint(&self) -> Hint {
        Hint {
            slot: self.order.first(),
        }
    }

    /// Returns the entry in the slot of a hint, if there is one.
    #[inline]
    pub fn hinted(&self, hint: Hint) -> Option<(&K, &V)> {
        self.entries.entry(hint)
    }

    /// Prefetches the neighbours in the order of the entry in the slot of a hint, before that entry is brought to the front. The returned
    /// byte only keeps the loads alive.
    #[inline]
    pub fn prefetch_neighbours(&self, hint: Hint) -> u8 {
        self.order.prefetch_neighbours(hint.slot)
    }

    /// Inserts a value under a key, in front. If the key exists, it returns the old value, and the old key stays.
    ///
    /// If there is no memory, `Err` returns the key and the value, and nothing has changed.
    pub fn put(&mut self, k: K, v: V) -> Result<Option<V>, AllocFailed<(K, V)>>
    where
        K: Drop,
        V: Drop,
        ensures old { IfOk result (λ old. old ≡ lookup (K.eq k) self.old) }
        ensures entries { OnOk result (self.new ≡ put_entry K.eq k v self.old) }
        ensures value_returned { IfErr result (λ y. y.value ≡ (k, v)) }
        ensures err { OnErr result (self.new ≡ self.old) }
    {
        if let Some(held) = self.get_mut(&k, Hint::none()) {
            return Ok(Some(mem::replace(held, v)));
        }
        self.put_front(k, v)?;
        Ok(None)
    }

    /// Removes all entries, in sequence, and empties each bucket.
    pub fn clear(&mut self)
    where
        K: Drop,
        V: Drop,
        ensures { self.new ≡ [] }
    {
        self.entries.clear();
        self.order.clear();
    }

    /// Inserts an entry in front, under a key that no entry has.
    ///
    /// If there is no memory, `Err` returns the key and the value, and nothing has changed.
    pub fn put_front(&mut self, k: K, v: V) -> Result<(), AllocFailed<(K, V)>>
    where
        K: Drop,
        V: Drop,
        requires { lookup (K.eq k) self.old ≡ None }
        ensures ok { OnOk result (self.new ≡ (k, v) ∷ self.old) }
        ensures value_returned { IfErr result (λ y. y.value ≡ (k, v)) }
        ensures err { OnErr result (self.new ≡ self.old) }
    {
        let Ok(()) = self.order.push_front() else {
            return Err(AllocFailed { value: (k, v) });
        };
        match self.entries.push(k, v) {
            Ok(()) => Ok(()),
            Err(failed) => {
                let place = self.order.first();
                self.order.remove(place);
                Err(failed)
            }
        }
    }
}

/// Removes and returns the entry at an index, and removes its place.
fn remove_at<K: Eq + Hash, V, S: BuildHasher>(
    entries: &mut HashIndex<K, V, S>,
    order: &mut LruList,
    index: usize,
) -> (K, V)
    requires table { IsTable entries.old order.old }
    requires within { index < length entries.old }
    ensures entry { slice_get entries.old index ≡ Some result }
    ensures table { IsTable entries.new order.new }
    ensures others { in_order entries.new order.new ≡ in_order entries.old (left_out (suc index) order.old) }
{
    let entry = entries.swap_remove(index);
    order.remove((index + 1) as u32);
    entry
}
