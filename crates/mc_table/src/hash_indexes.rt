//! Entries that are found by a hash, in one vector.
ghost use Rattle.std.specs.Prelude.{◌≡◌, ◌^◌, ◌<◌, ◌+◌, [], ◌∷◌, ◌++◌, Some, length, slice_get, IfOk, IfErr, IfSome, IfNone, OnOk, OnErr};
ghost use Rattle.std.specs.Borrow.{sem};
ghost use Rattle.std.specs.List.{swap_remove};
ghost use Rattle.std.specs.Map.{values_of};
ghost use Rattle.mc_table.specs.Chains.{IsBucketCount};
ghost use Rattle.mc_table.specs.Slots.{tag_of};
ghost use Rattle.mc_table.specs.Tables.{IsAt, IsNowhere};

use crate::chains::{bucket_of, prefetch, search, stands_at, take_out};
use crate::hints::Hint;
use crate::slots::Slot;
use std::alloc::{AllocError, AllocFailed, Global};
use std::collections::hash_map::Equivalent;
use std::hash::{BuildHasher, Hash};
use std::marker::Model;

/// Entries that are found by a hash, in one vector. No two keys are equal.
///
/// Contracts see the entries by their index. The constructor fixes the number of buckets, so only `clear` does work that grows
/// with the entries.
#[derive(Drop)]
pub struct HashIndex<K: Eq + Hash, V, S: BuildHasher> {
    slots: Vec<Slot<K, V>>,
    /// The first place of each bucket's chain, or 0 if it has no slot.
    heads: Vec<u32>,
    hasher: S,
}

impl<K: Eq + Hash, V, S: BuildHasher> Model for HashIndex<K, V, S> {
    ghost use Rattle.std.specs.Prelude.{List};
    ghost use Rattle.std.specs.Coded.{coded_list, coded×};

    ghost Value = { List (K × V) };

    ghost coded = { coded_list (coded× K.code V.code) };

    ghost use Rattle.mc_table.specs.Slots.{entries_of, tag_of, AreHashed};

    ghost view = { λ t. entries_of t.slots.items };

    ghost invariant = { λ t. AreHashed K.eq (λ k. tag_of S.BuildHasher S.Hasher.Hasher t.hasher (K.hash_input k)) t.heads.items t.slots.items };
}

impl<K: Eq + Hash, V, S: BuildHasher + Drop> HashIndex<K, V, S> {
    /// Makes a table of no entry, with room for `entries`, whose keys this hasher hashes.
    pub fn with_hasher(alloc: Global, entries: usize, hasher: S) -> Result<Self, AllocError>
        ensures { IfOk result (λ t. t ≡ []) }
    {
        let buckets = buckets_for(entries);
        let mut heads = Vec::with_capacity(alloc, buckets)?;
        heads.resize(buckets, 0)?;
        let slots = Vec::with_capacity(alloc, entries)?;
        Ok(HashIndex {
            slots,
            heads,
            hasher,
        })
    }
}

impl<K: Eq + Hash, V, S: BuildHasher> HashIndex<K, V, S> {
    ghost use Rattle.mc_table.specs.Lends.{lends_at};

    /// Returns the number of entries.
    #[inline]
    pub fn len(&self) -> usize
        ensures len { result ≡ length self.now }
        ensures fits { result < 2 ^ 32 }
    {
        self.slots.len()
    }

    /// Returns the index of the entry of a key. The slot of the hint is compared first.
    #[inline]
    pub fn get_index_of<Q: Equivalent<K>>(&self, query: Q, hint: Hint) -> Option<usize>
        ensures found { IfSome result (IsAt (Q.equivalent query) self.now) }
        ensures none { IfNone result (IsNowhere (Q.equivalent query) self.now) }
    {
        if stands_at(&self.slots, hint.slot, query) {
            return Some(hint.slot as usize - 1);
        }
        search(&self.heads, &self.slots, tag_of(&self.hasher, query), query)
    }

    /// Returns the tag of a key, which [`HashIndex::prefetch`] takes.
    #[inline]
    pub fn tag<Q: Hash + Copy>(&self, key: Q) -> u32 {
        tag_of(&self.hasher, key)
    }

    /// Writes a hint of the slot of each tag. The entry there may have another tag.
    pub fn prefetch(&self, tags: &[u32], hints: &mut [Hint]) {
        prefetch(&self.heads, &self.slots, tags, hints);
    }

    /// Returns the entry in the slot of a hint, if there is one.
    #[inline]
    pub fn entry(&self, hint: Hint) -> Option<(&K, &V)> {
        let slot = self.slots.get((hint.slot as usize).wrapping_sub(1))?;
        Some((&slot.key, &slot.value))
    }

    /// Returns the entry at an index.
    #[inline]
    pub fn at(&self, index: usize) -> (&K, &V)
        requires { index < length self.now }
        ensures { slice_get self.now index ≡ Some (result.0.now, result.1.now) }
    {
        let slot = &self.slots[index];
        (&slot.key, &slot.value)
    }

    /// Returns the value at an index, to write to.
    #[inline]
    pub fn value_mut(&mut self, index: usize) -> &mut V
        requires { index < length self.old }
        ensures* writes_back { sem 𝓛 (lends_at K.row V.row S.row S.Hasher.row K.Hash S.BuildHasher S.Hasher.Hasher self.entry index result) }
        ensures value { slice_get (values_of self.old) index ≡ Some result.now }
    {
        let slot = &mut self.slots[index];
        &mut slot.value
    }

    /// Removes and returns the entry at an index. The last entry takes its place.
    #[inline]
    pub fn swap_remove(&mut self, index: usize) -> (K, V)
        requires { index < length self.old }
        ensures entry { slice_get self.old index ≡ Some result }
        ensures entries { self.new ≡ swap_remove self.old index result }
    {
        let slot = take_out(&mut self.heads, &mut self.slots, index);
        (slot.key, slot.value)
    }

    /// Appends an entry, under a key that no entry has.
    ///
    /// If there is no memory, `Err` returns the key and the value, and nothing has changed.
    pub fn push(&mut self, key: K, value: V) -> Result<(), AllocFailed<(K, V)>>
        requires absent { IsNowhere (K.eq key) self.old }
        requires small { length self.old + 1 < 2 ^ 32 }
        ensures ok { OnOk result (self.new ≡ self.old ++ (key, value) ∷ []) }
        ensures value_returned { IfErr result (λ y. y.value ≡ (key, value)) }
        ensures err { OnErr result (self.new ≡ self.old) }
    {
        let tag = tag_of(&self.hasher, &key);
        let bucket = bucket_of(tag, self.heads.len());
        let slot = Slot {
            key,
            value,
            tag,
            next: self.heads[bucket],
        };
        match self.slots.push(slot) {
            Ok(()) => {
                self.heads[bucket] = self.slots.len() as u32;
                Ok(())
            }
            Err(failed) => Err(AllocFailed {
                value: (failed.value.key, failed.value.value),
            }),
        }
    }

    /// Removes all entries.
    pub fn clear(&mut self)
    where
        K: Drop,
        V: Drop,
        ensures { self.new ≡ [] }
    {
        self.slots.clear();
        self.heads.as_mut_slice().fill(0);
    }
}

/// Returns the number of buckets for `entries`: the least power of two that is at least as many, from 16 to 2^31.
fn buckets_for(entries: usize) -> usize
    ensures { IsBucketCount entries result }
{
    let most = entries.min(1 << 31);
    let mut buckets = 16;
    while buckets < most {
        buckets *= 2;
    }
    buckets
}

/// Returns the tag of a key: the lower 32 bits of its hash.
#[inline]
#[tactic(auto, unfolding(crate::specs::Slots::tag_of))]
fn tag_of<Q: Hash + Copy, S: BuildHasher>(hasher: &S, key: Q) -> u32
    ensures { result ≡ tag_of S.BuildHasher S.Hasher.Hasher hasher.now (Q.hash_input key) }
{
    (hasher.hash_one(key) & 0xFFFF_FFFF) as u32
}
