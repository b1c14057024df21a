//! Chains: the places of each bucket, from the greatest down. The place of a slot is its index plus one.
//!
//! The head of a bucket and the slots of its chain each lead to the next lower place of the bucket, and the last leads to 0. So the
//! last slot of all is always the first of its chain, and each step of a walk goes down.
ghost use Rattle.std.specs.Prelude.{◌≡◌, true, ℕ, ◌<◌, ◌≤◌, ◌-◌, ◌^◌, Some, length, slice_get, slice_set, slice_index_or, IfSome, IfNone};
ghost use Rattle.std.specs.List.{swap_remove};
ghost use Rattle.mc_table.specs.Chains.{bucket_of, falls, at_place, link, heads_with, nexts_with, IsAbove};
ghost use Rattle.mc_table.specs.Slots.{entries_of, tags_of, nexts_of, Stands, NoneStands, AreChained};

use crate::hints::Hint;
use crate::slots::Slot;
use std::collections::hash_map::Equivalent;
use std::hash::Hash;

/// How many slots of a chain a prefetch compares.
const PREFETCHED_STEPS: usize = 2;

/// Returns the bucket of a tag.
#[inline]
#[tactic(auto, unfolding(crate::specs::Chains::bucket_of))]
pub(crate) fn bucket_of(tag: u32, buckets: usize) -> usize
    requires { 0 < buckets }
    ensures bucket { result ≡ bucket_of buckets tag }
    ensures within { result < buckets }
{
    tag as usize & (buckets - 1)
}

/// Returns the index of the slot of a tag whose key a query stands for.
#[inline]
pub(crate) fn search<K: Eq + Hash, V, Q: Equivalent<K>>(
    heads: &Vec<u32>,
    slots: &Vec<Slot<K, V>>,
    tag: u32,
    query: Q,
) -> Option<usize>
    requires some { 0 < length heads.now.items }
    requires chained { AreChained heads.now.items slots.now.items 0 }
    ensures found { IfSome result (Stands (Q.equivalent query) (entries_of slots.now.items)) }
    ensures none { IfNone result (NoneStands (Q.equivalent query) tag slots.now.items) }
{
    let mut place = heads[bucket_of(tag, heads.len())];
    while place > 0 {
        let index = place as usize - 1;
        let slot = &slots[index];
        if slot.tag == tag && query.equivalent(&slot.key) {
            return Some(index);
        }
        place = slot.next;
    }
    None
}

/// Returns whether a place has a slot whose key a query stands for.
#[inline]
pub(crate) fn stands_at<K: Eq + Hash, V, Q: Equivalent<K>>(
    slots: &Vec<Slot<K, V>>,
    place: u32,
    query: Q,
) -> bool
    ensures { result ≡ true → (0 < place) × Stands (Q.equivalent query) (entries_of slots.now.items) (place - 1) }
{
    if place == 0 || place as usize > slots.len() {
        return false;
    }
    let slot = &slots[place as usize - 1];
    query.equivalent(&slot.key)
}

/// Writes a hint of the slot of each tag. A slot that has another tag, or none, does no harm, since a look-up compares the key.
/// The heads of all tags are read first, and then the slots, so that the processor loads the memory of many at once.
pub(crate) fn prefetch<K, V>(
    heads: &Vec<u32>,
    slots: &Vec<Slot<K, V>>,
    tags: &[u32],
    hints: &mut [Hint],
)
    requires { 0 < length heads.now.items }
{
    for (hint, tag) in hints.iter_mut().zip(tags) {
        hint.slot = heads[bucket_of(*tag, heads.len())];
    }
    for _ in 0..PREFETCHED_STEPS {
        for (hint, tag) in hints.iter_mut().zip(tags) {
            hint.slot = passed(slots, hint.slot, *tag);
        }
    }
}

/// Returns the place itself if its slot has the tag, or else the next of its chain.
#[inline]
fn passed<K, V>(slots: &Vec<Slot<K, V>>, place: u32, tag: u32) -> u32 {
    match slots.get((place as usize).wrapping_sub(1)) {
        Some(slot) if slot.tag != tag => slot.next,
        _ => place,
    }
}

/// Removes the slot at an index from its chain and from the slots. The last slot takes its place.
pub(crate) fn take_out<K, V>(
    heads: &mut Vec<u32>,
    slots: &mut Vec<Slot<K, V>>,
    index: usize,
) -> Slot<K, V>
    requires some { 0 < length heads.old.items }
    requires chained { AreChained heads.old.items slots.old.items 0 }
    requires within { index < length slots.old.items }
    requires small { length slots.old.items < 2 ^ 32 }
    ensures slot { slice_get (entries_of slots.old.items) index ≡ Some (result.key, result.value) }
    ensures chained { AreChained heads.new.items slots.new.items 0 }
    ensures entries { entries_of slots.new.items ≡ swap_remove (entries_of slots.old.items) index (result.key, result.value) }
    ensures tags { tags_of slots.new.items ≡ swap_remove (tags_of slots.old.items) index 0 }
    ensures buckets { length heads.new.items ≡ length heads.old.items }
{
    let place = index as u32 + 1;
    unlink(heads, slots, place);
    if place as usize == slots.len() {
        return slots.swap_remove(index);
    }
    free_last(heads, slots);
    let slot = slots.swap_remove(index);
    link_in(heads, slots, place);
    slot
}

/// Removes a place from its chain.
fn unlink<K, V>(heads: &mut Vec<u32>, slots: &mut Vec<Slot<K, V>>, place: u32)
    requires some { 0 < length heads.old.items }
    requires chained { AreChained heads.old.items slots.old.items 0 }
    requires positive { 0 < place }
    requires within { place ≤ length slots.old.items }
    ensures chained { AreChained heads.new.items slots.new.items place }
    ensures entries { entries_of slots.new.items ≡ entries_of slots.old.items }
    ensures tags { tags_of slots.new.items ≡ tags_of slots.old.items }
    ensures buckets { length heads.new.items ≡ length heads.old.items }
{
    let index = place as usize - 1;
    let bucket = bucket_of(slots[index].tag, heads.len());
    let above = above(heads, slots, bucket, place);
    let next = slots[index].next;
    set_link(heads, slots, bucket, above, next);
}

/// Inserts a place into the chain of its bucket. It is the only place that is in no chain.
fn link_in<K, V>(heads: &mut Vec<u32>, slots: &mut Vec<Slot<K, V>>, place: u32)
    requires some { 0 < length heads.old.items }
    requires chained { AreChained heads.old.items slots.old.items place }
    requires positive { 0 < place }
    requires within { place ≤ length slots.old.items }
    ensures chained { AreChained heads.new.items slots.new.items 0 }
    ensures entries { entries_of slots.new.items ≡ entries_of slots.old.items }
    ensures tags { tags_of slots.new.items ≡ tags_of slots.old.items }
    ensures buckets { length heads.new.items ≡ length heads.old.items }
{
    let bucket = bucket_of(slots[place as usize - 1].tag, heads.len());
    let above = above(heads, slots, bucket, place);
    let next = link(heads, slots, bucket, above);
    set_next(slots, place, next);
    set_link(heads, slots, bucket, above, place);
}

/// Makes the head of the last slot's bucket skip it.
fn free_last<K, V>(heads: &mut Vec<u32>, slots: &Vec<Slot<K, V>>)
    requires some { 0 < length heads.old.items }
    requires within { 0 < length slots.now.items }
    ensures { heads.new.items ≡ slice_set heads.old.items (falls (length heads.old.items) (tags_of slots.now.items) (length slots.now.items)) (at_place (nexts_of slots.now.items) (length slots.now.items)) }
{
    let slot = &slots[slots.len() - 1];
    let bucket = bucket_of(slot.tag, heads.len());
    heads[bucket] = slot.next;
}

/// Returns the place of a bucket that leads to another place or past it, or 0 if its head does.
fn above<K, V>(heads: &Vec<u32>, slots: &Vec<Slot<K, V>>, bucket: usize, place: u32) -> u32
    requires bucket { bucket < length heads.now.items }
    requires chained { (out : ℕ) × AreChained heads.now.items slots.now.items out }
    ensures { IsAbove heads.now.items (tags_of slots.now.items) (nexts_of slots.now.items) bucket (length slots.now.items) place result }
{
    let mut above = 0;
    let mut at = heads[bucket];
    while at > place {
        above = at;
        at = slots[at as usize - 1].next;
    }
    above
}

/// Returns the place that a bucket's head leads to, or that a place leads to.
#[inline]
fn link<K, V>(heads: &Vec<u32>, slots: &Vec<Slot<K, V>>, bucket: usize, place: u32) -> u32
    requires bucket { bucket < length heads.now.items }
    requires place { place ≤ length slots.now.items }
    ensures { result ≡ link heads.now.items (nexts_of slots.now.items) bucket place }
{
    if place == 0 {
        heads[bucket]
    } else {
        slots[place as usize - 1].next
    }
}

/// Makes a bucket's head, or a place, lead to another place.
#[inline]
fn set_link<K, V>(
    heads: &mut Vec<u32>,
    slots: &mut Vec<Slot<K, V>>,
    bucket: usize,
    place: u32,
    to: u32,
)
    requires bucket { bucket < length heads.old.items }
    requires place { place ≤ length slots.old.items }
    ensures heads { heads.new.items ≡ heads_with bucket place to heads.old.items }
    ensures nexts { nexts_of slots.new.items ≡ nexts_with place to (nexts_of slots.old.items) }
    ensures tags { tags_of slots.new.items ≡ tags_of slots.old.items }
    ensures entries { entries_of slots.new.items ≡ entries_of slots.old.items }
{
    if place == 0 {
        heads[bucket] = to;
    } else {
        set_next(slots, place, to);
    }
}

/// Makes a place lead to another.
#[inline]
fn set_next<K, V>(slots: &mut Vec<Slot<K, V>>, place: u32, next: u32)
    requires positive { 0 < place }
    requires within { place ≤ length slots.old.items }
    ensures nexts { nexts_of slots.new.items ≡ slice_set (nexts_of slots.old.items) (place - 1) next }
    ensures tags { tags_of slots.new.items ≡ tags_of slots.old.items }
    ensures entries { entries_of slots.new.items ≡ entries_of slots.old.items }
{
    slots[place as usize - 1].next = next;
}
