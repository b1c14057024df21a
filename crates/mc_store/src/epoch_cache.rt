//! `EpochCache`: items by key, with a clear that takes the same time for any number of items.
ghost use Rattle.std.specs.Prelude.{◌≡◌, ◌∷◌, ◌++◌, ◌≤◌, ◌<◌, ◌^◌, [], length, take, is_some, None, Some, OnOk, IfErr, IfOk, OnErr, IfSome, IfNone};
ghost use Rattle.std.specs.Option.{option_copied, option_map};
ghost use Rattle.mc_item.specs.Costs.{cost_of};
ghost use Rattle.mc_store.specs.Epochs.{IsLetGo, IsGivenBack, HasRoom};
ghost use Rattle.mc_store.specs.Items.{body_at, front_body, without, brought, expiring, marking};

use crate::epoch_entries::EpochEntry;
use crate::recent::Recent;
use mc_item::{Body, Deadline, cost};
use mc_table::Hint;
use mc_text::Key;
use std::marker::Model;
use std::mem;

/// Items by key, each with the epoch in which it was stored.
///
/// The entries of the cache's own epoch are live, and are before all others. [`EpochCache::clear`] begins the next epoch, in which
/// all entries are dead. Dead entries are not counted and not found. A call with a key frees the dead entry of that key, except
/// that [`EpochCache::find`] and [`EpochCache::prefetch`] free none. [`EpochCache::put_front`], and an [`EpochCache::replace`] that finds
/// its key, free more of them from the back, and [`EpochCache::drop_last`] frees all.
///
/// Contracts see the live items, the dead entries, and the most items that the cache may have.
#[derive(Drop)]
pub struct EpochCache<M: Recent> {
    cache: M,
    epoch: u64,
    /// The number of live entries: these are the first ones.
    count: usize,
    /// The most items.
    most: usize,
}

impl<M: Recent> Model for EpochCache<M> {
    ghost use Rattle.std.specs.Prelude.{drop};
    ghost use Rattle.mc_store.specs.Epochs.{LiveAndDead, live, IsParted, HasRoom};

    ghost Value = { LiveAndDead };

    ghost view = { λ s. record { items = live s.count (M.entries s.cache); dead = drop s.count (M.entries s.cache); most = s.most } };

    ghost invariant = { λ s. IsParted s.epoch s.count (M.entries s.cache) × HasRoom s.most (M.room s.cache) };
}

impl<M: Recent> EpochCache<M> {
    /// Makes a cache with no item, over one that has no entry. It may have `most` items.
    pub fn over(cache: M, most: usize) -> Self
        requires empty { M.entries cache ≡ [] }
        requires room { HasRoom most (M.room cache) }
        ensures items { result.items ≡ [] }
        ensures most { result.most ≡ most }
    {
        EpochCache {
            cache,
            epoch: 0,
            count: 0,
            most,
        }
    }

    /// Returns the number of items.
    pub fn len(&self) -> usize
        ensures { result ≡ length self.now.items }
    {
        self.count
    }

    /// Returns the body under the key, and a hint of its entry's slot. The hint is right until an entry is removed, a dead one too. The
    /// order stays.
    pub fn find(&self, key: &[u8], hint: Hint) -> Option<(Hint, &Body)>
        ensures { option_map (λ found. found.1.now) result ≡ body_at key.now self.now.items }
    {
        let (hint, held) = self.cache.find(key, hint)?;
        if self.epoch != held.epoch {
            return None;
        }
        Some((hint, &held.body))
    }

    /// Returns the body of the first item.
    pub fn front(&self) -> Option<&Body>
        ensures { option_copied result ≡ front_body self.now.items }
    {
        if self.count == 0 {
            return None;
        }
        let held = self.cache.front()?;
        Some(&held.body)
    }

    /// Moves the key's item to the front, and returns whether it exists.
    pub fn bring(&mut self, key: &[u8], hint: Hint) -> bool
        ensures held { result ≡ is_some (body_at key.now self.old.items) }
        ensures items { self.new.items ≡ brought key.now (body_at key.now self.old.items) self.old.items }
        ensures most { self.new.most ≡ self.old.most }
    {
        let Some(held) = self.cache.get_mut(key, hint) else {
            return false;
        };
        if held.epoch != self.epoch {
            let _ = self.cache.pop_mru();
            return false;
        }
        true
    }

    /// Returns whether [`EpochCache::prefetch`] prefetches.
    pub fn prefetches(&self) -> bool {
        self.cache.prefetches()
    }

    /// Prefetches: writes a hint for each key. The returned byte only keeps the loads alive ([`Recent::prefetch`]).
    pub fn prefetch(&self, keys: &[&[u8]], hints: &mut [Hint]) -> u8 {
        self.cache.prefetch(keys, hints)
    }

    /// Returns the hint that is right for the first item.
    pub fn first_hint(&self) -> Hint {
        self.cache.first_hint()
    }

    /// Sets the expiry of the key's item, moves it to the front, and returns whether it exists.
    pub fn expire(&mut self, key: &[u8], hint: Hint, expiry: Deadline) -> bool
        ensures held { result ≡ is_some (body_at key.now self.old.items) }
        ensures items { self.new.items ≡ brought key.now (expiring expiry (body_at key.now self.old.items)) self.old.items }
        ensures most { self.new.most ≡ self.old.most }
    {
        let Some(held) = self.cache.get_mut(key, hint) else {
            return false;
        };
        if held.epoch != self.epoch {
            let _ = self.cache.pop_mru();
            return false;
        }
        held.body.expiry = expiry;
        true
    }

    /// Sets the two marks and the number of the key's item, moves it to the front, and returns whether it exists.
    pub fn mark(&mut self, key: &[u8], hint: Hint, stale: bool, won: bool, cas: u64) -> bool
        ensures held { result ≡ is_some (body_at key.now self.old.items) }
        ensures items { self.new.items ≡ brought key.now (marking stale won cas (body_at key.now self.old.items)) self.old.items }
        ensures most { self.new.most ≡ self.old.most }
    {
        let Some(held) = self.cache.get_mut(key, hint) else {
            return false;
        };
        if held.epoch != self.epoch {
            let _ = self.cache.pop_mru();
            return false;
        }
        held.body.stale = stale;
        held.body.won = won;
        held.body.cas = cas;
        true
    }

    /// Removes and returns the key's item.
    pub fn take(&mut self, key: &[u8], hint: Hint) -> Option<(Key, Body)>
        ensures item { IfSome result (λ item. (item.0 ≡ key.now) × (body_at key.now self.old.items ≡ Some item.1)) }
        ensures none { IfNone result (body_at key.now self.old.items ≡ None) }
        ensures items { self.new.items ≡ without key.now self.old.items }
        ensures most { self.new.most ≡ self.old.most }
    {
        match self.cache.pop_entry(key, hint) {
            Some((own, held)) => {
                if held.epoch != self.epoch {
                    return None;
                }
                self.count -= 1;
                Some((own, held.body))
            }
            None => None,
        }
    }

    /// Replaces the body under a stored key, moves its item to the front, and returns the old body. Then it frees dead entries: all, or
    /// at least two that cost at least as many bytes as the value has, and no more than that takes.
    ///
    /// If the key is not stored, `Err` returns the new body.
    pub fn replace(&mut self, key: &[u8], hint: Hint, body: Body) -> Result<Body, Body>
        ensures before { IfOk result (λ before. body_at key.now self.old.items ≡ Some before) }
        ensures ok { OnOk result (self.new.items ≡ (key.now, body) ∷ without key.now self.old.items) }
        ensures absent { OnErr result (body_at key.now self.old.items ≡ None) }
        ensures back { IfErr result (λ back. back ≡ body) }
        ensures err { OnErr result (self.new.items ≡ self.old.items) }
        ensures dead { OnOk result (IsLetGo (length body.value) 0 self.old.dead self.new.dead) }
        ensures most { self.new.most ≡ self.old.most }
    {
        let Some(held) = self.cache.get_mut(key, hint) else {
            return Err(body);
        };
        if held.epoch != self.epoch {
            let _ = self.cache.pop_mru();
            return Err(body);
        }
        let price = body.value.len() as u64;
        let before = mem::replace(&mut held.body, body);
        let_go(&mut self.cache, self.count, price);
        Ok(before)
    }

    /// Inserts an item in front, under a key that is not stored. Before that it frees dead entries: all, or at least two that cost at least
    /// as much as the item, and no more than that takes; and then a dead entry of the key.
    ///
    /// If there is no memory, `Err` returns the key and the body.
    pub fn put_front(&mut self, key: Key, body: Body) -> Result<(), (Key, Body)>
        requires absent { body_at key self.old.items ≡ None }
        requires room { length self.old.items < self.old.most }
        ensures ok { OnOk result (self.new.items ≡ (key, body) ∷ self.old.items) }
        ensures back { IfErr result (λ back. back ≡ (key, body)) }
        ensures err { OnErr result (self.new.items ≡ self.old.items) }
        ensures dead { OnOk result (IsGivenBack key (cost_of key body.value) self.old.dead self.new.dead) }
        ensures dead_err { OnErr result (IsLetGo (cost_of key body.value) 0 self.old.dead self.new.dead) }
        ensures most { self.new.most ≡ self.old.most }
    {
        let_go(&mut self.cache, self.count, cost(&key, &body));
        let held = EpochEntry {
            body,
            epoch: self.epoch,
        };
        match self.cache.put(key, held) {
            Ok(()) => {
                self.count += 1;
                Ok(())
            }
            Err((key, held)) => Err((key, held.body)),
        }
    }

    /// Removes and returns the last item, and frees all dead entries before that.
    pub fn drop_last(&mut self) -> Option<(Key, Body)>
        ensures last { IfSome result (λ last. self.old.items ≡ self.new.items ++ last ∷ []) }
        ensures empty { IfNone result ((self.old.items ≡ []) × (self.new.items ≡ [])) }
        ensures most { self.new.most ≡ self.old.most }
    {
        let_all_go(&mut self.cache, self.count);
        match self.cache.pop_lru() {
            Some((key, held)) => {
                self.count -= 1;
                Some((key, held.body))
            }
            None => None,
        }
    }

    /// Removes all items: their entries are dead from now on. Only after the last epoch of 64 bits the entries are freed one by one.
    pub fn clear(&mut self)
        ensures items { self.new.items ≡ [] }
        ensures most { self.new.most ≡ self.old.most }
    {
        let Some(next) = self.epoch.checked_add(1) else {
            self.cache.clear();
            self.count = 0;
            return;
        };
        self.epoch = next;
        self.count = 0;
    }
}

/// Frees entries, the last one first, but none of the first `count`: all others, or at least two that cost at least `price`. It
/// frees no more than that takes.
fn let_go<M: Recent>(cache: &mut M, count: usize, price: u64)
    requires { count ≤ length (M.entries cache.old) }
    ensures go { IsLetGo price count (M.entries cache.old) (M.entries cache.new) }
    ensures fits { length (M.entries cache.new) < 2 ^ 63 }
    ensures room { M.room cache.new ≡ M.room cache.old }
    ensures free { IfSome (M.room cache.old) (λ most. count < most → length (M.entries cache.new) < most) }
{
    if cache.len() == count {
        return;
    }
    let mut gone: u64 = 0;
    let mut freed: u64 = 0;
    while cache.len() > count {
        if gone >= 2 && freed >= price {
            break;
        }
        let Some(last) = cache.pop_lru() else {
            break;
        };
        freed = freed.saturating_add(cost(&last.0, &last.1.body));
        gone = gone.saturating_add(1);
    }
}

/// Frees all entries except the first `count`.
fn let_all_go<M: Recent>(cache: &mut M, count: usize)
    requires { count ≤ length (M.entries cache.old) }
    ensures entries { M.entries cache.new ≡ take count (M.entries cache.old) }
    ensures room { M.room cache.new ≡ M.room cache.old }
{
    while cache.len() > count {
        let Some(_last) = cache.pop_lru() else {
            break;
        };
    }
}
