//! `Cache`: the items, their numbers and their bounds.
ghost use Rattle.std.specs.Prelude.{◌≡◌, ◌↔◌, ◌<◌, ◌≤◌, ◌^◌, ℕ, List, [], length, None, IsTrue, true, false, IfOk, IfSome, IfNone, OnErr, OnSome};
ghost use Rattle.std.specs.Option.{option_copied};
ghost use Rattle.mc_cache.specs.CacheState.{IsWithinBounds, HasRoom};

mod counting;
mod meta;
mod owned;
mod putting;
mod retrieving;
mod settling;
mod storing;

use mc_item::{CasCounter, Deadline};
use mc_reply::Reply;
use mc_request::{MetaGet, Show, Update};
use mc_store::{Hint, Store};
use mc_text::{Block, Key};
use std::alloc::{AllocError, Global};
use std::marker::Model;
use storing::{NewItem, own_body};

/// The most bytes that a cache's budget has.
pub const MAX_BUDGET: u64 = 1_099_511_627_776;

/// The most items that a cache's limit allows.
pub const MAX_ITEMS: usize = 16_777_216;

/// Returns whether a cache may have these bounds: a budget of 1 to [`MAX_BUDGET`] bytes, and 1 to [`MAX_ITEMS`] items.
pub fn is_within_bounds(budget: u64, limit: usize) -> bool
    ensures { IsTrue result ↔ IsWithinBounds budget limit }
{
    budget >= 1 && budget <= MAX_BUDGET && limit >= 1 && limit <= MAX_ITEMS
}

/// A cache over a store. Contracts see its items, its counter, its pending flush, and its bounds.
///
/// A command whose key is borrowed takes a hint of its item's slot ([`Hint`]), which affects only the speed.
#[derive(Drop)]
pub struct Cache<S: Store + Drop> {
    alloc: Global,
    store: S,
    counter: CasCounter,
    pending: Option<u64>,
    budget: u64,
    limit: usize,
    /// Whether keys that are not stored are refused memory.
    is_short: bool,
}

impl<S: Store + Drop> Model for Cache<S> {
    ghost use Rattle.mc_cache.specs.CacheState.{CacheState, IsHeldWithin, HasRoom};

    ghost Value = { CacheState };

    ghost view = { λ c. record {
      items = S.items c.store;
      counter = c.counter;
      pending = c.pending;
      budget = c.budget;
      limit = c.limit;
    } };

    ghost invariant = { λ c. IsHeldWithin c.budget c.limit (S.items c.store) × HasRoom c.limit (S.most c.store) };
}

impl<S: Store + Drop> Cache<S> {
    ghost use Rattle.mc_text.specs.Keys.{is_key};
    ghost use Rattle.mc_request.specs.declared.parts.Atom.TheVariants.{Get, Update as AnUpdate, Meta as AMeta};
    ghost use Rattle.mc_request.specs.declared.parts.Update.TheVariants.{Store as AStore};
    ghost use Rattle.mc_request.specs.declared.parts.StoreMode.TheVariants.{Set};
    ghost use Rattle.mc_request.specs.declared.meta.MetaCommand.TheVariants.{Get as AMetaGet, Update as AMetaUpdate};
    ghost use Rattle.mc_request.specs.Parts.{update_seen};
    ghost use Rattle.mc_reply.specs.Replies.{filled};
    ghost use Rattle.mc_reply.specs.declared.replies.Reply.TheVariants.{Hit, Miss};
    ghost use Rattle.mc_cache.specs.CacheState.{opening_cache, held_value, value_at, front_value};
    ghost use Rattle.mc_store.specs.Items.{longest_of};
    ghost use Rattle.mc_cache.specs.Step.{step_of};
    ghost use Rattle.mc_cache.specs.Memory.{may_refuse, takes_block};
    ghost use Rattle.mc_cache.specs.Refusals.{HasKey, is_refusal, value_after};

    /// Makes a cache of no item, over an empty store that may hold more items than the limit.
    ///
    /// The budget is in bytes, the limit in items, and the counter gives the items their numbers. Keys and blocks are
    /// made with the allocator.
    pub fn new(alloc: Global, store: S, budget: u64, limit: usize, counter: CasCounter) -> Self
        requires empty { S.items store ≡ [] }
        requires bounds { IsWithinBounds budget limit }
        requires room { HasRoom limit (S.most store) }
        ensures { result ≡ opening_cache budget limit counter }
    {
        Cache {
            alloc,
            store,
            counter,
            pending: None,
            budget,
            limit,
            is_short: false,
        }
    }

    /// Sets whether memory is short. If it is, a key that is not stored is refused memory, even if there is some.
    pub fn set_short(&mut self, is_short: bool)
        ensures { self.new ≡ self.old }
    {
        self.is_short = is_short;
    }

    /// Executes `Get`, with the key borrowed. It takes no memory, and no value gets longer.
    ///
    /// The item that a hit shows is first: [`Cache::front_value`] is its value.
    pub fn get(
        &mut self,
        key: &[u8],
        hint: Hint,
        exptime: Option<i64>,
        with_cas: bool,
        moment: u64,
    ) -> Reply<()>
        requires { moment < 2 ^ 63 }
        ensures step { step_of self.old (Get key.now exptime with_cas) moment false
            ≡ (self.new, filled result (value_after (Get key.now exptime with_cas) self.new)) }
        ensures front { step_of self.old (Get key.now exptime with_cas) moment false
            ≡ (self.new, filled result (front_value self.new.items)) }
        ensures refusal { is_refusal result ≡ false }
        ensures shrinks { (other : List ℕ)
            → length (value_at other self.new.items) ≤ length (value_at other self.old.items) }
    {
        let Some(found) = self.settle_in_front(key, hint, moment) else {
            self.store.retrieved(false);
            return Reply::Miss;
        };
        self.store.retrieved(true);
        self.touch_front(key, exptime, moment);
        Reply::Hit {
            flags: found.flags,
            cas: with_cas.then_some(found.cas),
            value: (),
        }
    }

    /// Executes `Get` without an exptime. It returns what a hit shows beside its value: the client flags, and the number if it is asked
    /// for. None is a miss. [`Cache::get`] executes the same command.
    ///
    /// It is for values that are sent without a copy: the item that a hit shows is first, and [`Cache::front_value`] is its value.
    pub fn get_head(
        &mut self,
        key: &[u8],
        hint: Hint,
        with_cas: bool,
        moment: u64,
    ) -> Option<(u32, Option<u64>)>
        requires { moment < 2 ^ 63 }
        ensures hit { IfSome result (λ head. step_of self.old (Get key.now None with_cas) moment false
            ≡ (self.new, Hit head.0 head.1 (front_value self.new.items))) }
        ensures miss { IfNone result (step_of self.old (Get key.now None with_cas) moment false ≡ (self.new, Miss)) }
        ensures fits { OnSome result (length (front_value self.new.items) ≤ length (value_at key.now self.old.items)) }
    {
        let Some(found) = self.settle_in_front(key, hint, moment) else {
            self.store.retrieved(false);
            return None;
        };
        self.store.retrieved(true);
        Some((found.flags, with_cas.then_some(found.cas)))
    }

    /// Returns whether [`Cache::prefetch`] prefetches: several items are found faster together than each by itself.
    pub fn prefetches(&self) -> bool {
        self.store.prefetches()
    }

    /// Prefetches: loads the items of keys, and writes a hint for each key. A hint may be wrong, and [`Hint::none`] says that no slot was
    /// found. It changes nothing else, and takes no memory. The returned byte only keeps the loads alive ([`Store::prefetch`]).
    pub fn prefetch(&self, keys: &[&[u8]], hints: &mut [Hint]) -> u8 {
        self.store.prefetch(keys, hints)
    }

    /// Executes `Update`, with the key and the block borrowed. Its reply shows no value.
    ///
    /// It copies the key only if it stores a key that is not stored yet, and the block only if it stores it. If
    /// there is no memory for a key that is not stored, or for a stored value that is made longer, the reply is
    /// `Fault::OutOfMemory`. Then nothing changes except what the moment causes.
    ///
    /// # Errors
    ///
    /// A whole value is to be stored under a stored key, and there is no memory for its block. Nothing has changed.
    pub fn update(
        &mut self,
        update: &Update<&[u8], &[u8]>,
        hint: Hint,
        moment: u64,
    ) -> Result<Reply<()>, AllocError>
        requires moment { moment < 2 ^ 63 }
        requires key { HasKey (update_seen update.now) }
        ensures step { IfOk result (λ reply. (value : List ℕ)
            → step_of self.old (AnUpdate (update_seen update.now)) moment (is_refusal reply)
            ≡ (self.new, filled reply value)) }
        ensures refusal { IfOk result (λ reply.
            is_refusal reply ≡ true → may_refuse self.old (AnUpdate (update_seen update.now)) moment ≡ true) }
        ensures err { OnErr result (self.new ≡ self.old) }
        ensures cause { OnErr result (takes_block self.old (update_seen update.now) moment ≡ true) }
    {
        match update {
            Update::Store {
                mode,
                compare,
                key,
                flags,
                exptime,
                block,
            } => {
                let lent = NewItem {
                    flags: *flags,
                    expiry: Deadline::of(*exptime, moment),
                    won: false,
                    block,
                };
                self.store_lent(*mode, *compare, key, hint, lent, moment)
            }
            Update::Touch { key, exptime } => Ok(self.touch(key, hint, *exptime, moment)),
            Update::Delete {
                key,
                compare,
                invalidate,
            } => Ok(self.delete(key, hint, *compare, *invalidate, moment)),
            Update::Count { key, counting } => Ok(self.count(key, hint, counting, moment)),
            Update::FlushAll { delay } => Ok(self.flush_all(*delay, moment)),
        }
    }

    /// Executes `set`, whose key and block are owned: no byte of the block is copied. Its reply shows no value.
    ///
    /// It takes memory only if the key is not stored. If there is none the reply is `Fault::OutOfMemory`, and nothing changes except
    /// what the moment causes.
    pub fn set(
        &mut self,
        key: Key,
        flags: u32,
        exptime: i64,
        block: Block,
        moment: u64,
    ) -> Reply<()>
        requires { moment < 2 ^ 63 }
        ensures step { (value : List ℕ)
            → step_of self.old (AnUpdate (AStore Set None key flags exptime block)) moment (is_refusal result)
            ≡ (self.new, filled result value) }
        ensures refusal { is_refusal result ≡ true
            → may_refuse self.old (AnUpdate (AStore Set None key flags exptime block)) moment ≡ true }
    {
        let body = own_body(flags, exptime, block, moment);
        let found = self.settle(key.as_bytes(), Hint::none(), moment);
        self.set_own(key, body, found)
    }

    /// Executes the meta command `Get`, which is `mg`, with the key borrowed. No value gets longer.
    ///
    /// It takes memory only if the key is not stored and an item is made. If there is none the reply is
    /// `Fault::OutOfMemory`, and nothing changes except what the moment causes. The item whose value the reply shows
    /// is first: [`Cache::front_value`] is its value.
    pub fn meta_get(&mut self, key: &[u8], hint: Hint, get: &MetaGet, moment: u64) -> Reply<()>
        requires moment { moment < 2 ^ 63 }
        requires key { is_key key.now ≡ true }
        ensures step { step_of self.old (AMeta (AMetaGet key.now get.now)) moment (is_refusal result)
            ≡ (self.new, filled result (value_after (AMeta (AMetaGet key.now get.now)) self.new)) }
        ensures front { step_of self.old (AMeta (AMetaGet key.now get.now)) moment (is_refusal result)
            ≡ (self.new, filled result (front_value self.new.items)) }
        ensures refusal { is_refusal result ≡ true
            → may_refuse self.old (AMeta (AMetaGet key.now get.now)) moment ≡ true }
        ensures shrinks { (other : List ℕ)
            → length (value_at other self.new.items) ≤ length (value_at other self.old.items) }
    {
        self.show(key, hint, get, moment)
    }

    /// Executes the meta command `Update`, which is `ms`, `md` or `ma`, with the key and the block borrowed. It
    /// does what [`Cache::update`] does, with a reply that shows what was stored.
    ///
    /// The item that the reply shows is first: [`Cache::front_value`] is its value.
    ///
    /// # Errors
    ///
    /// A whole value is to be stored under a stored key, and there is no memory for its block. Nothing has changed.
    pub fn meta_update(
        &mut self,
        update: &Update<&[u8], &[u8]>,
        hint: Hint,
        show: &Show,
        moment: u64,
    ) -> Result<Reply<()>, AllocError>
        requires moment { moment < 2 ^ 63 }
        requires key { HasKey (update_seen update.now) }
        ensures step { IfOk result (λ reply.
            step_of self.old (AMeta (AMetaUpdate (update_seen update.now) show.now)) moment (is_refusal reply)
            ≡ (self.new, filled reply (value_after (AMeta (AMetaUpdate (update_seen update.now) show.now)) self.new))) }
        ensures front { IfOk result (λ reply.
            step_of self.old (AMeta (AMetaUpdate (update_seen update.now) show.now)) moment (is_refusal reply)
            ≡ (self.new, filled reply (front_value self.new.items))) }
        ensures refusal { IfOk result (λ reply. is_refusal reply ≡ true
            → may_refuse self.old (AMeta (AMetaUpdate (update_seen update.now) show.now)) moment ≡ true) }
        ensures err { OnErr result (self.new ≡ self.old) }
        ensures cause { OnErr result (takes_block self.old (update_seen update.now) moment ≡ true) }
    {
        let reply = self.update(update, hint, moment)?;
        Ok(self.tell(reply, show, moment))
    }

    /// Returns the value under a key.
    pub fn value(&self, key: &[u8]) -> Option<&[u8]>
        ensures { option_copied result ≡ held_value key.now self.now.items }
    {
        Some(self.store.peek(key)?.value.as_slice())
    }

    /// Returns the value of the first item, or no bytes if there is none.
    pub fn front_value(&self) -> &[u8]
        ensures { result.now ≡ front_value self.now.items }
    {
        match self.store.front() {
            Some(body) => body.value.as_slice(),
            None => &[],
        }
    }

    /// Returns the length of the value under a key: 0 if the key is not stored. No value has 2^63 bytes.
    pub fn room(&self, key: &[u8]) -> usize
        ensures room { result ≡ length (value_at key.now self.now.items) }
        ensures bound { result < 2 ^ 63 }
    {
        match self.store.peek(key) {
            Some(body) => body.value.as_slice().len(),
            None => 0,
        }
    }

    /// Returns a number of bytes that no stored value is longer than, without a look-up. It may stay larger than that
    /// after the longest value was removed.
    pub fn longest(&self) -> usize
        ensures { longest_of self.now.items ≤ result }
    {
        self.store.longest()
    }

    /// Returns the store, with the cache's items. It takes no memory, and may still hold one item more than the cache's limit.
    pub fn into_store(self) -> S
        ensures items { S.items result ≡ self.items }
        ensures room { HasRoom self.limit (S.most result) }
    {
        self.store
    }
}
