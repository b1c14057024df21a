//! A store that counts its operations.
ghost use Rattle.std.specs.Prelude.{◌≡◌};

use crate::store_stats::StoreStats;
use mc_item::{Body, Deadline};
use mc_store::{Hint, Store};
use mc_text::Key;
use std::rc::Rc;

/// A store that forwards to another, and counts what it does: so no layer between has to count. No contract says what it counts.
#[derive(Drop)]
pub struct Counted<S: Store + Drop> {
    store: S,
    counts: Rc<StoreStats>,
}

impl<S: Store + Drop> Counted<S> {
    /// Makes a store over another.
    pub fn new(store: S, counts: Rc<StoreStats>) -> Counted<S>
        ensures { result.store ≡ store }
    {
        Counted { store, counts }
    }

    /// Returns whether a body is expired at the moment.
    fn is_dead(&self, body: &Body) -> bool {
        body.expiry.is_dead(self.counts.moment())
    }

    /// Notes how many items the store has, and what they cost.
    fn note_held(&self) {
        self.counts.hold(self.store.len(), self.store.used());
    }
}

impl<S: Store + Drop> Store for Counted<S> {
    ghost items = { λ c. S.items c.store };

    ghost most = { λ c. S.most c.store };

    fn len(&self) -> usize {
        self.store.len()
    }

    fn used(&self) -> u64 {
        self.store.used()
    }

    fn longest(&self) -> usize {
        self.store.longest()
    }

    fn find(&self, key: &[u8], hint: Hint) -> Option<(Hint, &Body)> {
        self.store.find(key, hint)
    }

    fn front(&self) -> Option<&Body> {
        self.store.front()
    }

    fn bring(&mut self, key: &[u8], hint: Hint) -> bool {
        self.store.bring(key, hint)
    }

    fn prefetches(&self) -> bool {
        self.store.prefetches()
    }

    fn prefetch(&self, keys: &[&[u8]], hints: &mut [Hint]) -> u8 {
        self.store.prefetch(keys, hints)
    }

    fn expire(&mut self, key: &[u8], hint: Hint, expiry: Deadline) -> bool {
        self.store.expire(key, hint, expiry)
    }

    fn mark(&mut self, key: &[u8], hint: Hint, stale: bool, won: bool, cas: u64) -> bool {
        self.store.mark(key, hint, stale, won, cas)
    }

    fn first_hint(&self) -> Hint {
        self.store.first_hint()
    }

    fn take(&mut self, key: &[u8], hint: Hint) -> Option<Body> {
        let taken = self.store.take(key, hint);
        if let Some(body) = &taken {
            if self.is_dead(body) {
                self.counts.expire();
            }
            self.note_held();
        }
        taken
    }

    fn replace(&mut self, key: &[u8], hint: Hint, body: Body) -> Result<Body, Body> {
        // A body with the number 0 is a placeholder, while the value of the stored one is moved out and changed.
        let is_stored = body.cas > 0;
        let replaced = self.store.replace(key, hint, body);
        if let Ok(before) = &replaced {
            if self.is_dead(before) {
                self.counts.expire();
            }
            if is_stored {
                self.counts.store();
                self.note_held();
            }
        }
        replaced
    }

    fn put_front(&mut self, key: Key, body: Body) -> Result<(), (Key, Body)> {
        let put = self.store.put_front(key, body);
        if put.is_ok() {
            self.counts.store();
            self.note_held();
        }
        put
    }

    fn drop_last(&mut self) -> Option<(Key, Body)> {
        let last = self.store.drop_last();
        if last.is_some() {
            self.counts.evict();
            self.note_held();
        }
        last
    }

    fn clear(&mut self) {
        self.store.clear();
        self.note_held();
    }

    fn retrieved(&self, is_hit: bool) {
        if is_hit {
            self.counts.hit();
        } else {
            self.counts.miss();
        }
    }
}
