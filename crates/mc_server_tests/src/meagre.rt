//! A store that is refused memory.
ghost use Rattle.std.specs.Prelude.{◌≡◌, [], None};

use mc_item::{Body, Deadline};
use mc_store::{Hint, ListStore, Store};
use mc_text::Key;
use std::alloc::Global;

/// A list that has memory for a limited number of new keys. [`new_server`](crate::new_server) makes
/// one.
#[derive(Drop)]
pub struct MeagreStore {
    list: ListStore,
    left: u64,
}

impl MeagreStore {
    pub(crate) fn new(alloc: Global, left: u64) -> MeagreStore
        ensures { result.list ≡ [] }
    {
        MeagreStore {
            list: ListStore::new(alloc),
            left,
        }
    }
}

impl Store for MeagreStore {
    ghost items = { λ s. s.list };

    ghost most = { λ _. None };

    fn len(&self) -> usize {
        self.list.len()
    }

    fn used(&self) -> u64 {
        self.list.used()
    }

    fn longest(&self) -> usize {
        self.list.longest()
    }

    fn find(&self, key: &[u8], hint: Hint) -> Option<(Hint, &Body)> {
        self.list.find(key, hint)
    }

    fn front(&self) -> Option<&Body> {
        self.list.front()
    }

    fn bring(&mut self, key: &[u8], hint: Hint) -> bool {
        self.list.bring(key, hint)
    }

    fn expire(&mut self, key: &[u8], hint: Hint, expiry: Deadline) -> bool {
        self.list.expire(key, hint, expiry)
    }

    fn mark(&mut self, key: &[u8], hint: Hint, stale: bool, won: bool, cas: u64) -> bool {
        self.list.mark(key, hint, stale, won, cas)
    }

    fn take(&mut self, key: &[u8], hint: Hint) -> Option<Body> {
        self.list.take(key, hint)
    }

    fn replace(&mut self, key: &[u8], hint: Hint, body: Body) -> Result<Body, Body> {
        self.list.replace(key, hint, body)
    }

    fn put_front(&mut self, key: Key, body: Body) -> Result<(), (Key, Body)> {
        if self.left == 0 {
            return Err((key, body));
        }
        self.left -= 1;
        self.list.put_front(key, body)
    }

    fn drop_last(&mut self) -> Option<(Key, Body)> {
        self.list.drop_last()
    }

    fn clear(&mut self) {
        self.list.clear();
    }
}
