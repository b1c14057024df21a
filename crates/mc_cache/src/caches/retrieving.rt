//! Commands that store no value, `touch`, `delete` and `md`, and steps that other commands share.
ghost use Rattle.std.specs.Prelude.{◌≡◌, ◌<◌, ◌^◌, ℕ, List, Some, None, is_some, true, false};
ghost use Rattle.std.specs.Option.{option_map};
ghost use Rattle.mc_reply.specs.Replies.{filled};
ghost use Rattle.mc_store.specs.Items.{body_at, without, brought, expiring, marking};
ghost use Rattle.mc_request.specs.declared.parts.Atom.TheVariants.{Update as AnUpdate};
ghost use Rattle.mc_request.specs.declared.parts.Update.TheVariants.{Touch, Delete};
ghost use Rattle.mc_cache.specs.CacheState.{value_at};
ghost use Rattle.mc_cache.specs.Step.{step_of, fronted, invalidated, touched};
ghost use Rattle.mc_cache.specs.Refusals.{is_refusal};
ghost use Rattle.mc_cache.specs.Admissions.{found_body, body_of};

use super::Cache;
use super::settling::ItemMeta;
use super::storing::{compared, hint_of};
use mc_item::Deadline;
use mc_reply::Reply;
use mc_request::Fault;
use mc_store::{Hint, Store};

impl<S: Store + Drop> Cache<S> {
    /// Sets the expiry of the first item, whose key this is, if an exptime is given.
    pub(super) fn touch_front(&mut self, key: &[u8], exptime: Option<i64>, moment: u64)
        requires moment { moment < 2 ^ 63 }
        requires first { self.old.items ≡ brought key.now (body_at key.now self.old.items) self.old.items }
        ensures { self.new ≡ record self.old {
          items
              = brought key.now (option_map (touched exptime moment) (body_at key.now self.old.items)) self.old.items;
        } }
    {
        if let Some(exptime) = exptime {
            let hint = self.store.first_hint();
            let _ = self.expire(key, hint, Deadline::of(exptime, moment));
        }
    }

    /// Executes `touch`.
    pub(super) fn touch(&mut self, key: &[u8], hint: Hint, exptime: i64, moment: u64) -> Reply<()>
        requires { moment < 2 ^ 63 }
        ensures step { (value : List ℕ)
            → step_of self.old (AnUpdate (Touch key.now exptime)) moment (is_refusal result)
            ≡ (self.new, filled result value) }
        ensures refusal { is_refusal result ≡ false }
    {
        let found = self.settle(key, hint, moment);
        if self.expire(key, hint_of(found), Deadline::of(exptime, moment)) {
            Reply::Touched
        } else {
            Reply::NotFound
        }
    }

    /// Executes `delete` and `md`.
    pub(super) fn delete(
        &mut self,
        key: &[u8],
        hint: Hint,
        compare: Option<u64>,
        invalidate: bool,
        moment: u64,
    ) -> Reply<()>
        ensures step { (value : List ℕ)
            → step_of self.old (AnUpdate (Delete key.now compare invalidate)) moment (is_refusal result)
            ≡ (self.new, filled result value) }
        ensures refusal { is_refusal result ≡ false }
    {
        let Some(found) = self.settle(key, hint, moment) else {
            return Reply::NotFound;
        };
        if let Some(reply) = compared(compare, Some(found)) {
            let _ = self.bring(key, found.hint);
            return reply;
        }
        if invalidate {
            return self.invalidate(key, found);
        }
        let _ = self.take(key, found.hint);
        Reply::Deleted
    }

    /// Makes the item of a stored key stale, with a new number.
    fn invalidate(&mut self, key: &[u8], found: ItemMeta) -> Reply<()>
        requires { body_at key.now self.old.items ≡ found_body (Some found) (value_at key.now self.old.items) }
        ensures step { (value : List ℕ) → invalidated self.old key.now (body_of found (value_at key.now self.old.items))
            ≡ (self.new, filled result value) }
        ensures refusal { is_refusal result ≡ false }
    {
        let mut counter = self.counter;
        let Some(cas) = counter.next() else {
            return Reply::Fault(Fault::CasUsedUp);
        };
        let _ = self.mark(key, found.hint, true, false, cas);
        self.counter = counter;
        Reply::Deleted
    }

    /// Removes the key's item, and returns whether it existed.
    pub(super) fn take(&mut self, key: &[u8], hint: Hint) -> bool
        ensures held { result ≡ is_some (body_at key.now self.old.items) }
        ensures items { self.new ≡ record self.old { items = without key.now self.old.items } }
        ensures absent { body_at key.now self.new.items ≡ None }
    {
        self.store.take(key, hint).is_some()
    }

    /// Moves the key's item to the front.
    pub(super) fn bring(&mut self, key: &[u8], hint: Hint) -> bool
        ensures held { result ≡ is_some (body_at key.now self.old.items) }
        ensures items { self.new ≡ fronted self.old key.now }
    {
        self.store.bring(key, hint)
    }

    /// Sets the expiry of the key's item, moves it to the front, and returns whether it exists.
    pub(super) fn expire(&mut self, key: &[u8], hint: Hint, expiry: Deadline) -> bool
        ensures held { result ≡ is_some (body_at key.now self.old.items) }
        ensures items { self.new
            ≡ record self.old { items = brought key.now (expiring expiry (body_at key.now self.old.items)) self.old.items } }
    {
        self.store.expire(key, hint, expiry)
    }

    /// Sets the marks and the number of the key's item, moves it to the front, and returns whether it exists.
    pub(super) fn mark(&mut self, key: &[u8], hint: Hint, stale: bool, won: bool, cas: u64) -> bool
        ensures held { result ≡ is_some (body_at key.now self.old.items) }
        ensures items { self.new
            ≡ record self.old { items = brought key.now (marking stale won cas (body_at key.now self.old.items)) self.old.items } }
    {
        self.store.mark(key, hint, stale, won, cas)
    }
}
