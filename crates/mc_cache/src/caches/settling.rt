//! Settling: what time does to a cache before a command, and the small steps of which commands are made.
ghost use Rattle.std.specs.Prelude.{◌≡◌, ◌<◌, ◌^◌, ℕ, List, Some, None, OnSome, false};
ghost use Rattle.mc_request.specs.declared.parts.Atom.TheVariants.{Update as AnUpdate};
ghost use Rattle.mc_request.specs.declared.parts.Update.TheVariants.{FlushAll};
ghost use Rattle.mc_store.specs.Items.{body_at, without};
ghost use Rattle.mc_cache.specs.CacheState.{value_at, front_value};
ghost use Rattle.mc_cache.specs.Settling.{settled, flushed, emptied};
ghost use Rattle.mc_cache.specs.Step.{step_of, fronted, flush_step};
ghost use Rattle.mc_cache.specs.Refusals.{is_refusal};
ghost use Rattle.mc_reply.specs.Replies.{filled};
ghost use Rattle.mc_cache.specs.Admissions.{found_body, renewed};

use super::Cache;
use mc_item::{Body, Deadline};
use mc_reply::Reply;
use mc_store::{Hint, Store};
use mc_text::Block;

/// What a look-up found: a stored item, all but its value.
#[derive(Clone, Copy)]
pub struct ItemMeta {
    /// The client flags.
    pub flags: u32,
    /// When the item expires.
    pub expiry: Deadline,
    /// The item's number.
    pub cas: u64,
    /// Whether the value was marked as stale.
    pub stale: bool,
    /// Whether a client was told to fetch the value anew.
    pub won: bool,
    /// A hint of the item's slot.
    pub hint: Hint,
}

impl ItemMeta {
    ghost use Rattle.mc_cache.specs.Step.{numbered, expiry_by};

    /// Returns all of a body but its value, with a hint of its item's slot.
    fn of(body: &Body, hint: Hint) -> ItemMeta
        ensures { found_body (Some result) body.now.value ≡ Some body.now }
    {
        ItemMeta {
            flags: body.flags,
            expiry: body.expiry,
            cas: body.cas,
            stale: body.stale,
            won: body.won,
            hint,
        }
    }

    /// Returns the found body with another value, another number and no mark.
    pub fn with(self, value: Block, cas: u64) -> Body
        ensures { result ≡ numbered (renewed self value) cas }
    {
        Body {
            flags: self.flags,
            expiry: self.expiry,
            cas,
            stale: false,
            won: false,
            value,
        }
    }

    /// Returns the found item with another expiry, if an exptime is given.
    pub fn touched(self, exptime: Option<i64>, moment: u64) -> ItemMeta
        requires { moment < 2 ^ 63 }
        ensures { result ≡ record self { expiry = expiry_by exptime moment self.expiry } }
    {
        match exptime {
            Some(exptime) => ItemMeta {
                expiry: Deadline::of(exptime, moment),
                ..self
            },
            None => self,
        }
    }
}

impl<S: Store + Drop> Cache<S> {
    /// Brings the cache to a moment for a command on a key, and looks the key up. If it is stored, that
    /// moment has changed nothing.
    pub(super) fn settle(&mut self, key: &[u8], hint: Hint, moment: u64) -> Option<ItemMeta>
        ensures settled { self.new ≡ settled self.old (Some key.now) moment }
        ensures found { body_at key.now self.new.items ≡ found_body result (value_at key.now self.new.items) }
        ensures held { OnSome result (self.new ≡ self.old) }
    {
        self.flush_due(moment);
        let found = self.look(key, hint)?;
        if found.expiry.is_dead(moment) {
            let _ = self.take(key, found.hint);
            return None;
        }
        Some(found)
    }

    /// Removes all items if the moment of a flush has been reached.
    pub(super) fn flush_due(&mut self, moment: u64)
        ensures flushed { self.new ≡ flushed self.old moment }
        ensures distinct { (key : List ℕ) → body_at key (without key self.old.items) ≡ None }
    {
        match self.pending {
            Some(due) if due <= moment => self.drop_all(),
            _ => {}
        }
    }

    /// Executes `flush_all`.
    pub(super) fn flush_all(&mut self, delay: i64, moment: u64) -> Reply<()>
        requires { moment < 2 ^ 63 }
        ensures step { (value : List ℕ) → step_of self.old (AnUpdate (FlushAll delay)) moment (is_refusal result)
            ≡ (self.new, filled result value) }
        ensures refusal { is_refusal result ≡ false }
    {
        self.flush_due(moment);
        self.flush(delay, moment);
        Reply::Flushed
    }

    /// Executes `flush_all` on a settled cache.
    fn flush(&mut self, delay: i64, moment: u64)
        requires { moment < 2 ^ 63 }
        ensures { self.new ≡ flush_step self.old delay moment }
    {
        match delay {
            ..=0 => self.drop_all(),
            _ => self.pending = Deadline::of(delay, moment).due(),
        }
    }

    /// Moves the key's item to the front, and returns what it found.
    pub(super) fn find(&mut self, key: &[u8], hint: Hint) -> Option<ItemMeta>
        ensures found { body_at key.now self.old.items ≡ found_body result (front_value self.new.items) }
        ensures items { self.new ≡ fronted self.old key.now }
    {
        if !self.bring(key, hint) {
            return None;
        }
        let hint = self.store.first_hint();
        let body = self.store.front()?;
        Some(ItemMeta::of(body, hint))
    }

    /// Brings the cache to a moment for a command on a key, moves the key's item to the front, and returns what it found.
    pub(super) fn settle_in_front(
        &mut self,
        key: &[u8],
        hint: Hint,
        moment: u64,
    ) -> Option<ItemMeta>
        ensures settled { self.new ≡ fronted (settled self.old (Some key.now) moment) key.now }
        ensures found { body_at key.now (settled self.old (Some key.now) moment).items
            ≡ found_body result (front_value self.new.items) }
        ensures distinct { (key : List ℕ) → body_at key (without key self.old.items) ≡ None }
    {
        self.flush_due(moment);
        let found = self.find(key, hint)?;
        if found.expiry.is_dead(moment) {
            let _ = self.take(key, found.hint);
            return None;
        }
        Some(found)
    }

    fn drop_all(&mut self)
        ensures { self.new ≡ emptied self.old }
    {
        self.store.clear();
        self.pending = None;
    }

    fn look(&self, key: &[u8], hint: Hint) -> Option<ItemMeta>
        ensures { body_at key.now self.now.items ≡ found_body result (value_at key.now self.now.items) }
    {
        let (hint, body) = self.store.find(key, hint)?;
        Some(ItemMeta::of(body, hint))
    }
}
