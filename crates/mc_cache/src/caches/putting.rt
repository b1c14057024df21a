//! Putting: an admitted item is put in front, and the bounds are kept by eviction.
ghost use Rattle.std.specs.Prelude.{◌≡◌, ◌<◌, ◌≤◌, ◌^◌, ℕ, List, [], length, Some, None, Ok, is_some, is_ok, true, false, IfOk, IfErr, OnOk, OnErr, IfSome, OnSome, IfNone};
ghost use Rattle.mc_text.specs.Keys.{is_key};
ghost use Rattle.mc_request.specs.declared.faults.Fault.TheVariants.{OutOfMemory};
ghost use Rattle.mc_reply.specs.declared.replies.Reply.{Reply as AReply};
ghost use Rattle.mc_reply.specs.declared.replies.Reply.TheVariants.{Stored};
ghost use Rattle.mc_reply.specs.Replies.{filled};
ghost use Rattle.mc_store.specs.Items.{body_at};
ghost use Rattle.mc_cache.specs.CacheState.{value_at};
ghost use Rattle.mc_cache.specs.Settling.{settled};
ghost use Rattle.mc_cache.specs.Step.{admission, stored, numbered, with_item};
ghost use Rattle.mc_cache.specs.Refusals.{is_refusal};
ghost use Rattle.mc_cache.specs.Admissions.{content_of, lent_content, is_refused, reply_or_fault, lifted, renewed, found_body};

use super::Cache;
use super::settling::ItemMeta;
use super::storing::NewItem;
use mc_item::{Body, CasCounter, Deadline, cost_at};
use mc_reply::Reply;
use mc_request::Fault;
use mc_store::{Hint, Store, keep};
use mc_text::{Block, Key, VALUE_LIMIT};
use std::alloc::AllocError;

impl<S: Store + Drop> Cache<S> {
    /// Stores an owned body, under a new number. If the key is stored it takes no memory.
    pub(super) fn put_own(
        &mut self,
        key: Key,
        hint: Hint,
        mut body: Body,
        is_held: bool,
    ) -> Result<(), Fault>
        requires held { is_some (body_at key self.old.items) ≡ is_held }
        ensures step { (reply : AReply (List ℕ)) → stored self.old key (content_of body) (is_refused result) reply
            ≡ (self.new, reply_or_fault result reply) }
        ensures refusal { is_refused result ≡ true → is_held ≡ false }
    {
        let cas = self.admit(key.as_bytes(), body.value.len())?;
        number_anew(&mut body, cas);
        if is_held {
            self.put_held(key.as_bytes(), hint, body);
            return Ok(());
        }
        self.put_new(key, body)
    }

    /// Stores a borrowed item, under a new number.
    ///
    /// It returns `Err` if the key is stored and there is no memory for the block: nothing has changed.
    pub(super) fn put_lent(
        &mut self,
        key: &[u8],
        hint: Hint,
        lent: NewItem<'_>,
        is_held: bool,
    ) -> Result<Reply<()>, AllocError>
        requires key { is_key key.now ≡ true }
        requires held { is_some (body_at key.now self.old.items) ≡ is_held }
        ensures step { IfOk result (λ reply. (value : List ℕ)
            → stored self.old key.now (lent_content lent.entry) (is_refusal reply) Stored ≡ (self.new, filled reply value)) }
        ensures refusal { IfOk result (λ reply. is_refusal reply ≡ true → is_held ≡ false) }
        ensures err { OnErr result (self.new ≡ self.old) }
        ensures held { OnErr result (is_held ≡ true) }
        ensures admitted { OnErr result (is_ok (admission self.old key.now (length (lent_content lent.entry).value)) ≡ true) }
    {
        if !is_held {
            return Ok(stored_or_fault(self.make(key, lent)));
        }
        match self.admit(key, lent.block.len()) {
            Ok(cas) => {
                let value = Block::from_slice(self.alloc, lent.block)?;
                self.put_held(key, hint, lent.with(value, cas));
                Ok(Reply::Stored)
            }
            Err(fault) => Ok(Reply::Fault(fault)),
        }
    }

    /// Stores a borrowed item under a key that is not stored, with a new number: then its item is first.
    pub(super) fn make(&mut self, key: &[u8], lent: NewItem<'_>) -> Result<(), Fault>
        requires key { is_key key.now ≡ true }
        requires absent { body_at key.now self.old.items ≡ None }
        ensures step { (reply : AReply (List ℕ))
            → stored self.old key.now (lent_content lent.entry) (is_refused result) reply
            ≡ (self.new, reply_or_fault result reply) }
    {
        let cas = self.admit(key, lent.block.len())?;
        match Block::from_slice(self.alloc, lent.block) {
            Ok(value) => self.put_copied(key, lent.with(value, cas)),
            Err(_) => Err(Fault::OutOfMemory),
        }
    }

    /// Stores a borrowed item, whether its key is stored or not, and looks the key up only once.
    ///
    /// It returns `None` if the item is not admitted, or if there is no memory for its block: nothing has changed.
    pub(super) fn set_at_once(
        &mut self,
        key: &[u8],
        hint: Hint,
        lent: NewItem<'_>,
        moment: u64,
    ) -> Option<Reply<()>>
        requires { is_key key.now ≡ true }
        ensures step { IfSome result (λ reply. (value : List ℕ)
            → stored (settled self.old (Some key.now) moment) key.now (lent_content lent.entry) (is_refusal reply) Stored
            ≡ (self.new, filled reply value)) }
        ensures refusal { IfSome result (λ reply. is_refusal reply ≡ true
            → body_at key.now (settled self.old (Some key.now) moment).items ≡ None) }
        ensures unchanged { IfNone result (self.new ≡ self.old) }
    {
        let Ok(cas) = self.admit(key, lent.block.len()) else {
            return None;
        };
        let Ok(value) = Block::from_slice(self.alloc, lent.block) else {
            return None;
        };
        self.flush_due(moment);
        match self.put_if_held(key, hint, lent.with(value, cas)) {
            None => Some(Reply::Stored),
            Some(body) => Some(stored_or_fault(self.put_copied(key, body))),
        }
    }

    /// Stores an admitted body under a copy of a key that is not stored.
    fn put_copied(&mut self, key: &[u8], body: Body) -> Result<(), Fault>
        requires key { is_key key.now ≡ true }
        requires absent { body_at key.now self.old.items ≡ None }
        requires admitted { admission self.old key.now (length body.value) ≡ Ok body.cas }
        ensures ok { OnOk result (self.new ≡ with_item self.old key.now body) }
        ensures err { OnErr result (self.new ≡ self.old) }
        ensures cause { IfErr result (λ fault. fault ≡ OutOfMemory) }
    {
        match Key::of_bytes(self.alloc, key) {
            Ok(own) => self.put_new(own, body),
            Err(_) => Err(Fault::OutOfMemory),
        }
    }

    /// Stores an admitted body under a key that is not stored.
    #[tactic(auto, using(mc_store::proofs::ItemLemmas::absent))]
    fn put_new(&mut self, key: Key, body: Body) -> Result<(), Fault>
        requires absent { body_at key self.old.items ≡ None }
        requires admitted { admission self.old key (length body.value) ≡ Ok body.cas }
        ensures ok { OnOk result (self.new ≡ with_item self.old key body) }
        ensures err { OnErr result (self.new ≡ self.old) }
        ensures cause { IfErr result (λ fault. fault ≡ OutOfMemory) }
    {
        if self.is_short {
            return Err(Fault::OutOfMemory);
        }
        let cas = body.cas;
        let Ok(()) = self.store.put_front(key, body) else {
            return Err(Fault::OutOfMemory);
        };
        self.counter = CasCounter::starting_at(cas);
        keep(&mut self.store, self.budget, self.limit);
        Ok(())
    }

    /// Stores an admitted body under a stored key. It takes no memory.
    pub(super) fn put_held(&mut self, key: &[u8], hint: Hint, body: Body)
        requires held { is_some (body_at key.now self.old.items) ≡ true }
        requires admitted { admission self.old key.now (length body.value) ≡ Ok body.cas }
        ensures { self.new ≡ with_item self.old key.now body }
    {
        let _ = self.put_if_held(key, hint, body);
    }

    /// Stores an admitted body, if its key is stored, and returns it if not. It takes no memory.
    fn put_if_held(&mut self, key: &[u8], hint: Hint, body: Body) -> Option<Body>
        requires { admission self.old key.now (length body.value) ≡ Ok body.cas }
        ensures held { IfNone result (self.new ≡ with_item self.old key.now body) }
        ensures absent { OnSome result (body_at key.now self.old.items ≡ None) }
        ensures back { IfSome result (λ back. back ≡ body) }
        ensures unchanged { OnSome result (self.new ≡ self.old) }
    {
        let cas = body.cas;
        match self.store.replace(key, hint, body) {
            Ok(_) => {
                self.counter = CasCounter::starting_at(cas);
                keep(&mut self.store, self.budget, self.limit);
                None
            }
            Err(body) => Some(body),
        }
    }

    /// Stores a stored body anew, with this number. It takes no memory.
    pub(super) fn renew(&mut self, key: &[u8], found: ItemMeta, cas: u64)
        requires found { body_at key.now self.old.items ≡ found_body (Some found) (value_at key.now self.old.items) }
        requires admitted { admission self.old key.now (length (value_at key.now self.old.items)) ≡ Ok cas }
        ensures { self.new
            ≡ with_item self.old key.now (numbered (renewed found (value_at key.now self.old.items)) cas) }
    {
        let mut body = self.lift(key, found.hint);
        number_anew(&mut body, cas);
        self.put_held(key, found.hint, body);
    }

    /// Overwrites the stored value by a text that is no longer, with the flags and the expiry of `found`. It takes no memory.
    pub(super) fn overwrite(&mut self, key: &[u8], text: &[u8], found: ItemMeta, cas: u64)
        requires held { is_some (body_at key.now self.old.items) ≡ true }
        requires fits { length text.now ≤ length (value_at key.now self.old.items) }
        requires admitted { admission self.old key.now (length text.now) ≡ Ok cas }
        ensures { self.new ≡ with_item self.old key.now (numbered (renewed found text.now) cas) }
    {
        let mut value = self.lift(key, found.hint).value;
        value.overwrite(text);
        self.put_held(key, found.hint, found.with(value, cas));
    }

    /// Returns the value under a stored key.
    pub(super) fn held(&self, key: &[u8], hint: Hint) -> &[u8]
        requires { is_some (body_at key.now self.now.items) ≡ true }
        ensures { result.now ≡ value_at key.now self.now.items }
    {
        self.store.find(key, hint).unwrap().1.value.as_slice()
    }

    /// Moves the body out from under a stored key. The key stays stored, with no bytes.
    fn lift(&mut self, key: &[u8], hint: Hint) -> Body
        requires { is_some (body_at key.now self.old.items) ≡ true }
        ensures body { body_at key.now self.old.items ≡ Some result }
        ensures lifted { self.new ≡ lifted self.old key.now }
    {
        let bare = Body {
            flags: 0,
            expiry: Deadline::never(),
            cas: 0,
            stale: false,
            won: false,
            value: Block::new(self.alloc),
        };
        self.store.replace(key, hint, bare).unwrap()
    }

    /// Returns the number of an item whose value has this many bytes, or why it is not stored under a key.
    pub(super) fn admit(&self, key: &[u8], bytes: usize) -> Result<u64, Fault>
        ensures { result ≡ admission self.now key.now bytes }
    {
        if bytes > VALUE_LIMIT || cost_at(key.len(), bytes) > self.budget {
            return Err(Fault::TooLarge);
        }
        let mut counter = self.counter;
        counter.next().ok_or(Fault::CasUsedUp)
    }
}

/// Gives a body that is stored anew its number, and clears its marks.
fn number_anew(body: &mut Body, cas: u64)
    ensures { body.new ≡ numbered (content_of body.old) cas }
{
    body.cas = cas;
    body.stale = false;
    body.won = false;
}

/// Returns the reply to a storage command that stored, or why it did not.
pub(super) fn stored_or_fault(stored: Result<(), Fault>) -> Reply<()>
    ensures reply { (value : List ℕ) → filled result value ≡ reply_or_fault stored Stored }
    ensures refusal { is_refusal result ≡ is_refused stored }
{
    match stored {
        Ok(()) => Reply::Stored,
        Err(fault) => Reply::Fault(fault),
    }
}
