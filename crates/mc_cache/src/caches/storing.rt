//! Storing: what a storage command does on a settled cache.
ghost use Rattle.std.specs.Prelude.{◌≡◌, ◌<◌, ◌^◌, ℕ, Bool, List, length, Some, None, true, IfOk, OnErr, IfSome, IfNone, false};
ghost use Rattle.std.specs.Option.{option_map};
ghost use Rattle.mc_text.specs.Keys.{is_key};
ghost use Rattle.mc_item.specs.Deadlines.{deadline_of};
ghost use Rattle.mc_item.specs.declared.deadlines.Deadline.{Deadline as ADeadline};
ghost use Rattle.mc_request.specs.declared.parts.StoreMode.TheVariants.{Set};
ghost use Rattle.mc_reply.specs.declared.replies.Reply.{Reply as AReply};
ghost use Rattle.mc_reply.specs.Replies.{filled};
ghost use Rattle.mc_store.specs.Items.{body_at};
ghost use Rattle.mc_cache.specs.CacheState.{value_at};
ghost use Rattle.mc_cache.specs.Settling.{settled};
ghost use Rattle.mc_cache.specs.Step.{compared, unmet, unstored, stored, store_step, numbered};
ghost use Rattle.mc_cache.specs.Memory.{store_may_refuse, store_takes_block, IsWhole};
ghost use Rattle.mc_cache.specs.Refusals.{is_refusal};
ghost use Rattle.mc_cache.specs.Admissions.{content_of, lent_content, joined, is_refused, reply_or_fault, renewed, found_body};

use super::Cache;
use super::putting::stored_or_fault;
use super::settling::ItemMeta;
use mc_item::{Body, Deadline};
use mc_reply::Reply;
use mc_request::{Fault, StoreMode};
use mc_store::{Hint, Store};
use mc_text::{Block, Key};
use std::alloc::{AllocError, Global};

/// The item that a storage command stores, with its block borrowed.
#[derive(Clone, Copy)]
pub struct NewItem<'a> {
    /// The client flags.
    pub flags: u32,
    /// When the item expires.
    pub expiry: Deadline,
    /// Whether a client is told to fetch the value.
    pub won: bool,
    /// The value.
    pub block: &'a [u8],
}

impl NewItem<'_> {
    /// Returns the body of this number, with a copy of the block.
    pub fn with(self, value: Block, cas: u64) -> Body
        requires { value ≡ (lent_content self).value }
        ensures { result ≡ numbered (lent_content self.entry) cas }
    {
        Body {
            flags: self.flags,
            expiry: self.expiry,
            cas,
            stale: false,
            won: self.won,
            value,
        }
    }
}

/// The side of a stored value at which a block is joined.
#[derive(Clone, Copy)]
pub enum Side {
    /// `prepend`.
    Before,
    /// `append`.
    After,
}

impl Side {
    /// Joins a block to a value, before or after it. It allocates once, for both.
    fn join(self, alloc: Global, value: &[u8], block: &[u8]) -> Result<Block, AllocError>
        ensures { IfOk result (λ whole. whole ≡ joined self value.now block.now) }
    {
        match self {
            Side::Before => Block::joined(alloc, block, value),
            Side::After => Block::joined(alloc, value, block),
        }
    }
}

impl<S: Store + Drop> Cache<S> {
    /// Executes a storage command on a settled cache, in which `found` is the item of its key. The body's number is not read.
    pub(super) fn store_own(
        &mut self,
        mode: StoreMode,
        compare: Option<u64>,
        key: Key,
        body: Body,
        found: Option<ItemMeta>,
    ) -> Reply<()>
        requires found { body_at key self.old.items ≡ found_body found (value_at key self.old.items) }
        ensures step { (value : List ℕ)
            → store_step self.old compare mode key (body_at key self.old.items) (content_of body) (is_refusal result)
            ≡ (self.new, filled result value) }
        ensures refusal { is_refusal result ≡ true
            → store_may_refuse compare mode (body_at key self.old.items) body.value ≡ true }
    {
        let block = body.value.as_slice();
        match self.store_but_whole(mode, compare, key.as_bytes(), block, found) {
            Some(reply) => reply,
            None => stored_or_fault(self.put_own(key, hint_of(found), body, found.is_some())),
        }
    }

    /// Executes `set` on a settled cache, in which `found` is the item of its key. The body's number is not read.
    pub(super) fn set_own(&mut self, key: Key, body: Body, found: Option<ItemMeta>) -> Reply<()>
        requires found { body_at key self.old.items ≡ found_body found (value_at key self.old.items) }
        ensures step { (value : List ℕ)
            → store_step self.old None Set key (body_at key self.old.items) (content_of body) (is_refusal result)
            ≡ (self.new, filled result value) }
        ensures refusal { is_refusal result ≡ true
            → store_may_refuse None Set (body_at key self.old.items) body.value ≡ true }
    {
        stored_or_fault(self.put_own(key, hint_of(found), body, found.is_some()))
    }

    /// Executes a storage command with the key and the block borrowed.
    ///
    /// It returns `Err` if a whole value is to be stored under a stored key, and there is no memory for its block:
    /// nothing has changed.
    pub(super) fn store_lent(
        &mut self,
        mode: StoreMode,
        compare: Option<u64>,
        key: &[u8],
        hint: Hint,
        lent: NewItem<'_>,
        moment: u64,
    ) -> Result<Reply<()>, AllocError>
        requires { is_key key.now ≡ true }
        ensures step { let s = settled self.old (Some key.now) moment in
            IfOk result (λ reply. (value : List ℕ)
            → store_step s compare mode key.now (body_at key.now s.items) (lent_content lent.entry) (is_refusal reply)
            ≡ (self.new, filled reply value)) }
        ensures refusal { let s = settled self.old (Some key.now) moment in
            IfOk result (λ reply. is_refusal reply ≡ true
            → store_may_refuse compare mode (body_at key.now s.items) (lent_content lent.entry).value ≡ true) }
        ensures err { OnErr result (self.new ≡ self.old) }
        ensures cause { let s = settled self.old (Some key.now) moment in
            OnErr result (store_takes_block s compare mode key.now (body_at key.now s.items) (lent_content lent.entry).value ≡ true) }
    {
        if let (StoreMode::Set, None) = (mode, compare) {
            if let Some(reply) = self.set_at_once(key, hint, lent, moment) {
                return Ok(reply);
            }
        }
        let found = self.settle(key, hint, moment);
        match self.store_but_whole(mode, compare, key, lent.block, found) {
            Some(reply) => Ok(reply),
            None => self.put_lent(key, hint_of(found), lent, found.is_some()),
        }
    }

    /// Executes a storage command that stores nothing, or joins its block to a stored value. It returns `None` if the
    /// command stores its block as the whole value, and does not do that.
    fn store_but_whole(
        &mut self,
        mode: StoreMode,
        compare: Option<u64>,
        key: &[u8],
        block: &[u8],
        found: Option<ItemMeta>,
    ) -> Option<Reply<()>>
        requires found { body_at key.now self.old.items ≡ found_body found (value_at key.now self.old.items) }
        ensures step { IfSome result (λ reply. (flags : ℕ) → (expiry : ADeadline) → (won : Bool) → (value : List ℕ)
            → store_step self.old compare mode key.now (body_at key.now self.old.items)
            (record { flags = flags; expiry = expiry; won = won; value = block.now }) (is_refusal reply)
            ≡ (self.new, filled reply value)) }
        ensures refusal { IfSome result (λ reply. is_refusal reply ≡ true
            → store_may_refuse compare mode (body_at key.now self.old.items) block.now ≡ true) }
        ensures unchanged { IfNone result (self.new ≡ self.old) }
        ensures whole { IfNone result (IsWhole compare mode (body_at key.now self.old.items)) }
    {
        if let Some(reply) = unstored(compare, mode, found) {
            let _ = self.bring(key, hint_of(found));
            return Some(reply);
        }
        let found = found?;
        let side = match mode {
            StoreMode::Append => Side::After,
            StoreMode::Prepend => Side::Before,
            StoreMode::Set | StoreMode::Add | StoreMode::Replace => return None,
        };
        Some(stored_or_fault(self.join(side, key, block, found)))
    }

    /// Stores a stored value with a block before or after it. It takes memory if the block has bytes.
    fn join(&mut self, side: Side, key: &[u8], block: &[u8], found: ItemMeta) -> Result<(), Fault>
        requires found { body_at key.now self.old.items ≡ found_body (Some found) (value_at key.now self.old.items) }
        ensures step { (reply : AReply (List ℕ))
            → stored self.old key.now (renewed found (joined side (value_at key.now self.old.items) block.now)) (is_refused result) reply
            ≡ (self.new, reply_or_fault result reply) }
        ensures refusal { is_refused result ≡ true → 0 < length block.now }
    {
        let before = self.held(key, found.hint);
        let cas = self.admit(key, before.len() + block.len())?;
        if block.is_empty() {
            self.renew(key, found, cas);
            return Ok(());
        }
        match side.join(self.alloc, before, block) {
            Ok(value) => {
                self.put_held(key, found.hint, found.with(value, cas));
                Ok(())
            }
            Err(_) => Err(Fault::OutOfMemory),
        }
    }
}

/// Returns the body of what is stored at a moment, with an owned block. It has no number yet.
pub(super) fn own_body(flags: u32, exptime: i64, block: Block, moment: u64) -> Body
    requires { moment < 2 ^ 63 }
    ensures { result ≡ record { flags = flags; expiry = deadline_of exptime moment; cas = 0; stale = false; won = false; value = block } }
{
    Body {
        flags,
        expiry: Deadline::of(exptime, moment),
        cas: 0,
        stale: false,
        won: false,
        value: block,
    }
}

/// Returns the hint of the item that was found; [`Hint::none`] if none was.
pub(super) fn hint_of(found: Option<ItemMeta>) -> Hint {
    match found {
        Some(found) => found.hint,
        None => Hint::none(),
    }
}

/// Returns the reply to a storage command that stores nothing, by what was found under its key.
fn unstored(compare: Option<u64>, mode: StoreMode, found: Option<ItemMeta>) -> Option<Reply<()>>
    ensures reply { (before value : List ℕ)
        → option_map (λ reply. filled reply value) result ≡ unstored compare mode (found_body found before) }
    ensures refusal { IfSome result (λ reply. is_refusal reply ≡ false) }
{
    match compared(compare, found) {
        Some(reply) => Some(reply),
        None => unmet(mode, found),
    }
}

/// Returns the reply to a command that compares what was found with a number, and goes no further.
pub(super) fn compared(compare: Option<u64>, found: Option<ItemMeta>) -> Option<Reply<()>>
    ensures reply { (before value : List ℕ)
        → option_map (λ reply. filled reply value) result ≡ compared compare (found_body found before) }
    ensures refusal { IfSome result (λ reply. is_refusal reply ≡ false) }
{
    let number = compare?;
    match found {
        None => Some(Reply::NotFound),
        Some(found) if found.cas == number => None,
        Some(_) => Some(Reply::Exists),
    }
}

/// Returns the reply to a storage command whose condition is not met by what was found.
fn unmet(mode: StoreMode, found: Option<ItemMeta>) -> Option<Reply<()>>
    ensures reply { (before value : List ℕ)
        → option_map (λ reply. filled reply value) result ≡ unmet mode (found_body found before) }
    ensures refusal { IfSome result (λ reply. is_refusal reply ≡ false) }
{
    match (mode, found) {
        (StoreMode::Add, Some(_))
        | (StoreMode::Replace | StoreMode::Append | StoreMode::Prepend, None) => {
            Some(Reply::NotStored)
        }
        _ => None,
    }
}
