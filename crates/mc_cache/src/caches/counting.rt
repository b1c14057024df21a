//! Counting: what `incr`, `decr` and `ma` do.
ghost use Rattle.std.specs.Prelude.{◌≡◌, ◌<◌, ◌^◌, ℕ, List, length, Some, None, true, is_some};
ghost use Rattle.std.specs.Fmt.{decimal};
ghost use Rattle.mc_text.specs.Keys.{is_key};
ghost use Rattle.mc_request.specs.declared.parts.Atom.TheVariants.{Update as AnUpdate};
ghost use Rattle.mc_request.specs.declared.parts.Update.TheVariants.{Count};
ghost use Rattle.mc_reply.specs.declared.replies.Reply.{Reply as AReply};
ghost use Rattle.mc_reply.specs.declared.replies.Reply.TheVariants.{Number};
ghost use Rattle.mc_reply.specs.Replies.{filled};
ghost use Rattle.mc_store.specs.Items.{body_at};
ghost use Rattle.mc_cache.specs.CacheState.{value_at};
ghost use Rattle.mc_cache.specs.Step.{stored, step_of, count_none, count_step, counted};
ghost use Rattle.mc_cache.specs.Memory.{count_may_refuse, may_refuse};
ghost use Rattle.mc_cache.specs.Refusals.{is_refusal};
ghost use Rattle.mc_cache.specs.Admissions.{is_refused, reply_or_fault, renewed, found_body};

use super::Cache;
use super::settling::ItemMeta;
use super::storing::{NewItem, compared};
use itoa::Buffer;
use mc_item::Deadline;
use mc_reply::Reply;
use mc_request::{Counting, Direction, Fault};
use mc_store::{Hint, Store};
use mc_text::{Block, read_u64};

impl<S: Store + Drop> Cache<S> {
    /// Executes `incr`, `decr` and `ma`.
    pub(super) fn count(
        &mut self,
        key: &[u8],
        hint: Hint,
        counting: &Counting,
        moment: u64,
    ) -> Reply<()>
        requires moment { moment < 2 ^ 63 }
        requires key { is_key key.now ≡ true }
        ensures step { (value : List ℕ)
            → step_of self.old (AnUpdate (Count key.now counting.now)) moment (is_refusal result)
            ≡ (self.new, filled result value) }
        ensures refusal { is_refusal result ≡ true
            → may_refuse self.old (AnUpdate (Count key.now counting.now)) moment ≡ true }
    {
        match self.settle(key, hint, moment) {
            Some(found) => self.count_held(key, counting, found, moment),
            None => self.count_none(key, counting, moment),
        }
    }

    /// Counts on a settled cache, in which `found` is the item of the key.
    fn count_held(
        &mut self,
        key: &[u8],
        counting: &Counting,
        found: ItemMeta,
        moment: u64,
    ) -> Reply<()>
        requires moment { moment < 2 ^ 63 }
        requires found { body_at key.now self.old.items ≡ found_body (Some found) (value_at key.now self.old.items) }
        ensures step { (value : List ℕ)
            → count_step self.old key.now (body_at key.now self.old.items) counting.now moment (is_refusal result)
            ≡ (self.new, filled result value) }
        ensures refusal { is_refusal result ≡ true
            → count_may_refuse counting.now (body_at key.now self.old.items) ≡ true }
    {
        if let Some(reply) = compared(counting.compare, Some(found)) {
            let _ = self.bring(key, found.hint);
            return reply;
        }
        let before = self.held(key, found.hint);
        let room = before.len();
        let Some(number) = read_u64(before) else {
            return Reply::Fault(Fault::NonNumeric);
        };
        let number = counted(counting.direction, counting.delta, number);
        number_or_fault(
            self.write_number(key, number, room, found.touched(counting.exptime, moment)),
            number,
        )
    }

    /// Counts on a settled cache in which the key is not stored: an item is made, or not.
    fn count_none(&mut self, key: &[u8], counting: &Counting, moment: u64) -> Reply<()>
        requires moment { moment < 2 ^ 63 }
        requires key { is_key key.now ≡ true }
        requires absent { body_at key.now self.old.items ≡ None }
        ensures step { (value : List ℕ) → count_none self.old key.now counting.now.create moment (is_refusal result)
            ≡ (self.new, filled result value) }
        ensures refusal { is_refusal result ≡ true → is_some counting.now.create ≡ true }
    {
        let Some(creation) = counting.create else {
            return Reply::NotFound;
        };
        let mut digits = Buffer::new();
        let lent = NewItem {
            flags: 0,
            expiry: Deadline::of(creation.exptime, moment),
            won: false,
            block: digits.format(creation.initial).as_bytes(),
        };
        number_or_fault(self.make(key, lent), creation.initial)
    }

    /// Stores a number's text in place of a stored value of this length, with the flags and the expiry of `found`. It
    /// takes memory only if the text is longer.
    fn write_number(
        &mut self,
        key: &[u8],
        number: u64,
        room: usize,
        found: ItemMeta,
    ) -> Result<(), Fault>
        requires held { is_some (body_at key.now self.old.items) ≡ true }
        requires room { room ≡ length (value_at key.now self.old.items) }
        ensures step { (reply : AReply (List ℕ))
            → stored self.old key.now (renewed found (decimal number)) (is_refused result) reply
            ≡ (self.new, reply_or_fault result reply) }
        ensures refusal { is_refused result ≡ true
            → length (value_at key.now self.old.items) < length (decimal number) }
    {
        let mut digits = Buffer::new();
        let text = digits.format(number).as_bytes();
        let cas = self.admit(key, text.len())?;
        if text.len() <= room {
            self.overwrite(key, text, found, cas);
            return Ok(());
        }
        match Block::from_slice(self.alloc, text) {
            Ok(value) => {
                self.put_held(key, found.hint, found.with(value, cas));
                Ok(())
            }
            Err(_) => Err(Fault::OutOfMemory),
        }
    }
}

/// Returns the counted number. A sum wraps at 64 bits, and a difference stops at 0.
fn counted(direction: Direction, delta: u64, number: u64) -> u64
    ensures { result ≡ counted direction delta number }
{
    match direction {
        Direction::Up => number.wrapping_add(delta),
        Direction::Down => number.saturating_sub(delta),
    }
}

/// Returns the reply to a command that stored a number, or why it did not.
fn number_or_fault(stored: Result<(), Fault>, number: u64) -> Reply<()>
    ensures reply { (value : List ℕ) → filled result value ≡ reply_or_fault stored (Number number) }
    ensures refusal { is_refusal result ≡ is_refused stored }
{
    match stored {
        Ok(()) => Reply::Number(number),
        Err(fault) => Reply::Fault(fault),
    }
}
