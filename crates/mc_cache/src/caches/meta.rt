//! Meta commands: `mg`, and the meta reply to an update.
ghost use Rattle.std.specs.Prelude.{◌≡◌, ◌<◌, ◌^◌, ◌||◌, ℕ, List, Some, None, is_some, true, false};
ghost use Rattle.mc_text.specs.Keys.{is_key};
ghost use Rattle.mc_item.specs.Deadlines.{left_of};
ghost use Rattle.mc_request.specs.declared.parts.Atom.TheVariants.{Meta as AMeta};
ghost use Rattle.mc_request.specs.declared.meta.MetaCommand.TheVariants.{Get as AGet};
ghost use Rattle.mc_reply.specs.Replies.{filled};
ghost use Rattle.mc_store.specs.Items.{body_at, front_body, without, brought};
ghost use Rattle.mc_cache.specs.CacheState.{value_at, front_value};
ghost use Rattle.mc_cache.specs.Showing.{is_low, marks_by, item_shown};
ghost use Rattle.mc_cache.specs.Step.{step_of, touched, meta_get_none, meta_get_step};
ghost use Rattle.mc_cache.specs.Memory.{may_refuse};
ghost use Rattle.mc_cache.specs.Refusals.{is_refusal};
ghost use Rattle.mc_cache.specs.Admissions.{IsMetaReply, found_body, body_of};

use super::Cache;
use super::settling::ItemMeta;
use super::storing::NewItem;
use mc_item::Deadline;
use mc_reply::{Marks, Reply, Shown};
use mc_request::{MetaGet, Show};
use mc_store::{Hint, Store};

impl<S: Store + Drop> Cache<S> {
    /// Executes `mg`.
    pub(super) fn show(&mut self, key: &[u8], hint: Hint, get: &MetaGet, moment: u64) -> Reply<()>
        requires moment { moment < 2 ^ 63 }
        requires key { is_key key.now ≡ true }
        ensures step { step_of self.old (AMeta (AGet key.now get.now)) moment (is_refusal result)
            ≡ (self.new, filled result (front_value self.new.items)) }
        ensures same { filled result (value_at key.now self.new.items) ≡ filled result (front_value self.new.items) }
        ensures refusal { is_refusal result ≡ true
            → may_refuse self.old (AMeta (AGet key.now get.now)) moment ≡ true }
        ensures distinct { (key : List ℕ) → body_at key (without key self.old.items) ≡ None }
    {
        match self.settle_in_front(key, hint, moment) {
            Some(found) => {
                self.store.retrieved(true);
                self.show_found(key, get, found, moment)
            }
            None => {
                self.store.retrieved(false);
                self.show_made(key, get, moment)
            }
        }
    }

    /// Executes `mg` on a settled cache, in which `found` is the item of the key and is first.
    fn show_found(&mut self, key: &[u8], get: &MetaGet, found: ItemMeta, moment: u64) -> Reply<()>
        requires moment { moment < 2 ^ 63 }
        requires found { body_at key.now self.old.items ≡ found_body (Some found) (front_value self.old.items) }
        requires first { self.old.items ≡ brought key.now (body_at key.now self.old.items) self.old.items }
        ensures step { meta_get_step self.old key.now (body_at key.now self.old.items) get.now moment false
            ≡ (self.new, filled result (front_value self.new.items)) }
        ensures same { filled result (value_at key.now self.new.items) ≡ filled result (front_value self.new.items) }
        ensures refusal { is_refusal result ≡ false }
    {
        let needs = found.stale || is_low(get.recache, found.expiry.left(moment));
        if needs && !found.won {
            self.win(key, found);
        }
        self.touch_front(key, get.exptime, moment);
        self.show_front(&get.show, marks_by(found.stale, found.won, needs), moment)
    }

    /// Notes at the first item, which is `found`, that a client is told to fill it.
    fn win(&mut self, key: &[u8], found: ItemMeta)
        requires found { body_at key.now self.old.items ≡ found_body (Some found) (front_value self.old.items) }
        ensures { self.new ≡ record self.old {
          items = brought key.now
              (Some (record (body_of found (front_value self.old.items)) { won = true })) self.old.items;
        } }
    {
        let _ = self.mark(key, found.hint, found.stale, true, found.cas);
    }

    /// Executes `mg` on a settled cache in which the key is not stored: an item is made, or not.
    fn show_made(&mut self, key: &[u8], get: &MetaGet, moment: u64) -> Reply<()>
        requires moment { moment < 2 ^ 63 }
        requires key { is_key key.now ≡ true }
        requires absent { body_at key.now self.old.items ≡ None }
        ensures step { meta_get_none self.old key.now get.now get.now.create moment (is_refusal result)
            ≡ (self.new, filled result (front_value self.new.items)) }
        ensures same { filled result (value_at key.now self.new.items) ≡ filled result (front_value self.new.items) }
        ensures refusal { is_refusal result ≡ true → is_some get.now.create ≡ true }
    {
        let Some(create) = get.create else {
            return Reply::Miss;
        };
        let lent = NewItem {
            flags: 0,
            expiry: Deadline::of(get.exptime.unwrap_or(create), moment),
            won: true,
            block: &[],
        };
        match self.make(key, lent) {
            Ok(()) => self.show_front(&get.show, Marks::Won, moment),
            Err(fault) => Reply::Fault(fault),
        }
    }

    /// Turns the reply to an update into the reply to a meta command. What was stored is first.
    pub(super) fn tell(&self, reply: Reply<()>, show: &Show, moment: u64) -> Reply<()>
        ensures told { IsMetaReply show.now moment self.now reply result }
        ensures refusal { is_refusal result ≡ is_refusal reply }
    {
        match reply {
            Reply::Stored | Reply::Number(_) => self.show_front(show, Marks::Plain, moment),
            Reply::Deleted => Reply::Meta {
                shown: Shown::nothing(),
                value: None,
            },
            _ => reply,
        }
    }

    /// Returns a reply that shows the first item at a moment, with these marks.
    fn show_front(&self, show: &Show, marks: Marks, moment: u64) -> Reply<()>
        ensures shown { filled result (front_value self.now.items)
            ≡ item_shown show.now moment marks (front_body self.now.items) }
        ensures refusal { is_refusal result ≡ false }
    {
        let Some(body) = self.store.front() else {
            return Reply::Meta {
                shown: Shown::nothing(),
                value: None,
            };
        };
        Reply::Meta {
            shown: Shown {
                cas: show.cas.then_some(body.cas),
                flags: show.flags.then_some(body.flags),
                size: show.size.then_some(body.value.len()),
                left: show.left.then_some(body.expiry.left(moment)),
                marks,
            },
            value: show.value.then_some(()),
        }
    }
}

/// Returns whether the seconds until expiry are below those of a command, if it names any. An item that never expires
/// has more than any.
fn is_low(recache: Option<u64>, left: Option<u64>) -> bool
    ensures { result ≡ is_low recache left }
{
    match (recache, left) {
        (Some(recache), Some(left)) => left < recache,
        _ => false,
    }
}

/// Returns the marks of an item, by whether it is stale, whether a client was told to fill it, and whether it needs filling.
fn marks_by(stale: bool, won: bool, needs: bool) -> Marks
    ensures { result ≡ marks_by stale won needs }
{
    match (stale, won, needs) {
        (false, true, _) => Marks::Sent,
        (true, true, _) => Marks::StaleSent,
        (false, false, true) => Marks::Won,
        (true, false, true) => Marks::WonStale,
        (_, false, false) => Marks::Plain,
    }
}
