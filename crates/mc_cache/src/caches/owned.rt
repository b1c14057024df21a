//! Commands whose key and block are owned. A server executes borrowed ones, and those of large sets by [`Cache::set`].
ghost use Rattle.std.specs.Prelude.{◌≡◌, ◌<◌, ◌^◌, ℕ, List, true};
ghost use Rattle.mc_request.specs.declared.parts.Atom.TheVariants.{Update as AnUpdate, Meta as AMeta};
ghost use Rattle.mc_reply.specs.Replies.{filled};
ghost use Rattle.mc_cache.specs.Step.{step_of};
ghost use Rattle.mc_cache.specs.Memory.{may_refuse};
ghost use Rattle.mc_cache.specs.Refusals.{is_refusal, value_after};

use super::Cache;
use super::storing::own_body;
use mc_reply::Reply;
use mc_request::{Atom, MetaCommand, Update};
use mc_store::{Hint, Store};
use mc_text::{Block, Key};

impl<S: Store + Drop> Cache<S> {
    /// Executes one command at a moment, in seconds since 1970. Its key and its block are owned.
    ///
    /// It takes memory only if it stores a key that is not stored yet, or makes a stored value longer. If there is
    /// none the reply is `Fault::OutOfMemory`, and nothing changes except what the moment causes: a flush that is
    /// due, and the removal of the key's expired item.
    pub fn step(&mut self, atom: Atom<Block>, moment: u64) -> Reply<()>
        requires { moment < 2 ^ 63 }
        ensures step { step_of self.old atom moment (is_refusal result)
            ≡ (self.new, filled result (value_after atom self.new)) }
        ensures refusal { is_refusal result ≡ true → may_refuse self.old atom moment ≡ true }
    {
        match atom {
            Atom::Get {
                key,
                exptime,
                with_cas,
            } => self.get(key.as_bytes(), Hint::none(), exptime, with_cas, moment),
            Atom::Update(update) => self.update_by_own(update, moment),
            Atom::Meta(command) => self.meta_by_own(command, moment),
        }
    }

    /// Executes a meta command whose key and block are owned.
    fn meta_by_own(&mut self, command: MetaCommand<Key, Block>, moment: u64) -> Reply<()>
        requires { moment < 2 ^ 63 }
        ensures step { step_of self.old (AMeta command) moment (is_refusal result)
            ≡ (self.new, filled result (value_after (AMeta command) self.new)) }
        ensures refusal { is_refusal result ≡ true → may_refuse self.old (AMeta command) moment ≡ true }
    {
        match command {
            MetaCommand::Get { key, get } => {
                self.meta_get(key.as_bytes(), Hint::none(), &get, moment)
            }
            MetaCommand::Update { update, show } => {
                let reply = self.update_by_own(update, moment);
                self.tell(reply, &show, moment)
            }
        }
    }

    /// Executes `Update`, whose key and block are owned. Its reply shows no value.
    fn update_by_own(&mut self, update: Update<Key, Block>, moment: u64) -> Reply<()>
        requires { moment < 2 ^ 63 }
        ensures step { (value : List ℕ) → step_of self.old (AnUpdate update) moment (is_refusal result)
            ≡ (self.new, filled result value) }
        ensures refusal { is_refusal result ≡ true → may_refuse self.old (AnUpdate update) moment ≡ true }
    {
        match update {
            Update::Store {
                mode,
                compare,
                key,
                flags,
                exptime,
                block,
            } => {
                let body = own_body(flags, exptime, block, moment);
                let found = self.settle(key.as_bytes(), Hint::none(), moment);
                self.store_own(mode, compare, key, body, found)
            }
            Update::Touch { key, exptime } => self.touch(
                key.as_bytes(),
                Hint::none(),
                exptime,
                moment,
            ),
            Update::Delete {
                key,
                compare,
                invalidate,
            } => self.delete(key.as_bytes(), Hint::none(), compare, invalidate, moment),
            Update::Count { key, counting } => self.count(
                key.as_bytes(),
                Hint::none(),
                &counting,
                moment,
            ),
            Update::FlushAll { delay } => self.flush_all(delay, moment),
        }
    }
}
