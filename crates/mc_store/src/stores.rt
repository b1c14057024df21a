//! The interface between a cache and its items.
ghost use Rattle.std.specs.Prelude.{ℕ, Option, ◌≡◌, ◌∷◌, ◌++◌, ◌+◌, ◌<◌, ◌≤◌, ◌^◌, [], length, is_some, None, Some, IfOk, OnOk, IfErr, OnErr, IfSome, IfNone};
ghost use Rattle.std.specs.Option.{option_copied, option_map};
ghost use Rattle.mc_item.specs.Costs.{cost_of};
ghost use Rattle.mc_store.specs.Items.{Items, body_at, front_body, without, brought, expiring, marking, cost_sum, longest_of};

use mc_item::{Body, Deadline};
use mc_table::Hint;
use mc_text::Key;

/// The items of a cache, at most one under each key, most recent first.
///
/// A key is looked up by its bytes. Most calls that look one up take a hint of its item's slot ([`Hint`]), which affects only the speed.
/// Only [`Store::put_front`] takes memory.
pub trait Store {
    /// The keys and bodies, most recent first.
    ghost items: { Self → Items };

    /// The most items, if there is such a number. No call changes it.
    ghost most: { Self → Option ℕ };

    /// Returns the number of items.
    fn len(&self) -> usize
        ensures { result ≡ length (items self.now) };

    /// Returns what the items cost, in bytes.
    fn used(&self) -> u64
        ensures { result ≡ cost_sum (items self.now) };

    /// Returns a number of bytes that no value is longer than. It may exceed the longest stored value.
    fn longest(&self) -> usize
        ensures { longest_of (items self.now) ≤ result };

    /// Returns the body under the key. The order stays.
    fn peek(&self, key: &[u8]) -> Option<&Body>
        ensures { option_copied result ≡ body_at key.now (items self.now) }
    {
        let (_, body) = self.find(key, Hint::none())?;
        Some(body)
    }

    /// Returns the body under the key, and a hint of its item's slot. The order stays.
    ///
    /// The hint is right until an item is inserted, replaced or removed. Calls other than [`Store::peek`], [`Store::find`] and
    /// [`Store::prefetch`] also end it, if their key is not stored. Those calls may move items.
    fn find(&self, key: &[u8], hint: Hint) -> Option<(Hint, &Body)>
        ensures { option_map (λ found. found.1.now) result ≡ body_at key.now (items self.now) };

    /// Returns the body of the first item.
    fn front(&self) -> Option<&Body>
        ensures { option_copied result ≡ front_body (items self.now) };

    /// Moves the key's item to the front, and returns whether it exists.
    fn bring(&mut self, key: &[u8], hint: Hint) -> bool
        ensures held { result ≡ is_some (body_at key.now (items self.old)) }
        ensures items { items self.new ≡ brought key.now (body_at key.now (items self.old)) (items self.old) }
        ensures most { most self.new ≡ most self.old };

    /// Returns whether [`Store::prefetch`] prefetches: several items are found faster together than each by itself.
    fn prefetches(&self) -> bool {
        false
    }

    /// Prefetches the items of keys: writes a hint for each key. A hint may be wrong, and [`Hint::none`] says that no slot was found. It is
    /// worth its time if [`Store::prefetches`]. A store without slots leaves the hints as they are. The returned byte is made of what was
    /// read, and only keeps the loads alive.
    fn prefetch(&self, _keys: &[&[u8]], _hints: &mut [Hint]) -> u8 {
        0
    }

    /// Sets the expiry of the key's item, moves it to the front, and returns whether it exists.
    fn expire(&mut self, key: &[u8], hint: Hint, expiry: Deadline) -> bool
        ensures held { result ≡ is_some (body_at key.now (items self.old)) }
        ensures items { items self.new
            ≡ brought key.now (expiring expiry (body_at key.now (items self.old))) (items self.old) }
        ensures most { most self.new ≡ most self.old };

    /// Sets the two marks and the number of the key's item, moves it to the front, and returns whether it exists.
    fn mark(&mut self, key: &[u8], hint: Hint, stale: bool, won: bool, cas: u64) -> bool
        ensures held { result ≡ is_some (body_at key.now (items self.old)) }
        ensures items { items self.new
            ≡ brought key.now (marking stale won cas (body_at key.now (items self.old))) (items self.old) }
        ensures most { most self.new ≡ most self.old };

    /// Returns the hint that is right for the first item; [`Hint::none`] if no slot is known.
    fn first_hint(&self) -> Hint {
        Hint::none()
    }

    /// Removes the key's item, and returns its body.
    fn take(&mut self, key: &[u8], hint: Hint) -> Option<Body>
        ensures body { result ≡ body_at key.now (items self.old) }
        ensures items { items self.new ≡ without key.now (items self.old) }
        ensures most { most self.new ≡ most self.old };

    /// Replaces the body under a stored key, moves its item to the front, and returns the old body.
    ///
    /// If the key is not stored, `Err` returns the new body.
    fn replace(&mut self, key: &[u8], hint: Hint, body: Body) -> Result<Body, Body>
        requires { cost_sum (items self.old) + cost_of key.now body.value < 2 ^ 63 }
        ensures before { IfOk result (λ before. body_at key.now (items self.old) ≡ Some before) }
        ensures ok { OnOk result (items self.new ≡ (key.now, body) ∷ without key.now (items self.old)) }
        ensures absent { OnErr result (body_at key.now (items self.old) ≡ None) }
        ensures back { IfErr result (λ back. back ≡ body) }
        ensures err { OnErr result (items self.new ≡ items self.old) }
        ensures most { most self.new ≡ most self.old };

    /// Inserts an item in front, under a key that is not stored.
    ///
    /// If there is no memory, `Err` returns the key and the body.
    fn put_front(&mut self, key: Key, body: Body) -> Result<(), (Key, Body)>
        requires absent { body_at key (items self.old) ≡ None }
        requires room { IfSome (most self.old) (λ most. length (items self.old) < most) }
        requires cost { cost_sum (items self.old) + cost_of key body.value < 2 ^ 63 }
        ensures ok { OnOk result (items self.new ≡ (key, body) ∷ items self.old) }
        ensures back { IfErr result (λ back. back ≡ (key, body)) }
        ensures err { OnErr result (items self.new ≡ items self.old) }
        ensures most { most self.new ≡ most self.old };

    /// Removes and returns the last item.
    fn drop_last(&mut self) -> Option<(Key, Body)>
        ensures last { IfSome result (λ last. items self.old ≡ items self.new ++ last ∷ []) }
        ensures empty { IfNone result ((items self.old ≡ []) × (items self.new ≡ [])) }
        ensures most { most self.new ≡ most self.old };

    /// Removes all items.
    fn clear(&mut self)
        ensures items { items self.new ≡ [] }
        ensures most { most self.new ≡ most self.old };

    /// Reports that a retrieval of a key was answered, and whether an item is shown. A store that counts retrievals says what it
    /// does with that; no other does anything.
    fn retrieved(&self, _is_hit: bool) {}
}
