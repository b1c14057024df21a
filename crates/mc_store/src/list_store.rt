//! `ListStore`: items in a plain list.
ghost use Rattle.std.specs.Prelude.{◌≡◌, ◌<◌, ◌^◌, [], ◌+◌, position, is_some, IfSome, IfNone, Some, None};
ghost use Rattle.std.specs.Option.{option_map};
ghost use Rattle.std.specs.Str.{bytes_eq};
ghost use Rattle.mc_store.specs.Items.{body_at, without, brought, item_cost, cost_sum, longest_of};
ghost use Rattle.mc_store.specs.Places.{HoldsAt};

use crate::stores::Store;
use mc_item::{Body, Deadline, cost};
use mc_table::Hint;
use mc_text::Key;
use std::alloc::Global;
use std::marker::Model;
use std::mem;

/// The items in a plain list, and what they cost. Each call with a key searches the list once, from the front, and
/// `longest` reads all of it. It has no slots, and ignores hints.
///
/// Contracts see the keys and bodies. What they cost together stays below 2^63.
#[derive(Drop)]
pub struct ListStore {
    entries: Vec<(Key, Body)>,
    used: u64,
}

impl Model for ListStore {
    ghost use Rattle.std.specs.Prelude.{◌≡◌, ◌<◌, ◌^◌};
    ghost use Rattle.mc_store.specs.Items.{Items, cost_sum};

    ghost Value = { Items };

    ghost view = { λ s. s.entries.items };

    ghost invariant = { λ s. (s.used ≡ cost_sum s.entries.items) × (s.used < 2 ^ 63) };
}

impl ListStore {
    /// Makes a store with no item. It takes no memory.
    pub fn new(alloc: Global) -> Self
        ensures { result ≡ [] }
    {
        ListStore {
            entries: Vec::new(alloc),
            used: 0,
        }
    }
}

#[tactic(auto, using(crate::proofs::KeptLemmas::costs))]
impl Store for ListStore {
    ghost items = { λ s. s };

    ghost most = { λ _. None };

    fn len(&self) -> usize {
        self.entries.len()
    }

    fn used(&self) -> u64 {
        self.used
    }

    fn longest(&self) -> usize {
        longest_in(self.entries.as_slice())
    }

    fn find(&self, key: &[u8], _hint: Hint) -> Option<(Hint, &Body)> {
        let place = place_of(self.entries.as_slice(), key)?;
        Some((Hint::none(), &self.entries[place].1))
    }

    fn front(&self) -> Option<&Body> {
        let entry = self.entries.first()?;
        Some(&entry.1)
    }

    fn bring(&mut self, key: &[u8], _hint: Hint) -> bool {
        brought(&mut self.entries, key)
    }

    fn expire(&mut self, key: &[u8], _hint: Hint, expiry: Deadline) -> bool {
        if !brought(&mut self.entries, key) {
            return false;
        }
        self.entries[0].1.expiry = expiry;
        true
    }

    fn mark(&mut self, key: &[u8], _hint: Hint, stale: bool, won: bool, cas: u64) -> bool {
        if !brought(&mut self.entries, key) {
            return false;
        }
        let body = &mut self.entries[0].1;
        body.stale = stale;
        body.won = won;
        body.cas = cas;
        true
    }

    fn take(&mut self, key: &[u8], _hint: Hint) -> Option<Body> {
        let (own, body) = taken_out(&mut self.entries, key)?;
        self.used -= cost(&own, &body);
        Some(body)
    }

    fn replace(&mut self, key: &[u8], _hint: Hint, body: Body) -> Result<Body, Body> {
        if !brought(&mut self.entries, key) {
            return Err(body);
        }
        let more = body.value.len() as u64;
        let before = mem::replace(&mut self.entries[0].1, body);
        self.used -= before.value.len() as u64;
        self.used += more;
        Ok(before)
    }

    fn put_front(&mut self, key: Key, body: Body) -> Result<(), (Key, Body)> {
        let price = cost(&key, &body);
        if let Err(failed) = self.entries.insert(0, (key, body)) {
            return Err(failed.value);
        }
        self.used += price;
        Ok(())
    }

    fn drop_last(&mut self) -> Option<(Key, Body)> {
        let last = self.entries.pop()?;
        self.used -= cost(&last.0, &last.1);
        Some(last)
    }

    fn clear(&mut self) {
        self.entries.clear();
        self.used = 0;
    }
}

/// Returns the length of the longest value.
#[tactic(auto, using(crate::proofs::LongestLemmas::steps))]
fn longest_in(entries: &[(Key, Body)]) -> usize
    ensures { result ≡ longest_of entries.now }
{
    let mut longest: usize = 0;
    for entry in entries {
        longest = longest.max(entry.1.value.len());
    }
    longest
}

/// Moves the key's item to the front, and returns whether it exists. An item that is first already is not moved.
fn brought(entries: &mut Vec<(Key, Body)>, key: &[u8]) -> bool
    ensures held { result ≡ is_some (body_at key.now entries.old.items) }
    ensures items { entries.new.items ≡ brought key.now (body_at key.now entries.old.items) entries.old.items }
{
    let Some(place) = place_of(entries.as_slice(), key) else {
        return false;
    };
    if place > 0 {
        let entry = entries.remove(place);
        entries.insert(0, entry).unwrap();
    }
    true
}

/// Removes and returns the key's item.
#[tactic(auto, using(crate::proofs::KeptLemmas::costs, crate::proofs::ItemLemmas::absent))]
fn taken_out(entries: &mut Vec<(Key, Body)>, key: &[u8]) -> Option<(Key, Body)>
    ensures body { option_map (λ item. item.1) result ≡ body_at key.now entries.old.items }
    ensures items { entries.new.items ≡ without key.now entries.old.items }
    ensures cost { IfSome result (λ item. item_cost item + cost_sum entries.new.items ≡ cost_sum entries.old.items) }
    ensures unchanged { IfNone result (entries.new.items ≡ entries.old.items) }
{
    let place = place_of(entries.as_slice(), key)?;
    Some(entries.remove(place))
}

/// Returns the index of the key's item.
fn place_of(entries: &[(Key, Body)], key: &[u8]) -> Option<usize>
    ensures found { IfSome result (HoldsAt key.now entries.now) }
    ensures absent { IfNone result (body_at key.now entries.now ≡ None) }
{
    first_of(entries, key)
}

fn first_of(entries: &[(Key, Body)], key: &[u8]) -> Option<usize>
    ensures { result ≡ position (λ entry. bytes_eq entry.0 key.now) entries.now }
{
    entries.iter().position(|entry| entry.0.as_bytes() == key)
}
