//! Places in the order of their last use.
ghost use Rattle.std.specs.Prelude.{◌≡◌, ◌<◌, ◌≤◌, ◌+◌, ◌-◌, ◌^◌, ◌∷◌, [], suc, length, take, IfOk, OnOk, OnErr};
ghost use Rattle.mc_table.specs.Places.{first_of, last_of, left_out, renumbered, AreAll};
ghost use Rattle.mc_table.specs.Rings.{link_at, joined, unlinked, linked_before, places_of, IsRing};

use crate::lru_nodes::LruNode;
use std::alloc::{AllocError, Global};
use std::marker::Model;

/// Places, each of the numbers from 1 to their count, in an order: the most recent first.
///
/// Contracts see the places. Each call takes the same time for any number of places. A place takes 8 bytes.
#[derive(Drop)]
pub struct LruList {
    /// The node of each place. That of place 0 leads to the first and to the last.
    links: Vec<LruNode>,
}

impl Model for LruList {
    ghost use Rattle.std.specs.Prelude.{List, ℕ};
    ghost use Rattle.mc_table.specs.Rings.{places_of, IsRing};

    ghost Value = { List ℕ };

    ghost view = { λ o. places_of o.links.items };

    ghost invariant = { λ o. IsRing o.links.items (places_of o.links.items) };
}

impl LruList {
    /// Makes a list of no place, with room for `places`.
    pub fn with_capacity(alloc: Global, places: usize) -> Result<LruList, AllocError>
        ensures { IfOk result (λ order. order ≡ []) }
    {
        let mut links = Vec::with_capacity(alloc, places.saturating_add(1))?;
        links.push(LruNode {
            before: 0,
            after: 0,
        })?;
        Ok(LruList { links })
    }

    /// Returns the number of places.
    pub fn len(&self) -> usize
        ensures len { result ≡ length self.now }
        ensures all { AreAll self.now }
    {
        self.links.len() - 1
    }

    /// Returns the first place, or 0 if there is none.
    pub fn first(&self) -> u32
        ensures { result ≡ first_of self.now }
    {
        self.links[0].after
    }

    /// Returns the last place, or 0 if there is none.
    pub fn last(&self) -> u32
        ensures { result ≡ last_of self.now }
    {
        self.links[0].before
    }

    /// Prefetches the links before a place and after it. The returned byte is made of them, and only keeps the loads alive.
    #[inline]
    pub fn prefetch_neighbours(&self, place: u32) -> u8 {
        let Some(link) = self.links.get(place as usize) else {
            return 0;
        };
        let [before, after] = [link.before, link.after].map(|place| self.place_after(place));
        ((before ^ after) & 0xFF) as u8
    }

    /// Returns the place after another one, or 0 if there is no such place.
    fn place_after(&self, place: u32) -> u32 {
        match self.links.get(place as usize) {
            Some(link) => link.after,
            None => 0,
        }
    }

    /// Inserts one more place in front: the least number that is not in the order.
    ///
    /// `Err` says that there is no memory, or that no number of 32 bits is left. Then nothing has changed.
    pub fn push_front(&mut self) -> Result<(), AllocError>
        ensures ok { OnOk result (self.new ≡ suc (length self.old) ∷ self.old) }
        ensures small { OnOk result (length self.new < 2 ^ 32) }
        ensures err { OnErr result (self.new ≡ self.old) }
    {
        let place = self.links.len();
        if place > u32::MAX as usize {
            return Err(AllocError);
        }
        self.links.push(LruNode {
            before: 0,
            after: 0,
        })?;
        let links = self.links.as_mut_slice();
        let first = links[0].after;
        link_before(links, place as u32, first);
        Ok(())
    }

    /// Moves a place to the front.
    pub fn to_front(&mut self, place: u32)
        requires positive { 0 < place }
        requires within { place ≤ length self.old }
        ensures { self.new ≡ place ∷ left_out place self.old }
    {
        if self.links[0].after != place {
            bring(self.links.as_mut_slice(), place);
        }
    }

    /// Removes all places.
    pub fn clear(&mut self)
        ensures { self.new ≡ [] }
    {
        self.links.truncate(1);
        let links = self.links.as_mut_slice();
        links[0] = LruNode {
            before: 0,
            after: 0,
        };
    }

    /// Removes a place. The greatest place takes its number.
    pub fn remove(&mut self, place: u32)
        requires positive { 0 < place }
        requires within { place ≤ length self.old }
        ensures { self.new ≡ renumbered (length self.old) place (left_out place self.old) }
    {
        take_out(self.links.as_mut_slice(), place);
        self.links.pop();
    }
}

/// Links two places, so that one follows the other.
#[tactic(auto, unfolding(crate::specs::Rings::joined))]
fn join(links: &mut [LruNode], previous: u32, next: u32)
    requires previous { previous < length links.old }
    requires next { next < length links.old }
    ensures { links.new ≡ joined links.old previous next }
{
    links[previous as usize].after = next;
    links[next as usize].before = previous;
}

/// Joins the neighbours of a place.
#[tactic(auto, unfolding(crate::specs::Rings::unlinked))]
fn unlink(links: &mut [LruNode], place: u32)
    requires place { place < length links.old }
    requires before { (link_at links.old place).before < length links.old }
    requires after { (link_at links.old place).after < length links.old }
    ensures { links.new ≡ unlinked links.old place }
{
    let link = links[place as usize];
    join(links, link.before, link.after);
}

/// Inserts a place right before another.
#[tactic(auto, unfolding(crate::specs::Rings::linked_before), using(crate::proofs::LinkLemmas::lengths))]
fn link_before(links: &mut [LruNode], place: u32, next: u32)
    requires place { place < length links.old }
    requires next { next < length links.old }
    requires before { (link_at links.old next).before < length links.old }
    ensures { links.new ≡ linked_before links.old place next }
{
    let previous = links[next as usize].before;
    join(links, previous, place);
    join(links, place, next);
}

/// Moves a place to the front.
#[tactic(auto, using(crate::proofs::LinkLemmas::lengths))]
fn bring(links: &mut [LruNode], place: u32)
    requires ring { IsRing links.old (places_of links.old) }
    requires positive { 0 < place }
    requires within { place ≤ length (places_of links.old) }
    ensures ring { IsRing links.new (place ∷ left_out place (places_of links.old)) }
    ensures length { length links.new ≡ length links.old }
{
    unlink(links, place);
    let first = links[0].after;
    link_before(links, place, first);
}

/// Removes a place, and gives its number to the greatest. Then the last link is free.
#[tactic(auto, using(crate::proofs::LinkLemmas::lengths))]
fn take_out(links: &mut [LruNode], place: u32)
    requires ring { IsRing links.old (places_of links.old) }
    requires positive { 0 < place }
    requires within { place ≤ length (places_of links.old) }
    ensures ring { IsRing (take (length links.new - 1) links.new)
        (renumbered (length (places_of links.old)) place (left_out place (places_of links.old))) }
    ensures length { length links.new ≡ length links.old }
{
    unlink(links, place);
    let last = (links.len() - 1) as u32;
    if last != place {
        let next = links[last as usize].after;
        unlink(links, last);
        link_before(links, place, next);
    }
}
