//! The counts of a store's operations.
ghost use Rattle.std.specs.Prelude.{◌≡◌};

use crate::refusals::Refusals;
use mc_admin::StoreFigures;
use std::cell::Cell;
use std::fmt;
use std::fmt::{Display, Formatter};

/// The counts of a store since it was made, as far as its operator sees them, and how often memory was refused. The caller sets the
/// moment, which decides whether an item is expired. Each number begins again at 0 after 2^64 - 1.
///
/// The numbers are in cells, since a store and its host share them. No clause sees what a cell holds: tests show that each call counts,
/// and that [`figures`](StoreStats::figures) has each number under its name.
#[derive(Drop)]
pub struct StoreStats {
    moment: Cell<u64>,
    hits: Cell<u64>,
    misses: Cell<u64>,
    stores: Cell<u64>,
    evictions: Cell<u64>,
    expired: Cell<u64>,
    items: Cell<usize>,
    used: Cell<u64>,
    refusals: Cell<Refusals>,
}

impl StoreStats {
    /// Makes counts of 0, at the moment 0.
    pub fn new() -> StoreStats {
        StoreStats {
            moment: Cell::new(0),
            hits: Cell::new(0),
            misses: Cell::new(0),
            stores: Cell::new(0),
            evictions: Cell::new(0),
            expired: Cell::new(0),
            items: Cell::new(0),
            used: Cell::new(0),
            refusals: Cell::new(Refusals::new()),
        }
    }

    /// Sets the moment.
    pub fn come_to(&self, moment: u64) {
        self.moment.set(moment);
    }

    /// Returns the moment.
    pub fn moment(&self) -> u64 {
        self.moment.get()
    }

    /// Counts a retrieval of a key that found an item.
    pub fn hit(&self) {
        add_one(&self.hits);
    }

    /// Counts a retrieval of a key that found none.
    pub fn miss(&self) {
        add_one(&self.misses);
    }

    /// Counts an item that was stored.
    pub fn store(&self) {
        add_one(&self.stores);
    }

    /// Counts an item that was evicted.
    pub fn evict(&self) {
        add_one(&self.evictions);
    }

    /// Counts an expired item that was removed or replaced.
    pub fn expire(&self) {
        add_one(&self.expired);
    }

    /// Counts `count` calls that were refused memory, and whose clients were closed.
    pub fn refuse(&self, count: u64) {
        let mut refusals = self.refusals.get();
        refusals.note(count, self.moment.get(), self.stores.get());
        self.refusals.set(refusals);
    }

    /// Counts `count` stores that were refused memory: each got an error line, and its client stays connected.
    pub fn refuse_stores(&self, count: u64) {
        let mut refusals = self.refusals.get();
        refusals.note_answered(count);
        self.refusals.set(refusals);
    }

    /// Returns how often memory was refused.
    pub fn refused(&self) -> u64 {
        self.refusals.get().count
    }

    /// Returns whether clients were closed for lack of memory for `seconds` seconds while no item was stored; with 0 none were.
    pub fn is_over(&self, seconds: u64) -> bool {
        self.refusals.get().is_over(seconds, self.stores.get())
    }

    /// Sets how many items the store has now, and what they cost.
    pub fn hold(&self, items: usize, used: u64) {
        self.items.set(items);
        self.used.set(used);
    }

    /// Returns what the store has done and has, with its limits.
    pub fn figures(&self, budget: u64, most: usize) -> StoreFigures
        ensures budget { result.budget ≡ budget }
        ensures most { result.most ≡ most }
    {
        let (items, used) = self.held();
        StoreFigures {
            hits: self.hits.get(),
            misses: self.misses.get(),
            stores: self.stores.get(),
            evictions: self.evictions.get(),
            expired: self.expired.get(),
            no_memory: self.refused(),
            items: items as u64,
            used,
            budget,
            most: most as u64,
        }
    }

    /// Returns how many items the store has, and what they cost.
    pub fn held(&self) -> (usize, u64) {
        (self.items.get(), self.used.get())
    }
}

impl Display for StoreStats {
    fn fmt<W: fmt::Write>(&self, f: &mut Formatter<W>) -> fmt::Result {
        let (hits, misses, stores) = (self.hits.get(), self.misses.get(), self.stores.get());
        let (evictions, expired) = (self.evictions.get(), self.expired.get());
        let (items, bytes) = self.held();
        write!(f, "hits={hits} misses={misses} stores={stores}")?;
        write!(
            f,
            " evictions={evictions} expired={expired} items={items} bytes={bytes}"
        )?;
        write!(f, " no_memory={}", self.refused())
    }
}

/// Adds one to a number.
fn add_one(number: &Cell<u64>) {
    number.set(number.get().wrapping_add(1));
}
