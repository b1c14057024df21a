//! Things by their numbers, which rise.
ghost use Rattle.std.specs.Prelude.{◌≡◌, ◌<◌, ◌-◌, ◌^◌, [], Some, None, length, slice_index_or, option_copied, IfSome, IfNone, IfOk, OnOk, OnErr};
ghost use Rattle.std.specs.Option.{option_copied_mut};
ghost use Rattle.std.specs.Borrow.{sem};

use std::alloc::{AllocError, Global};
use std::marker::Model;

/// Things of one type, each under a number that it was given. Contracts see the entries in the order of their numbers, and
/// the number of the next.
#[derive(Drop)]
pub struct Numbered<T> {
    entries: Vec<(u64, T)>,
    next: u64,
    /// The index of the entry that was changed last: most often the next call is for the same one.
    recent: usize,
}

impl<T> Model for Numbered<T> {
    ghost use Rattle.mc_table.specs.Entries.{Numbering};

    ghost Value = { Numbering T };

    ghost use Rattle.mc_table.specs.Rises.{Rises};

    ghost view = { λ n. record { entries = n.entries.items; next = n.next } };

    ghost invariant = { λ n. Rises 0 n.entries.items n.next };
}

impl<T> Numbered<T> {
    ghost use Rattle.mc_table.specs.Entries.{entry_of, without, with_next};
    ghost use Rattle.mc_table.specs.Rises.{Rises, IsAt};
    ghost use Rattle.mc_table.specs.NumberedLends.{LendsPlace, LendsEntry};

    /// Makes a list of nothing, with 0 as the number of the first. It takes no memory.
    pub fn new(alloc: Global) -> Self
        ensures { result ≡ record { entries = []; next = 0 } }
    {
        Numbered {
            entries: Vec::new(alloc),
            next: 0,
            recent: 0,
        }
    }

    /// Returns the number of entries.
    pub fn len(&self) -> usize
        ensures { result ≡ length self.now.entries }
    {
        self.entries.len()
    }

    /// Returns the number of the next entry.
    pub fn next_number(&self) -> u64
        ensures { result ≡ self.now.next }
    {
        self.next
    }

    /// Returns what is under a number.
    pub fn get(&self, number: u64) -> Option<&T>
        ensures { option_copied result ≡ entry_of self.now.entries number }
    {
        let place = self.place_of(number)?;
        Some(&self.entries[place].1)
    }

    /// Returns what is under a number, to be changed.
    pub fn get_mut(&mut self, number: u64) -> Option<&mut T>
        ensures* writes_back { sem 𝓛 (LendsEntry T.row self.entry number result) }
        ensures value { option_copied_mut result ≡ entry_of self.old.entries number }
    {
        let place = self.place_of(number)?;
        Some(self.at_mut(place))
    }

    /// Returns the entry at an index, to be changed. The next look-up tries it first.
    fn at_mut(&mut self, place: usize) -> &mut T
        requires { place < length self.old.entries }
        ensures* writes_back { sem 𝓛 (LendsPlace T.row self.entry place result) }
        ensures value { result.now ≡ (slice_index_or self.old.entries place (0, result.now)).1 }
    {
        self.recent = place;
        let entry = &mut self.entries[place];
        &mut entry.1
    }

    /// Returns the index of a number's entry.
    fn place_of(&self, number: u64) -> Option<usize>
        ensures rises { Rises 0 self.now.entries self.now.next }
        ensures found { IfSome result (IsAt self.now.entries number) }
        ensures absent { IfNone result (entry_of self.now.entries number ≡ None) }
    {
        match self.entries.get(self.recent) {
            Some(entry) if entry.0 == number => Some(self.recent),
            _ => self.search(number),
        }
    }

    /// Returns the index of a number's entry, by binary search.
    fn search(&self, number: u64) -> Option<usize>
        ensures found { IfSome result (IsAt self.now.entries number) }
        ensures absent { IfNone result (entry_of self.now.entries number ≡ None) }
    {
        self.entries
            .binary_search_by_key(&number, |entry| entry.0)
            .ok()
    }
}

impl<T: Drop> Numbered<T> {
    ghost use Rattle.mc_table.specs.Entries.{entry_of, without, with_next};

    /// Adds a thing, and returns the number that it has from now on. At an error it is dropped.
    pub fn push(&mut self, value: T) -> Result<u64, AllocError>
        requires { self.old.next < 2 ^ 64 - 1 }
        ensures number { IfOk result (λ number. number ≡ self.old.next) }
        ensures pushed { OnOk result (self.new ≡ with_next value self.old) }
        ensures was_free { IfOk result (λ number. entry_of self.old.entries number ≡ None) }
        ensures is_there { IfOk result (λ number. entry_of self.new.entries number ≡ Some value) }
        ensures err { OnErr result (self.new ≡ self.old) }
    {
        let number = self.next;
        self.entries.push((number, value))?;
        self.next += 1;
        Ok(number)
    }

    /// Removes and returns what is under a number, if there is something. No other thing gets the number.
    pub fn remove(&mut self, number: u64) -> Option<T>
        ensures removed { result ≡ entry_of self.old.entries number }
        ensures others { self.new ≡ record self.old { entries = without number self.old.entries } }
        ensures is_free { entry_of self.new.entries number ≡ None }
        ensures unchanged { IfNone result (self.new ≡ self.old) }
    {
        let place = self.place_of(number)?;
        Some(self.entries.remove(place).1)
    }
}
