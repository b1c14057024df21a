//! The numbers that items get.
ghost use Rattle.std.specs.Prelude.{◌≡◌, ◌+◌, ◌^◌, ◌<◌, ℕ, OnSome, IfNone};
ghost use Rattle.std.specs.Option.{SomeIff};

use std::marker::Model;

/// A counter of 64 bits that gives each number once. Contracts see the last number that it gave.
#[derive(Clone, Copy, Debug)]
pub struct CasCounter {
    last: u64,
}

impl Model for CasCounter {
    ghost Value = { ℕ };

    ghost view = { λ c. c.last };

    ghost inverse = { λ last. record { last = last } };
}

impl CasCounter {
    /// Makes a counter that gave `last` as its last number.
    pub fn starting_at(last: u64) -> CasCounter
        ensures { result ≡ last }
    {
        CasCounter { last }
    }

    /// Returns the next number, one above the last. It returns `None` if that has more than 64 bits:
    /// the counter stays.
    pub fn next(&mut self) -> Option<u64>
        ensures number { SomeIff result (self.old + 1 < 2 ^ 64) (self.old + 1) }
        ensures counter { OnSome result (self.new ≡ self.old + 1) }
        ensures used_up { IfNone result (self.new ≡ self.old) }
    {
        self.last = self.last.checked_add(1)?;
        Some(self.last)
    }
}
