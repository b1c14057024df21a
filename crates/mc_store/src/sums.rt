//! Sums over all items of a store.
ghost use Rattle.std.specs.Prelude.{◌≡◌, ◌+◌, ◌<◌, ◌≤◌, ◌^◌, [], length};
ghost use Rattle.mc_store.specs.Items.{Items, longest_of};
ghost use Rattle.mc_store.specs.declared.sums.TheConstants.{LONG};
ghost use Rattle.mc_store.specs.Sums.{IsSumOf, long_one, with_value, without_value};

/// The most bytes of a value that is not long.
pub const LONG: usize = 65_536;

/// What the items of a store cost, how many values are long, and a bound for the longest.
#[derive(Clone, Copy, Debug)]
pub struct Sums {
    /// What the items cost, in bytes.
    pub used: u64,
    /// The number of values that have more than [`LONG`] bytes.
    pub long: u64,
    /// The length of the longest value that was put since the store was empty or cleared.
    pub longest: usize,
}

impl Sums {
    /// Returns the sums of no item.
    pub fn none() -> Sums
        ensures { IsSumOf result [] }
    {
        Sums {
            used: 0,
            long: 0,
            longest: 0,
        }
    }

    /// Returns a number of bytes that no value is longer than: at most [`LONG`] if no value is long.
    pub fn longest(self) -> usize
        ensures bound { (items : Items) → IsSumOf self items → longest_of items ≤ result }
        ensures short { self.long ≡ 0 → result ≤ LONG }
    {
        if self.long == 0 {
            return self.longest.min(LONG);
        }
        self.longest
    }

    /// Adds a value of `length` bytes, whose item costs `price`.
    pub fn add(&mut self, price: u64, length: usize)
        requires used { self.old.used + price < 2 ^ 64 }
        requires long { self.old.long + 1 < 2 ^ 64 }
        ensures { self.new ≡ with_value price length self.old }
    {
        self.used += price;
        self.long += long_one(length);
        self.longest = self.longest.max(length);
    }

    /// Subtracts a value of `length` bytes, whose item costs `price`.
    pub fn take_away(&mut self, price: u64, length: usize)
        requires used { price ≤ self.old.used }
        requires long { long_one length ≤ self.old.long }
        ensures { self.new ≡ without_value price length self.old }
    {
        self.used -= price;
        self.long -= long_one(length);
    }
}

/// Returns 1 for the length of a long value, else 0.
fn long_one(length: usize) -> u64
    ensures { result ≡ long_one length }
{
    if LONG < length { 1 } else { 0 }
}
