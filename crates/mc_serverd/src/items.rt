//! The most items that a server may have.
ghost use Rattle.std.specs.Prelude.{◌≡◌};
ghost use Rattle.mc_serverd.specs.Bounds.{advice_of, items_for, items_named};

use mc_cache::MAX_ITEMS;
use mc_text::read_u64;
use std::fmt;
use std::fmt::{Display, Formatter};

/// The most items, by default.
pub const USUAL_ITEMS: usize = 65_536;

/// The bytes of the budget for each item, if the number of items follows the budget.
const BYTES_AN_ITEM: u64 = 120;

/// How many items a server may have, as its operator states it.
#[derive(Clone, Copy, Debug, PartialEq, Eq)]
pub enum Items {
    /// At most this many: 1 to [`MAX_ITEMS`].
    Most(usize),
    /// One for each 120 bytes of the budget, from [`USUAL_ITEMS`] to [`MAX_ITEMS`].
    Auto,
}

/// Reads a word: `auto`, or a number from 1 to [`MAX_ITEMS`]. Any other word gives none.
pub fn items_named(word: &str) -> Option<Items>
    ensures { result ≡ items_named word.now }
{
    if word == "auto" {
        return Some(Items::Auto);
    }
    match read_u64(word.as_bytes()) {
        Some(items) if items > 0 && items <= MAX_ITEMS as u64 => Some(Items::Most(items as usize)),
        _ => None,
    }
}

/// Returns the most items under a budget.
pub fn items_for(items: Items, budget: u64) -> usize
    ensures { result ≡ items_for items budget }
{
    match items {
        Items::Most(items) => items,
        Items::Auto => ((budget / BYTES_AN_ITEM).min(MAX_ITEMS as u64) as usize).max(USUAL_ITEMS),
    }
}

/// What an operator can do if a server's items are at their limit, while more than half of its budget is free.
#[derive(Clone, Copy, Debug, PartialEq, Eq)]
pub enum Advice {
    /// Start it with `--items auto`.
    Auto,
    /// Start another server: this one has as many items as a server can have.
    Another,
}

impl Display for Advice {
    fn fmt<W: fmt::Write>(&self, f: &mut Formatter<W>) -> fmt::Result {
        match self {
            Advice::Auto => f.write_str("write --items auto"),
            Advice::Another => f.write_str("a server holds no more: start another one"),
        }
    }
}

/// Returns the advice for a server that has `held` items, which cost `used`, under these limits: none unless its items are at their
/// limit, while more than half of its budget is free.
pub fn advice_of(held: usize, used: u64, items: usize, budget: u64) -> Option<Advice>
    ensures { result ≡ advice_of held used items budget }
{
    if held < items || u128::from(used) * 2 >= u128::from(budget) {
        return None;
    }
    if items < items_for(Items::Auto, budget) {
        Some(Advice::Auto)
    } else {
        Some(Advice::Another)
    }
}
