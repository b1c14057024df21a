//! Slot hints.

/// A slot hint: a guess of the slot of a key's entry. That slot is compared first, so a right hint saves the search. A wrong one costs a
/// comparison. No contract speaks of hints, since they affect only the speed.
#[derive(Clone, Copy, PartialEq, Eq)]
pub struct Hint {
    /// The place of the slot: its index plus one. 0 says nothing.
    pub(crate) slot: u32,
}

impl Hint {
    /// Returns the hint that says nothing.
    #[inline]
    pub fn none() -> Hint {
        Hint { slot: 0 }
    }
}
