//! When a file that may change is looked at, and when its content is taken.
ghost use Rattle.std.specs.Prelude.{◌≡◌, ◌&&◌, ◌+◌, ◌-◌, ◌^◌, false, min, not, if◌then◌else◌};

use crate::limits::{LOOK_MILLIS, SETTLE_MILLIS};

/// When a file that may change is looked at, and whether its last content was taken. New content is taken once another look,
/// [`SETTLE_MILLIS`] later, has found the same: so nothing is taken of a file that is still being written.
#[derive(Clone, Copy, Debug)]
pub struct Looks {
    /// When it is looked at next, in milliseconds.
    next: u64,
    /// Whether the last content was taken.
    taken: bool,
}

impl Looks {
    /// Makes the state in which nothing was found, and a look is due.
    pub fn new() -> Looks
        ensures next { result.next ≡ 0 }
    {
        Looks {
            next: 0,
            taken: true,
        }
    }

    /// Returns when the next look is due.
    pub fn due(&self) -> u64
        ensures { result ≡ self.now.next }
    {
        self.next
    }

    /// Records a look at a moment, and whether it has found the same as the one before. The result is whether that must be taken now.
    pub fn note(&mut self, same: bool, now: u64) -> bool
        ensures take { result ≡ (same && not self.old.taken) }
        ensures taken { self.new.taken ≡ same }
        ensures next { self.new.next ≡ min (now + (if same then LOOK_MILLIS else SETTLE_MILLIS)) (2 ^ 64 - 1) }
    {
        let pause = if same { LOOK_MILLIS } else { SETTLE_MILLIS };
        self.next = now.saturating_add(pause);
        let take = same && !self.taken;
        self.taken = same;
        take
    }

    /// Makes the next look take the last content again: it could not be taken whole.
    pub fn again(&mut self)
        ensures taken { self.new.taken ≡ false }
        ensures next { self.new.next ≡ self.old.next }
    {
        self.taken = false;
    }
}
